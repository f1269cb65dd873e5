// The layout of a voice file, with the width of the pitch field as a parameter.
ghost use Rattle.std.specs.Prelude.{◌≡◌, ◌+◌, ◌<◌, ◌≤◌, length};
ghost use Rattle.voice.specs.Layout.{pitches, be16, signed_byte, signed_word, k_begin, entries, table_start, entry_at, count_at, length_with, length_field};

use base::bytes::byte_at;
use rom::frames::PitchWidth;

// The tables of words, in the file's order. Nobody compares or prints them.
#[derive(Clone, Copy)]
pub(crate) enum Table {
    Energy,
    Pitch,
    K,
}

// The energies of a voice file.
const ENERGIES: u16 = 15;

// The K, where each begins among the K values, and how many those are.
const KS: usize = 10;

const K_BEGINS: [u16; KS] = [0, 32, 64, 80, 96, 112, 128, 144, 152, 160];

const K_VALUES: u16 = 168;

// The bytes of the length field. The version byte follows it.
pub(crate) const LENGTH_BYTES: usize = 2;

// Where the energies and the pitches start: after the version byte, and after the energies.
const ENERGY_START: u32 = LENGTH_BYTES as u32 + 1;

const PITCH_START: u32 = ENERGY_START + 2 * ENERGIES as u32;

// The big-endian word from byte `at` on.
fn be16(file: &[u8], at: u32) -> u16
    ensures { result ≡ be16 file.now at }
{
    let i = at as usize;
    u16::from_be_bytes([byte_at(file, i), byte_at(file, i + 1)])
}

// The big-endian word from byte `at` on, of a file that has both bytes.
pub(crate) fn be16_within(file: &[u8], at: usize) -> u16
    requires { at + 1 < length file.now }
    ensures { result ≡ be16 file.now at }
{
    u16::from_be_bytes([file[at], file[at + 1]])
}

pub(crate) fn length_field(file: &[u8]) -> u16
    ensures { result ≡ length_field file.now }
{
    be16(file, 0)
}

// A byte in two's complement.
#[tactic(auto, unfolding(crate::specs::Layout::twos_complement))]
pub(crate) fn signed_byte(b: u8) -> i32
    ensures { result ≡ signed_byte b }
{
    i32::from(b.cast_signed())
}

// A word in two's complement.
#[tactic(auto, unfolding(crate::specs::Layout::twos_complement))]
pub(crate) fn signed_word(w: u16) -> i32
    ensures { result ≡ signed_word w }
{
    i32::from(w.cast_signed())
}

// Where K number `number` begins among the K values, K1 being number 0; past K10 where they end.
pub(crate) fn k_begin(number: usize) -> u16
    ensures { result ≡ k_begin number }
{
    K_BEGINS.get(number).copied().unwrap_or(K_VALUES)
}

// How many pitches a file has: one for each index of `pitch_bits` bits.
fn pitches(pitch_bits: PitchWidth) -> u16
    ensures { (result ≡ pitches pitch_bits) × (result ≤ pitches 8) }
{
    1 << pitch_bits.bits()
}

// How many entries a table has.
pub(crate) fn entries(table: Table, pitch_bits: PitchWidth) -> u16
    ensures { result ≡ entries pitch_bits table }
{
    match table {
        Table::Energy => ENERGIES,
        Table::Pitch => pitches(pitch_bits),
        Table::K => K_VALUES,
    }
}

// Where a table starts.
pub(crate) fn table_start(table: Table, pitch_bits: PitchWidth) -> u32
    ensures { (result ≡ table_start pitch_bits table) × (result ≤ count_at 8) }
{
    match table {
        Table::Energy => ENERGY_START,
        Table::Pitch => PITCH_START,
        Table::K => PITCH_START + 2 * u32::from(pitches(pitch_bits)),
    }
}

// Entry `index` of a table.
pub(crate) fn entry_at(file: &[u8], table: Table, index: u16, pitch_bits: PitchWidth) -> u16
    ensures { result ≡ entry_at pitch_bits file.now table index }
{
    be16(file, table_start(table, pitch_bits) + 2 * u32::from(index))
}

// Where the pulse count stands. The pulses follow it.
pub(crate) fn count_at(pitch_bits: PitchWidth) -> usize
    ensures { (result ≡ count_at pitch_bits) × (result ≤ count_at 8) }
{
    PITCH_START as usize + 2 * usize::from(pitches(pitch_bits)) + 2 * usize::from(K_VALUES)
}

// The length field of a file with `count` pulses: the bytes of version, tables, pulse count and pulses.
pub(crate) fn length_with(count: u8, pitch_bits: PitchWidth) -> u16
    ensures { result ≡ length_with pitch_bits count }
{
    1 + 2 * (ENERGIES + pitches(pitch_bits) + K_VALUES) + 1 + u16::from(count)
}
