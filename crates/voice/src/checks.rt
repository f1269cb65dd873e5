// The check of a voice file, with the width of the pitch field and the version as parameters.
ghost use Rattle.std.specs.Prelude.{◌≡◌, ◌<◌, ◌≤◌, length};
ghost use Rattle.base.specs.Answers.{number_of_answer};
ghost use Rattle.rom.specs.Frames.{pitch_width};
ghost use Rattle.voice.specs.Layout.{entries, entry_at, count_at};
ghost use Rattle.voice.specs.Check.{version, size_fault, length_fault, version_fault, unsigned_valid, k_valid, entry_valid, table_valid, value_fault, pulse_fault, voice_fault};

use crate::layout::{
    LENGTH_BYTES, Table, be16_within, count_at, entries, length_field, length_with, signed_word,
    table_start,
};
use base::bytes::byte_at;
use base::refusal::Refusal;
use rom::frames::PitchWidth;

// The version of the TMS5220 and TMS5200.
const VERSION: u8 = 1;

// The most pulses.
const PULSE_LIMIT: u8 = 64;

// The most that an energy or a pitch can be.
pub const VALUE_MAX: u16 = 1023;

pub const K_MIN: i32 = -512;

pub const K_MAX: i32 = 511;

// Whether the file has too few bytes or too many.
fn size_fault(file: &[u8], pitch_bits: PitchWidth) -> bool
    ensures { result ≡ size_fault pitch_bits file.now }
{
    let before = count_at(pitch_bits) + 1;
    !(before + 1..=before + usize::from(PULSE_LIMIT)).contains(&file.len())
}

// Whether the length field is not the size minus 2.
fn length_fault(file: &[u8]) -> bool
    ensures { result ≡ length_fault file.now }
{
    usize::from(length_field(file)) + LENGTH_BYTES != file.len()
}

// Whether the version byte is not `version`.
fn version_fault(file: &[u8], version: u8) -> bool
    ensures { result ≡ version_fault version file.now }
{
    byte_at(file, LENGTH_BYTES) != version
}

// Whether an entry of a table of unsigned words is in range: `least` to 1023, but the first 0.
fn unsigned_valid(least: u16, index: u16, word: u16) -> bool
    ensures { result ≡ unsigned_valid least index word }
{
    if index == 0 {
        word == 0
    } else {
        (least..=VALUE_MAX).contains(&word)
    }
}

// Whether a K value is in range.
fn k_valid(word: u16) -> bool
    ensures { result ≡ k_valid word }
{
    (K_MIN..=K_MAX).contains(&signed_word(word))
}

// Whether an entry of a table is in range.
fn entry_valid(table: Table, index: u16, word: u16) -> bool
    ensures { result ≡ entry_valid table index word }
{
    match table {
        Table::Energy => unsigned_valid(0, index, word),
        Table::Pitch => unsigned_valid(1, index, word),
        Table::K => k_valid(word),
    }
}

// A file that has its tables whole, and the width of its device's pitch field. Nobody compares or prints it.
#[derive(Clone, Copy)]
struct Tables<'a> {
    file: &'a [u8],
    pitch_bits: PitchWidth,
    ghost whole: { count_at pitch_bits ≤ length file.now },
}

impl Tables<'_> {
    // Entry `index` of a table: neither byte is tested against the file's end.
    fn entry(&self, table: Table, index: u16) -> u16
        requires { index < entries self.now.pitch_bits table }
        ensures { result ≡ entry_at self.now.pitch_bits self.now.file.now table index }
    {
        be16_within(
            self.file,
            table_start(table, self.pitch_bits) as usize + 2 * usize::from(index),
        )
    }

    // Whether every entry of a table is in range.
    fn is_valid(&self, table: Table) -> bool
        ensures { result ≡ table_valid self.now.pitch_bits self.now.file.now table }
    {
        // `all`, which stops at the first that is not, takes eight times the instructions.
        let mut valid = true;
        #[tactic(auto, unfolding(crate::specs::Check::entries_valid))]
        for i in 0..entries(table, self.pitch_bits) {
            valid &= entry_valid(table, i, self.entry(table, i));
        }
        valid
    }

    // Whether a table value is out of range.
    fn value_fault(&self) -> bool
        ensures { result ≡ value_fault self.now.pitch_bits self.now.file.now }
    {
        !(self.is_valid(Table::Energy) && self.is_valid(Table::Pitch) && self.is_valid(Table::K))
    }
}

// Whether the pulse count is 0, over 64, or not that of the length field.
fn pulse_fault(file: &[u8], pitch_bits: PitchWidth) -> bool
    ensures { result ≡ pulse_fault pitch_bits file.now }
{
    let count = byte_at(file, count_at(pitch_bits));
    !(1..=PULSE_LIMIT).contains(&count) || length_field(file) != length_with(count, pitch_bits)
}

// The first fault of a file of a device with that pitch width and that version.
#[tactic(auto, unfolding(crate::specs::Check::voice_fault))]
pub fn voice_fault(file: &[u8], pitch_bits: PitchWidth, version: u8) -> Result<(), Refusal>
    ensures { number_of_answer result ≡ voice_fault pitch_bits version file.now }
{
    if size_fault(file, pitch_bits) {
        return Err(Refusal::VoiceSize);
    }
    if length_fault(file) {
        return Err(Refusal::VoiceLength);
    }
    if version_fault(file, version) {
        return Err(Refusal::VoiceVersion);
    }
    if (Tables { file, pitch_bits }).value_fault() {
        return Err(Refusal::VoiceValue);
    }
    if pulse_fault(file, pitch_bits) {
        return Err(Refusal::VoicePulse);
    }
    Ok(())
}

// Operation: the check of a voice file.
pub fn voice_check(file: &[u8]) -> Result<(), Refusal>
    ensures { number_of_answer result ≡ voice_fault pitch_width version file.now }
{
    voice_fault(file, PitchWidth::TMS5220, VERSION)
}
