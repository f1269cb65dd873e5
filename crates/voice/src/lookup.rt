// What stands in a voice file at an index: an energy, a pitch, a K value, a pulse. File and width stay two parameters: of a struct of both,
// each clause would say `voice.entry.file.now` and `voice.entry.pitch_bits`.
ghost use Rattle.std.specs.Prelude.{◌≡◌};
ghost use Rattle.voice.specs.Layout.{energy_at, pitch_at, k_at, pulse_at};

use crate::layout::{Table, count_at, entry_at, k_begin, signed_byte, signed_word};
use base::bytes::byte_at;
use rom::frames::PitchWidth;

// Energy and pitch differ by their table, and so do their definitions: a line each.
pub fn energy(file: &[u8], index: u8, pitch_bits: PitchWidth) -> i32
    ensures { result ≡ energy_at pitch_bits file.now index }
{
    i32::from(entry_at(file, Table::Energy, u16::from(index), pitch_bits))
}

pub fn pitch(file: &[u8], index: u8, pitch_bits: PitchWidth) -> i32
    ensures { result ≡ pitch_at pitch_bits file.now index }
{
    i32::from(entry_at(file, Table::Pitch, u16::from(index), pitch_bits))
}

// The value of K number `number`, K1 being number 0.
#[tactic(auto, using(crate::proofs::Places::total_take_le))]
pub fn k(file: &[u8], number: usize, index: u8, pitch_bits: PitchWidth) -> i32
    ensures { result ≡ k_at pitch_bits file.now number index }
{
    let place = k_begin(number) + u16::from(index);
    signed_word(entry_at(file, Table::K, place, pitch_bits))
}

// The pulse at a place, 0 past the last.
#[tactic(auto, unfolding(crate::specs::Layout::pulse_at))]
pub fn pulse(file: &[u8], place: u32, pitch_bits: PitchWidth) -> i32
    ensures { result ≡ pulse_at pitch_bits file.now place }
{
    let count_place = count_at(pitch_bits);
    let count = byte_at(file, count_place);
    if place < u32::from(count) {
        signed_byte(byte_at(file, count_place + 1 + place as usize))
    } else {
        0
    }
}
