// A reader that stays on a lent image and holds its bit position. The work is done by the functions of `rom::bits` and
// `rom::reader`.
#![tactic(auto)]

ghost use Rattle.std.specs.Prelude.{◌≡◌, ◌-◌, ◌≤◌, ◌<◌, ◌^◌, length};
ghost use Rattle.rom.specs.Bits.{field};
ghost use Rattle.rom.specs.Reader.{head_at, frame_at};
ghost use Rattle.bit_reader.specs.After.{after_field, after_frame};

use base::refusal::Shortfall;
use rom::bits::field_at;
use rom::frames::{Frame, PitchWidth};
use rom::head::Head;
use rom::reader::frame_at;

// The lent image, and the bit that the reader has come to.
#[derive(Clone, Copy, Debug)]
pub struct Reader<'a> {
    pub image: &'a [u8],
    pub at: usize,
}

// The field of a width at the position, which moves on past it.
pub fn next_field<'s, 'a>(r: &'s mut Reader<'a>, width: usize) -> u8
    requires { (width ≤ 8) × (r.old.at ≤ 2 ^ 32) }
    ensures { (result ≡ field r.old.image.now r.old.at width)
        × (r.new.image ≡ r.old.image)
        × (r.new.at ≡ after_field r.old.at width) }
{
    let value = field_at(r.image, r.at, width);
    r.at += width;
    value
}

// The bit after what was read at bit `at`: the bit after a whole frame, or `at` itself where the bits end first.
fn bit_after(at: usize, answer: Result<(Frame, usize), Shortfall>) -> usize
    ensures { result ≡ after_frame at answer }
{
    answer.map_or(at, |(_, next)| next)
}

// The frame at the position, which moves on past it where the frame is whole.
pub fn next_frame<'s, 'a>(
    r: &'s mut Reader<'a>,
    pitch_bits: PitchWidth,
) -> Result<(Frame, usize), Shortfall>
    requires { (r.old.at < 2 ^ 32 - 64) × (length r.old.image.now < 2 ^ 32) }
    ensures { (result ≡ frame_at pitch_bits r.old.image.now r.old.at)
        × (r.new.image ≡ r.old.image)
        × (r.new.at ≡ after_frame r.old.at (frame_at pitch_bits r.old.image.now r.old.at)) }
{
    let answer = frame_at(r.image, r.at, pitch_bits);
    r.at = bit_after(r.at, answer);
    answer
}

// The head of the frame at bit `at`: its fields, read one after another by a reader made here, so that its contract names no
// reader.
// It requires what `next_field` does at each of the three positions; the bound on the bit is that of `next_frame`.
pub fn head_fields(image: &[u8], at: usize, pitch_bits: PitchWidth) -> Head
    requires { at < 2 ^ 32 - 64 }
    ensures { result ≡ head_at pitch_bits image.now at }
{
    let mut r = Reader { image, at };
    Head {
        energy: next_field(&mut r, 4),
        repeat: next_field(&mut r, 1),
        pitch: next_field(&mut r, pitch_bits.bits()),
    }
}
