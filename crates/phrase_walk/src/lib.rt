// The phrase walk whole: its numbers together with the part of the image, in a struct that holds the part. The work is done by
// `rom::phrases` and `rates::walks`.
#![tactic(auto)]

ghost use Rattle.std.specs.Prelude.{◌≡◌, ◌+◌, ◌*◌, ◌≤◌, length};
ghost use Rattle.base.specs.Refusals.{TAKEN};
ghost use Rattle.rom.specs.Bits.{image_limit};
ghost use Rattle.rom.specs.Frames.{pitch_width};
ghost use Rattle.rom.specs.Phrases.{part_of, walk_of, phrase_of};
ghost use Rattle.rates.specs.Walks.{rated_walk_of, rated_phrase_of};
ghost use Rattle.phrase_walk.specs.Answers.{numbers_of_answer, part_of_answer};

use base::refusal::Refusal;
use rates::rate::FrameRate;
use rom::phrases::{Extent, part_of, walk};

// A phrase: the part of the image through the byte with the stop's last bit, and its extent.
#[derive(Clone, Copy, Debug)]
pub struct Phrase<'a> {
    pub part: &'a [u8],
    pub extent: Extent,
}

// The phrase that a walk has found from a byte address on.
fn found<'a>(image: &'a [u8], address: usize, extent: Extent) -> Phrase<'a>
    requires { (8 * address + extent.bits ≤ 8 * length image.now) × (length image.now ≤ image_limit) }
    ensures { (result.extent ≡ extent) × (result.part.now ≡ part_of image.now address TAKEN extent.bits) }
{
    Phrase {
        part: part_of(image, address, 0, extent.bits),
        extent,
    }
}

// Operation: the walk from a byte address.
pub fn walk_phrase<'a>(image: &'a [u8], address: usize) -> Result<Phrase<'a>, Refusal>
    ensures { (numbers_of_answer result ≡ walk_of pitch_width image.now address) × (part_of_answer result ≡ phrase_of pitch_width image.now address) }
{
    Ok(found(image, address, walk(image, address)?))
}

// Operation: the walk from a byte address, told v and rr. Documents 01 and 02 name the two; what they share is `found`.
pub fn walk_phrase_rated<'a>(
    image: &'a [u8],
    address: usize,
    rate: FrameRate,
) -> Result<Phrase<'a>, Refusal>
    ensures { (numbers_of_answer result ≡ rated_walk_of pitch_width rate image.now address) × (part_of_answer result ≡ rated_phrase_of pitch_width rate image.now address) }
{
    Ok(found(image, address, rates::walks::walk(image, address, rate)?))
}
