// The walk, its part and the frame taken, for frames at a frame rate: the operations that document 02 adds, over those of `rom`.
ghost use Rattle.std.specs.Prelude.{◌≡◌};
ghost use Rattle.base.specs.Answers.{number_of_answer};
ghost use Rattle.rom.specs.Frames.{pitch_width, numbers_of};
ghost use Rattle.rom.specs.Phrases.{walk_answer};
ghost use Rattle.rates.specs.Walks.{rate_fault, rated_walk_of, rated_phrase_of, rated_taken_answer, rated_taken_of};

use crate::rate::FrameRate;
use base::refusal::Refusal;
use rom::bits::image_valid;
use rom::phrases::{Extent, part_walked, walk_from};
use rom::reader::{Taken, taken_from};

// The fault of a call told a rate: 3, then 4 where the rate is out of range, then 2 where the caller has found that what is asked for
// lies beyond the end.
pub fn rate_fault(image: &[u8], rate: FrameRate, beyond: bool) -> Result<(), Refusal>
    ensures { number_of_answer result ≡ rate_fault image.now rate beyond }
{
    if !image_valid(image) {
        return Err(Refusal::Image);
    }
    if !rate.valid() {
        return Err(Refusal::State);
    }
    if beyond {
        return Err(Refusal::Beyond);
    }
    Ok(())
}

// Operation: the walk from a byte address, told v and rr.
pub fn walk(image: &[u8], address: usize, rate: FrameRate) -> Result<Extent, Refusal>
    ensures { walk_answer result ≡ rated_walk_of pitch_width rate image.now address }
{
    rate_fault(image, rate, image.len() <= address)?;
    walk_from(image, 8 * address, rate)
}

// Operation: the part of the image that its phrase takes, empty where the walk is refused.
pub fn phrase(image: &[u8], address: usize, rate: FrameRate) -> &[u8]
    ensures { result.now ≡ rated_phrase_of pitch_width rate image.now address }
{
    part_walked(image, address, walk(image, address, rate))
}

// Operation: the frame at a bit of an image, told v; and its 13 numbers are those of the definition's frame.
#[tactic(auto, using(crate::proofs::Answers::take_answered))]
pub fn frame_taken(image: &[u8], bit: usize, v: u8) -> Result<Taken, Refusal>
    ensures value { rated_taken_answer result ≡ rated_taken_of pitch_width v image.now bit }
    ensures frame_numbers { numbers_of (rated_taken_answer result).frame ≡ numbers_of (rated_taken_of pitch_width v image.now bit).frame }
{
    let rate = FrameRate { v, rr: 0 };
    rate_fault(image, rate, image.len() <= bit / 8)?;
    taken_from(image, bit, rate)
}
