// A walk.
ghost use Rattle.std.specs.Prelude.{◌≡◌};
ghost use Rattle.rom.specs.Phrases.{walk_answer};
ghost use Rattle.answer_numbers.specs.Answers.{walk_numbers};

use base::refusal::{Refusal, Shortfall};
use base::units::{Frames, Intervals, Samples};
use rom::phrases::Extent;

// The numbers of a walk from a byte address, by what it tells. Its contract takes any numbers, those of no walk too.
pub fn walk_numbers(address: usize, refusal: u8, extent: Extent, short: Shortfall) -> [usize; 8]
    ensures { result ≡ walk_numbers address (record { refusal = refusal; bits = extent.bits; frames = extent.frames; intervals = extent.intervals; samples = extent.samples; short = short }) }
{
    let (offset, length) = if refusal == 0 {
        (address, extent.bits.div_ceil(8))
    } else {
        (0, 0)
    };
    [
        extent.bits,
        extent.frames.count() as usize,
        extent.intervals.count() as usize,
        extent.samples.count() as usize,
        short.begun,
        short.missing,
        offset,
        length,
    ]
}

// The same, by its answer.
pub fn walked_numbers(address: usize, walked: Result<Extent, Refusal>) -> [usize; 8]
    ensures { result ≡ walk_numbers address (walk_answer walked) }
{
    match walked {
        Ok(extent) => walk_numbers(address, 0, extent, Shortfall::none()),
        Err(refusal) => {
            let nothing = Extent {
                bits: 0,
                frames: Frames::of(0),
                intervals: Intervals::of(0),
                samples: Samples::of(0),
            };
            walk_numbers(address, refusal.number(), nothing, refusal.shortfall())
        }
    }
}
