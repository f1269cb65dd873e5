// The phrase walk over an image: its numbers, and the part of the image that the phrase takes.
ghost use Rattle.std.specs.Prelude.{◌≡◌, ◌+◌, ◌*◌, ◌-◌, ◌≤◌, length, IfOk, Ok};
ghost use Rattle.rom.specs.Bits.{image_limit};
ghost use Rattle.rom.specs.Frames.{pitch_width};
ghost use Rattle.rom.specs.Items.{items_from};
ghost use Rattle.rom.specs.Form.{item_code, read_item, rated_accepted, rated_over};
ghost use Rattle.rom.specs.Phrases.{walk_answer, walk_of, part_of, phrase_of};

use crate::bits::{field_at, image_fault, narrow_at, wide_at};
use crate::form::{FrameForm, Plain};
use crate::frames::is_stop;
use crate::head::head_of;
use crate::reader::frame_in;
use base::refusal::Refusal;
use base::units::{Frames, Intervals, Samples};

// What a phrase takes: its bits, and its frames with their duration in each unit.
#[derive(Clone, Copy, Debug, PartialEq, Eq)]
pub struct Extent {
    pub bits: usize,
    pub frames: Frames,
    pub intervals: Intervals,
    pub samples: Samples,
}

fn extent_of(bits: usize, count: u32, skipped: u64) -> Extent
    requires { skipped ≤ 8 * count }
    ensures { walk_answer (Ok result) ≡ rated_accepted bits count (8 * count - skipped) }
{
    let frames = Frames::of(count);
    let intervals = Intervals::of(frames.intervals().count() - skipped);
    Extent {
        bits,
        frames,
        intervals,
        samples: intervals.samples(),
    }
}

// The walk from bit `start` on, through the first stop, of an image that has passed the checks. The frame is `frame_from`, written out, so
// that each of the calls comes into this loop, and the wide window, whose K nobody asks for, is left out of it. The position moves by each
// frame's bits. With `?` in place of `let .. else` a frame costs five times as much.
pub fn walk_from<F: FrameForm>(image: &[u8], start: usize, form: F) -> Result<Extent, Refusal>
    requires { (length image.now ≤ image_limit) × (start ≤ 8 * length image.now) }
    ensures { walk_answer result ≡ rated_over (F.form form) image.now start (items_from (item_code (F.form form)) (read_item (F.form form) image.now) start (8 * length image.now)) }
{
    let prefix = form.prefix();
    let pitch = form.pitch();
    let mut at = start;
    let mut count: u32 = 0;
    let mut skipped: u64 = 0;
    loop {
        let bits = field_at(image, at, prefix);
        let first = at + prefix;
        let head = head_of(narrow_at(image, first), pitch);
        let window = wide_at(image, first);
        let answer = frame_in(head, window, at, first, 8 * image.len(), pitch);
        let Ok((frame, next)) = answer else {
            return Err(Refusal::NoPhrase(answer.unwrap_err()));
        };
        at = next;
        count += 1;
        skipped += form.skipped(bits).count();
        if is_stop(frame) {
            return Ok(extent_of(at - start, count, skipped));
        }
    }
}

// Operation: the walk from a byte address.
pub fn walk(image: &[u8], address: usize) -> Result<Extent, Refusal>
    ensures { walk_answer result ≡ walk_of pitch_width image.now address }
{
    image_fault(image, image.len() <= address)?;
    walk_from(image, 8 * address, Plain)
}

// The part of an image from a byte address on that a phrase of `bits` bits takes, by the number of its walk. A number, for its contract takes
// any.
pub fn part_of(image: &[u8], address: usize, refusal: u8, bits: usize) -> &[u8]
    requires { refusal ≡ 0 → (8 * address + bits ≤ 8 * length image.now) × (length image.now ≤ image_limit) }
    ensures { result.now ≡ part_of image.now address refusal bits }
{
    if refusal == 0 {
        &image[address..address + bits.div_ceil(8)]
    } else {
        &image[0..0]
    }
}

// The same, by its walk.
pub fn part_walked(image: &[u8], address: usize, walked: Result<Extent, Refusal>) -> &[u8]
    requires { IfOk walked (λ extent. (8 * address + extent.bits ≤ 8 * length image.now) × (length image.now ≤ image_limit)) }
    ensures { result.now ≡ part_of image.now address (walk_answer walked).refusal (walk_answer walked).bits }
{
    match walked {
        Ok(extent) => part_of(image, address, 0, extent.bits),
        Err(_) => &image[0..0],
    }
}

// Operation: the part of the image that the phrase at a byte address takes, empty where the walk is refused.
pub fn phrase(image: &[u8], address: usize) -> &[u8]
    ensures { result.now ≡ phrase_of pitch_width image.now address }
{
    part_walked(image, address, walk(image, address))
}
