// What an image and a voice file hold, without a chip. C has a function for each device, and refusals as numbers.
ghost use Rattle.std.specs.Prelude.{◌≡◌};
ghost use Rattle.rom.specs.Frames.{pitch_width};
ghost use Rattle.rom.specs.Phrases.{walk_answer, walk_of};
ghost use Rattle.rom.specs.Reader.{frame_taken_of};
ghost use Rattle.rates.specs.Walks.{rated_walk_of, rated_taken_answer, rated_taken_of};
ghost use Rattle.voice.specs.Check.{voice_fault, version};
ghost use Rattle.answer_numbers.specs.Answers.{frame_bytes, frame_bits, walk_numbers};

use answer_numbers::frames::{taken_bits, taken_frame};
use answer_numbers::walks::walked_numbers;
use base::refusal::{Refusal, number_of};
use rates::rate::FrameRate;
use rom::phrases::{Extent, walk};
use rom::reader::{Taken, frame_taken};
use voice::checks::voice_check;

// The refusal number of a voice file.
#[unsafe(no_mangle)]
pub extern "C" fn tms_voice_check(voice: &[u8]) -> u8
    ensures { result ≡ voice_fault pitch_width version voice.now }
{
    number_of(&voice_check(voice))
}

// Tells a frame taken: its numbers, its bits, and the call's number. Out of line, and with the cases apart, the answer is read where it stands
// and tested once: without that a frame taken costs a tenth more.
#[inline(never)]
fn tell_frame(answer: Result<Taken, Refusal>, frame: &mut [u8; 14], extent: &mut [usize; 3]) -> u8
    ensures value { result ≡ (rated_taken_answer answer).refusal }
    ensures frame_after { frame.new ≡ frame_bytes (rated_taken_answer answer).frame (rated_taken_answer answer).rate }
    ensures extent_after { extent.new ≡ frame_bits (rated_taken_answer answer).bits (rated_taken_answer answer).short }
{
    match answer {
        Ok(_) => {
            *frame = taken_frame(answer);
            *extent = taken_bits(answer);
            0
        }
        Err(refusal) => {
            *frame = taken_frame(answer);
            *extent = taken_bits(answer);
            refusal.number()
        }
    }
}

// The frame at a bit, on the TMS5220.
#[unsafe(no_mangle)]
pub extern "C" fn tms_frame_at(
    image: &[u8],
    bit: usize,
    frame: &mut [u8; 14],
    extent: &mut [usize; 3],
) -> u8
    ensures value { result ≡ (frame_taken_of pitch_width image.now bit).refusal }
    ensures frame_after { frame.new ≡ frame_bytes (frame_taken_of pitch_width image.now bit).frame 0 }
    ensures extent_after { extent.new ≡ frame_bits (frame_taken_of pitch_width image.now bit).bits (frame_taken_of pitch_width image.now bit).short }
{
    tell_frame(frame_taken(image, bit), frame, extent)
}

// The frame at a bit, on the TMS5220C, told v.
#[unsafe(no_mangle)]
pub extern "C" fn tms_frame_at_5220c(
    image: &[u8],
    bit: usize,
    v: u8,
    frame: &mut [u8; 14],
    extent: &mut [usize; 3],
) -> u8
    ensures value { result ≡ (rated_taken_of pitch_width v image.now bit).refusal }
    ensures frame_after { frame.new ≡ frame_bytes (rated_taken_of pitch_width v image.now bit).frame (rated_taken_of pitch_width v image.now bit).rate }
    ensures extent_after { extent.new ≡ frame_bits (rated_taken_of pitch_width v image.now bit).bits (rated_taken_of pitch_width v image.now bit).short }
{
    tell_frame(rates::walks::frame_taken(image, bit, v), frame, extent)
}

// Tells a walk from a byte address: its numbers, and the call's number.
fn tell_walk(address: usize, answer: Result<Extent, Refusal>, phrase: &mut [usize; 8]) -> u8
    ensures value { result ≡ (walk_answer answer).refusal }
    ensures phrase_after { phrase.new ≡ walk_numbers address (walk_answer answer) }
{
    *phrase = walked_numbers(address, answer);
    number_of(&answer)
}

// The walk from a byte address, on the TMS5220.
#[unsafe(no_mangle)]
pub extern "C" fn tms_walk(image: &[u8], address: usize, phrase: &mut [usize; 8]) -> u8
    ensures value { result ≡ (walk_of pitch_width image.now address).refusal }
    ensures phrase_after { phrase.new ≡ walk_numbers address (walk_of pitch_width image.now address) }
{
    tell_walk(address, walk(image, address), phrase)
}

// The same on the TMS5220C, told v and rr.
#[unsafe(no_mangle)]
pub extern "C" fn tms_walk_5220c(
    image: &[u8],
    address: usize,
    v: u8,
    rr: u8,
    phrase: &mut [usize; 8],
) -> u8
    ensures value { result ≡ (rated_walk_of pitch_width (record { v = v; rr = rr }) image.now address).refusal }
    ensures phrase_after { phrase.new ≡ walk_numbers address (rated_walk_of pitch_width (record { v = v; rr = rr }) image.now address) }
{
    let rate = FrameRate { v, rr };
    tell_walk(address, rates::walks::walk(image, address, rate), phrase)
}
