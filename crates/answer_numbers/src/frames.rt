// A frame, and what is told of bits with it.
ghost use Rattle.std.specs.Prelude.{◌≡◌, [], ◌∷◌, ◌++◌};
ghost use Rattle.rates.specs.Walks.{rated_taken_answer};
ghost use Rattle.answer_numbers.specs.Answers.{frame_bytes, step_bits, frame_bits};

use base::refusal::{Refusal, Shortfall};
use reports::Details;
use rom::frames::{Numbers, numbers};
use rom::reader::Taken;

// The numbers of a frame, and its rate.
pub fn with_rate(frame: Numbers, rate: u8) -> [u8; 14]
    ensures { result ≡ frame ++ (rate ∷ []) }
{
    let mut bytes = [rate; 14];
    bytes[..13].copy_from_slice(&frame);
    bytes
}

// The numbers of a frame taken, zeros where none is.
pub fn taken_frame(answer: Result<Taken, Refusal>) -> [u8; 14]
    ensures { result ≡ frame_bytes (rated_taken_answer answer).frame (rated_taken_answer answer).rate }
{
    match answer {
        Ok(taken) => with_rate(numbers(Some(taken.frame)), taken.rate),
        Err(_) => with_rate(numbers(None), 0),
    }
}

// A step's bits.
pub fn step_bits(details: Details) -> [usize; 4]
    ensures { result ≡ step_bits details }
{
    [
        details.begun,
        details.used_up,
        details.missing,
        details.thrown,
    ]
}

// A frame's bits.
pub fn frame_bits(bits: usize, short: Shortfall) -> [usize; 3]
    ensures { result ≡ frame_bits bits short }
{
    [bits, short.begun, short.missing]
}

// The bits of a frame taken, and with 10 how short the image is.
pub fn taken_bits(answer: Result<Taken, Refusal>) -> [usize; 3]
    ensures { result ≡ frame_bits (rated_taken_answer answer).bits (rated_taken_answer answer).short }
{
    match answer {
        Ok(taken) => frame_bits(taken.bits, Shortfall::none()),
        Err(refusal) => frame_bits(0, refusal.shortfall()),
    }
}
