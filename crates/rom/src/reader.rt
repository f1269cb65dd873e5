// The frame reader over a lent slice and a bit, with the width of the pitch field as a parameter. It serves an image and a
// FIFO's bytes alike. And the operation that takes a frame at a bit of an image.
ghost use Rattle.std.specs.Prelude.{◌≡◌, List, ℕ, ◌+◌, ◌*◌, ◌-◌, ◌≤◌, ◌<◌, ◌^◌, length, IfOk};
ghost use Rattle.rom.specs.Window.{wide, Window};
ghost use Rattle.rom.specs.Frames.{pitch_width, numbers_of};
ghost use Rattle.rom.specs.Form.{read_item, rated_answer, rated_taken_answer};
ghost use Rattle.rom.specs.Reader.{head_at, frame_of, counted_to, cut_at, frame_from, frame_at, taken_answer, frame_taken_of};

use crate::bits::{WIDE, field_at, image_fault, narrow_at, part, wide_at};
use crate::form::{FrameForm, Plain};
use crate::frames::{Frame, PitchWidth};
use crate::head::{Head, Kind, head_of, kind_bits, kind_of};
use base::refusal::{Refusal, Shortfall};

// The bit up to which a frame from bit `at` up to bit `next` is counted, where the bits end at bit `end`.
fn counted_to(at: usize, next: usize, end: usize, pitch_bits: PitchWidth) -> usize
    requires { (at < 2 ^ 32 - 64) }
    ensures { result ≡ counted_to pitch_bits at next end }
{
    let energy = at + 4;
    if end < energy {
        return energy;
    }
    let pitch = at + 5 + pitch_bits.bits();
    if end < pitch { pitch } else { next }
}

// How short the bits are that end at bit `end`, before bit `next` with which the frame at bit `at` would be whole.
fn cut_at(begun: usize, at: usize, next: usize, end: usize, pitch_bits: PitchWidth) -> Shortfall
    requires { (begun ≤ at) × (at < 2 ^ 32 - 64) × (end < next) }
    ensures { result ≡ cut_at pitch_bits begun at next end }
{
    let there = begun.max(end);
    let wanted = counted_to(at, next, there, pitch_bits);
    Shortfall {
        begun,
        missing: wanted - there,
    }
}

// The frame of a kind and a head. Its K are parts of its window, which cost nothing where the caller does not use them.
fn frame_of(kind: Kind, head: Head, window: u64, pitch_bits: PitchWidth) -> Frame
    ensures { (s : List ℕ) (at : ℕ) → Window wide s at window → result ≡ frame_of kind head s (at + 5 + pitch_bits) }
{
    let energy = head.energy;
    let pitch = head.pitch;
    let k = 5 + pitch_bits.bits();
    let k1 = part(window, WIDE, k, 5);
    let k2 = part(window, WIDE, k + 5, 5);
    let k3 = part(window, WIDE, k + 10, 4);
    let k4 = part(window, WIDE, k + 14, 4);
    match kind {
        Kind::Silence => Frame::Silence,
        Kind::Stop => Frame::Stop,
        Kind::Repeat => Frame::Repeat { energy, pitch },
        Kind::Unvoiced => Frame::Unvoiced {
            energy,
            k1,
            k2,
            k3,
            k4,
        },
        Kind::Voiced => Frame::Voiced {
            energy,
            pitch,
            k1,
            k2,
            k3,
            k4,
            k5: part(window, WIDE, k + 18, 4),
            k6: part(window, WIDE, k + 22, 4),
            k7: part(window, WIDE, k + 26, 4),
            k8: part(window, WIDE, k + 30, 3),
            k9: part(window, WIDE, k + 33, 3),
            k10: part(window, WIDE, k + 36, 3),
        },
    }
}

// The frame at bit `at` with its head and its wide window, and the bit after it, where the slice has `end` bits; with its prefix it
// begins at bit `begun`. The head is a number of its own so that a caller which asks for no K, as the walk, costs no more than the head: taken
// into each caller, it leaves out what that one does not ask for.
#[inline(always)]
pub fn frame_in(
    head: Head,
    window: u64,
    begun: usize,
    at: usize,
    end: usize,
    pitch_bits: PitchWidth,
) -> Result<(Frame, usize), Shortfall>
    requires { (begun ≤ at) × (at < 2 ^ 32 - 64) }
    ensures { (s : List ℕ) → head ≡ head_at pitch_bits s at → Window wide s at window → end ≡ 8 * length s → result ≡ frame_from pitch_bits s begun at }
{
    let kind = kind_of(head);
    let next = at + kind_bits(kind, pitch_bits);
    if end < next {
        return Err(cut_at(begun, at, next, end, pitch_bits));
    }
    Ok((frame_of(kind, head, window, pitch_bits), next))
}

// The frame at bit `at`, which with its prefix begins at bit `begun`, and the bit after it. Taken into each caller, as what it hands back through
// memory costs a frame taken a quarter more.
#[inline(always)]
pub fn frame_from(
    s: &[u8],
    begun: usize,
    at: usize,
    pitch_bits: PitchWidth,
) -> Result<(Frame, usize), Shortfall>
    requires { (begun ≤ at) × (at < 2 ^ 32 - 64) × (length s.now < 2 ^ 32) }
    ensures { result ≡ frame_from pitch_bits s.now begun at }
{
    let head = head_of(narrow_at(s, at), pitch_bits);
    frame_in(head, wide_at(s, at), begun, at, 8 * s.len(), pitch_bits)
}

// The frame at bit `at`, without a prefix, and the bit after it.
pub fn frame_at(s: &[u8], at: usize, pitch_bits: PitchWidth) -> Result<(Frame, usize), Shortfall>
    requires { (at < 2 ^ 32 - 64) × (length s.now < 2 ^ 32) }
    ensures { result ≡ frame_at pitch_bits s.now at }
{
    frame_from(s, at, at, pitch_bits)
}

// A frame taken at a bit: the frame, the value of the rate bits before it, 0 where the device has none, and the bits of both. The frame
// stands first, as in what the reader hands back, so that it is copied as it lies there.
#[derive(Clone, Copy, Debug, PartialEq, Eq)]
pub struct Taken {
    pub frame: Frame,
    pub rate: u8,
    pub bits: usize,
}

// The frame at a bit of an image, with its prefix, where the bits have both.
pub fn taken_from<F: FrameForm>(image: &[u8], bit: usize, form: F) -> Result<Taken, Refusal>
    requires { (bit < 2 ^ 32 - 72) × (length image.now < 2 ^ 32) }
    ensures { rated_taken_answer result ≡ rated_answer (F.form form) (read_item (F.form form) image.now bit) }
{
    let prefix = form.prefix();
    let rate = field_at(image, bit, prefix);
    let answer = frame_from(image, bit, bit + prefix, form.pitch());
    let Ok((frame, next)) = answer else {
        return Err(Refusal::from(answer.unwrap_err()));
    };
    Ok(Taken {
        rate,
        frame,
        bits: next - bit,
    })
}

// Operation: the frame at a bit of an image; and its 13 numbers are those of the definition's frame.
pub fn frame_taken(image: &[u8], bit: usize) -> Result<Taken, Refusal>
    ensures value { taken_answer result ≡ frame_taken_of pitch_width image.now bit }
    ensures rate { IfOk result (λ taken. taken.rate ≡ 0) }
    ensures frame_numbers { numbers_of (taken_answer result).frame ≡ numbers_of (frame_taken_of pitch_width image.now bit).frame }
{
    image_fault(image, image.len() <= bit / 8)?;
    taken_from(image, bit, Plain)
}
