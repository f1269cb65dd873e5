// The bits of a lent image.
ghost use Rattle.std.specs.Prelude.{◌≡◌, List, ℕ, ◌+◌, ◌*◌, ◌/◌, ◌%◌, ◌≤◌, ◌<◌, ◌^◌, length};
ghost use Rattle.base.specs.Answers.{number_of_answer};
ghost use Rattle.rom.specs.Bits.{field, image_valid, image_fault};
ghost use Rattle.rom.specs.Window.{narrow, wide, Window};

use base::bytes::byte_at;
use base::refusal::Refusal;

// The most bytes of an image. A lent image stays a slice, and that it has no more a clause: of a struct round it, each `ensures` would say
// `image.entry.bytes.now`.
pub const IMAGE_LIMIT: usize = 262144;

// Whether the image is without fault 3.
pub fn image_valid(image: &[u8]) -> bool
    ensures { result ≡ image_valid image.now }
{
    0 < image.len() && image.len() <= IMAGE_LIMIT
}

// The fault of a call on an image: 3, then 2 where the caller has found that what is asked for lies beyond the end.
pub fn image_fault(image: &[u8], beyond: bool) -> Result<(), Refusal>
    ensures { number_of_answer result ≡ image_fault image.now beyond }
{
    if !image_valid(image) {
        return Err(Refusal::Image);
    }
    if beyond { Err(Refusal::Beyond) } else { Ok(()) }
}

// The number in the 32 bits from byte n on, where the slice has them all: one load and one swap for the compiler. Of `from_be_bytes` it would
// load each byte that the walk uses by itself.
fn word_in(s: &[u8], n: usize) -> u64
    requires { n + 3 < length s.now }
    ensures { result ≡ field s.now (8 * n) 32 }
{
    u64::from(u32::from_le_bytes([s[n], s[n + 1], s[n + 2], s[n + 3]]).swap_bytes())
}

// The number of two words, the first the more significant.
fn two_words(high: u64, low: u64) -> u64
    requires { (high < 2 ^ 32) × (low < 2 ^ 32) }
    ensures { result ≡ 2 ^ 32 * high + low }
{
    4294967296 * high + low
}

// Bounds on a bit and a width are clauses, here and in the reader: both are made anew at each call.

// The number in the 32 bits from byte n on, where the slice may end before them; quick where it has them all. The walk spends its
// time here.
fn be32(s: &[u8], n: usize) -> u64
    requires { n ≤ 2 ^ 33 }
    ensures { result ≡ field s.now (8 * n) 32 }
{
    if n + 3 < s.len() {
        word_in(s, n)
    } else {
        be32_at_end(s, n)
    }
}

// The same near the slice's end. Out of line, it takes no instruction of the walk's loop.
#[inline(never)]
fn be32_at_end(s: &[u8], n: usize) -> u64
    requires { n ≤ 2 ^ 33 }
    ensures { result ≡ field s.now (8 * n) 32 }
{
    u64::from(u32::from_be_bytes([
        byte_at(s, n),
        byte_at(s, n + 1),
        byte_at(s, n + 2),
        byte_at(s, n + 3),
    ]))
}

// The number in the 64 bits from byte n on.
fn be64(s: &[u8], n: usize) -> u64
    requires { n ≤ 2 ^ 32 }
    ensures { result ≡ field s.now (8 * n) 64 }
{
    two_words(be32(s, n), be32(s, n + 4))
}

// The bits of a narrow window: as many as four bytes have from any bit of the first on, and more than a head has.
pub(crate) const NARROW: usize = 25;

// The bits of a wide one: as many as eight bytes have, and more than a frame has.
pub(crate) const WIDE: usize = 57;

// One more than the largest word.
const WORD: u64 = 4294967296;

// The narrow window at bit `at`: the number in the 25 bits from there on, the first the most significant. The word is moved up to them and
// not down, which spares the walk an instruction a frame.
pub fn narrow_at(s: &[u8], at: usize) -> u64
    requires { at ≤ 2 ^ 32 }
    ensures { Window narrow s.now at result }
{
    ((be32(s, at / 8) << (at % 8)) % WORD) >> (32 - NARROW)
}

// The wide window at bit `at`.
pub fn wide_at(s: &[u8], at: usize) -> u64
    requires { at ≤ 2 ^ 32 }
    ensures { Window wide s.now at result }
{
    (be64(s, at / 8) >> (7 - at % 8)) % (1 << WIDE)
}

// The field of `width` bits after the first `skipped` of a window's `bits`, whatever image and bit the window is of.
pub(crate) fn part(window: u64, bits: usize, skipped: usize, width: usize) -> u8
    requires { (width ≤ 8) × (skipped + width ≤ bits) × (bits ≤ wide) }
    ensures { (s : List ℕ) (at : ℕ) → Window bits s at window → result ≡ field s (at + skipped) width }
{
    ((window >> (bits - skipped - width)) % (1 << width)) as u8
}

// The number in the `width` bits from bit `at` on, the first the most significant.
pub fn field_at(s: &[u8], at: usize, width: usize) -> u8
    requires { (width ≤ 8) × (at ≤ 2 ^ 32) }
    ensures { result ≡ field s.now at width }
{
    part(narrow_at(s, at), NARROW, 0, width)
}
