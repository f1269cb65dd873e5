// Scripts: their records, and the numbers in these.
#![tactic(auto)]

ghost use Rattle.std.specs.Prelude.{◌≡◌, ◌+◌, ◌^◌, ◌≤◌, ◌<◌, min, length};
ghost use Rattle.trace_script.specs.Script.{limit, run_limit, le32, le_i64, part_of, body_of, record_at};

use base::bytes::byte_at;
use std::array;

// The most bytes of a script.
pub const LIMIT: usize = 1048576;

// The most samples of a run.
pub const RUN_LIMIT: usize = 8192;

// How many numbers a chip's state has, in a record and in a line. Later ones are added at the end.
pub const STATE_LENGTH: usize = 69;

// The u32 from byte `at` on, little-endian. That it is below 2^32 follows from the bytes, of which the definition says no range.
#[tactic(auto, unfolding(crate::specs::Script::le32))]
pub fn le32(script: &[u8], at: usize) -> usize
    requires { at < 2 ^ 32 }
    ensures value { result ≡ le32 script.now at }
    ensures upper_bound { result < 2 ^ 32 }
{
    u32::from_le_bytes(array::from_fn(|i| byte_at(script, at + i))) as usize
}

// The i64 from byte `at` on, little-endian.
#[tactic(auto, unfolding(crate::specs::Script::le32))]
pub fn le_i64(script: &[u8], at: usize) -> i64
    requires { at + 4 < 2 ^ 32 }
    ensures { result ≡ le_i64 script.now at }
{
    i64::from_le_bytes(array::from_fn(|i| byte_at(script, at + i)))
}

// How many samples a run has, by the u32 from byte `at` on. No whole record has more than the limit.
pub fn run_length(script: &[u8], at: usize) -> usize
    requires { at < 2 ^ 32 }
    ensures { result ≡ min (le32 script.now at) run_limit }
{
    le32(script, at).min(RUN_LIMIT)
}

// The part of a script from a byte on up to another; empty where there is none.
pub fn part(script: &[u8], from: usize, end: usize) -> &[u8]
    ensures { result.now ≡ part_of script.now from end }
{
    script.get(from..end).unwrap_or_default()
}

// How many bytes the body after a letter has, whose first u32 is `count`; none where the letter begins no record. A letter is a byte of the script:
// this match is the table of docs/TRACE.md, of which an enum would be a second one.
#[tactic(auto, unfolding(crate::specs::Script::body_of))]
fn body_of(letter: u8, count: usize) -> Option<usize>
    requires { count < 2 ^ 32 }
    ensures { result ≡ body_of letter count }
{
    match letter {
        b'P' | b'Q' | b'R' | b'L' | b'K' | b'T' => Some(0),
        b'W' => Some(1),
        b'F' | b'A' => Some(4),
        b'U' if count <= RUN_LIMIT => Some(4),
        b'G' => Some(5),
        b'B' => Some(6),
        b'S' => Some(8 * STATE_LENGTH),
        b'I' | b'V' => Some(4 + count),
        b'O' if count % 256 <= 1 && count / 256 % 256 <= 1 => Some(2),
        _ => None,
    }
}

// The byte after the record that begins with byte `at`; none where it is cut off or no record.
pub fn record_at(script: &[u8], at: usize) -> Option<usize>
    requires { (at < length script.now) × (length script.now ≤ limit) }
    ensures { result ≡ record_at script.now at }
{
    let start = at + 1;
    let n = body_of(byte_at(script, at), le32(script, start))?;
    if n <= script.len() - start {
        Some(start + n)
    } else {
        None
    }
}
