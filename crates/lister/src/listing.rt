// The listing of an image from a byte address on: its first line, and its frame lines, collected in a buffer.
ghost use Rattle.std.specs.Prelude.{◌≡◌, ◌++◌, ◌+◌, ◌≤◌, ◌<◌, length, take, Err};
ghost use Rattle.base.specs.declared.refusal.Refusal.TheVariants.{Image};
ghost use Rattle.rom.specs.Frames.{pitch_width};
ghost use Rattle.rom.specs.Phrases.{walk_answer, walk_of};
ghost use Rattle.lister.specs.Text.{contents};
ghost use Rattle.lister.specs.Listing.{line_at, after, lines_from, listing_of, Fills};

use crate::asked::Asked;
use crate::lines::{frame_line, phrase_line, walk_line};
use crate::text::{TEXT_SIZE, Text};
use base::refusal::Refusal;
use rom::phrases::{Extent, phrase, walk};
use rom::reader::frame_taken;

// Frame lines to list: the first bit of the first, and how many.
#[derive(Clone, Copy, Debug, PartialEq, Eq)]
pub struct FrameLines {
    pub bit: usize,
    pub count: u32,
}

// A first line, and the frame lines that follow it.
#[derive(Drop)]
pub struct First {
    pub text: Text,
    pub lines: FrameLines,
}

// The walk that is asked for, of no image above the bytes that are taken.
fn walk_asked(image: &[u8], asked: Asked) -> Result<Extent, Refusal>
    ensures long { asked.most < length image.now → result ≡ Err Image }
    ensures taken { length image.now ≤ asked.most → walk_answer result ≡ walk_of pitch_width image.now asked.address }
{
    if image.len() > asked.most {
        return Err(Refusal::Image);
    }
    walk(image, asked.address)
}

// The first line for an image.
pub fn first_line(image: &[u8], asked: Asked) -> First
    ensures { contents result.text ++ lines_from image.now result.lines.bit result.lines.count ≡ listing_of asked image.now }
{
    match walk_asked(image, asked) {
        Ok(extent) => {
            let count = extent.frames.count();
            let part = phrase(image, asked.address);
            First {
                text: phrase_line(count, extent.bits, part.len()),
                lines: FrameLines {
                    bit: 8 * asked.address,
                    count,
                },
            }
        }
        Err(refusal) => First {
            text: walk_line(refusal),
            lines: FrameLines { bit: 0, count: 0 },
        },
    }
}

// The line of the frame at a bit, and the bit after the frame.
#[derive(Drop)]
pub struct Line {
    pub text: Text,
    pub next: usize,
}

pub fn line_at(image: &[u8], bit: usize) -> Line
    ensures { (contents result.text ≡ line_at image.now bit) × (result.next ≡ after image.now bit) }
{
    match frame_taken(image, bit) {
        Ok(taken) => Line {
            text: frame_line(bit, Some(taken.frame)),
            next: bit + taken.bits,
        },
        Err(_) => Line {
            text: frame_line(bit, None),
            next: bit,
        },
    }
}

// Puts a text into the buffer from index `at` on, and returns the index after it.
fn put(out: &mut [u8], at: usize, t: &Text) -> usize
    requires { at + 80 ≤ length out.old }
    ensures { (result ≤ at + 80) × (take result out.new ≡ take at out.old ++ contents t.now) }
{
    let bytes = t.as_slice();
    let end = at + bytes.len();
    out[at..end].copy_from_slice(bytes);
    end
}

// How much of the buffer, which the caller lends, is filled, as `Read::read` tells it; and the frame lines that are left to list.
#[derive(Clone, Copy, Debug, PartialEq, Eq)]
pub struct Filled {
    pub used: usize,
    pub left: FrameLines,
}

// Fills the buffer with frame lines, as many as it has room for. Each line says where the next frame begins.
pub fn fill(image: &[u8], lines: FrameLines, out: &mut [u8]) -> Filled
    ensures { Fills image.now lines.bit lines.count out.new result }
{
    let mut used = 0;
    let mut left = lines;
    while left.count > 0 && out.len() - used >= TEXT_SIZE {
        let line = line_at(image, left.bit);
        used = put(out, used, &line.text);
        left = FrameLines {
            bit: line.next,
            count: left.count - 1,
        };
    }
    Filled { used, left }
}
