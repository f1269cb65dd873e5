// Lists a phrase of an image that it reads from standard input: without an argument that at the start of the image, with one
// that at the byte address which the argument gives. Further arguments are ignored.
#![tactic(auto)]

ghost use Rattle.std.specs.Prelude.{◌≡◌, ◌≤◌, length};
ghost use Rattle.rom.specs.Bits.{image_limit};

mod address;
mod asked;
mod lines;
mod listing;
mod text;

use asked::Asked;
use listing::{FrameLines, fill, first_line};
use std::env::{Env, FillError};
use std::io;
use std::io::{ErrorKind, Write};
use stdin::read_all;

// Writes frame lines. Each turn goes on with what the buffer had no room for.
fn write_lines(rt: &HostRuntime, image: &[u8], lines: FrameLines) -> io::Result<()> {
    let mut out = [0u8; 65536];
    let mut left = lines;
    while left.count > 0 {
        let filled = fill(image, left, &mut out);
        rt.stdout().write_all(&out[..filled.used])?;
        left = filled.left;
    }
    Ok(())
}

// Writes the listing.
fn write_listing(rt: &HostRuntime, image: &[u8], asked: Asked) -> io::Result<()> {
    let first = first_line(image, asked);
    rt.stdout().write_all(first.text.as_slice())?;
    write_lines(rt, image, first.lines)
}

// Room for one byte more than an image may have, so that a longer input is noticed. A function of its own, for the proof of a slice of it
// does not close where an array of so many elements is written in place; nor does the trace's where both call one told the size.
fn room() -> [u8; 262145]
    ensures { 262145 ≡ length result }
{
    [0; 262145]
}

// Lists what is asked for, and reads one byte more than an image may have for it. What cannot be read or written is said on
// standard error; nothing is said where the reader has seen enough.
fn list(rt: &HostRuntime, asked: Asked) -> io::Result<()>
    requires { asked.most ≤ image_limit }
{
    let mut image = room();
    let n = match read_all(&mut rt.stdin(), &mut image[..asked.most + 1]) {
        Ok(n) => n,
        Err(failed) => return eprintln!(rt; "standard input: {}", failed.error),
    };
    match write_listing(rt, &image[..n], asked) {
        Err(error) if error.kind() != ErrorKind::BrokenPipe => {
            eprintln!(rt; "standard output: {error}")
        }
        _ => Ok(()),
    }
}

// What the first argument asks for. One that is longer than the buffer, 4,096 bytes, reads as empty, which is no number.
fn argument(rt: &HostRuntime) -> Asked
    ensures { result.most ≤ image_limit }
{
    let mut text = [0u8; 4096];
    match rt.arg(1, &mut text) {
        Ok(n) => Asked::at_argument(&text[..n]),
        Err(FillError::TooLong) => Asked::at_argument(b""),
        Err(FillError::NotPresent) => Asked::at_start(),
    }
}

fn main(rt: HostRuntime) -> io::Result<()> {
    let asked = argument(&rt);
    list(&rt, asked)
}
