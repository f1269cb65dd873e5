// Plays a script of calls that it reads from standard input on the library, and prints the answers.
#![tactic(auto)]

ghost use Rattle.std.specs.Prelude.{◌≡◌, ◌≤◌, [], length, OnOk};
ghost use Rattle.trace_script.specs.Script.{limit};

mod records;

use records::Player;
use std::io;
use std::io::{ErrorKind, Write};
use stdin::read_all;
use trace_lines::lines::Lines;
use trace_script::{LIMIT, record_at};

// Lines have room for 65,536 bytes and are written out where there are more than this. The answers to one record take less than
// 59,000 bytes, so that none is cut: at most 8,192 samples of 7 bytes, 69 numbers of 21 bytes, and some 20 bytes more.
const WAITING: usize = 6000;

// Writes the lines out.
fn write_out(rt: &HostRuntime, lines: &mut Lines) -> io::Result<()>
    ensures { OnOk result (lines.new ≡ []) }
{
    rt.stdout().write_all(lines.as_bytes())?;
    lines.clear();
    Ok(())
}

// Plays a script within the limit and writes all lines. Each record says where the next begins.
fn play_all(rt: &HostRuntime, script: &[u8], lines: &mut Lines) -> io::Result<()>
    requires { length script.now ≤ limit }
{
    let mut player = Player::new();
    let mut at = 0;
    while at < script.len() {
        let Some(next) = record_at(script, at) else {
            lines.bad_line();
            break;
        };
        player.play(script, at, lines);
        if lines.as_bytes().len() > WAITING {
            write_out(rt, lines)?;
        }
        at = next;
    }
    write_out(rt, lines)
}

fn play_script(rt: &HostRuntime, script: &[u8]) -> io::Result<()> {
    let mut lines = Lines::new();
    if script.len() > LIMIT {
        lines.bad_line();
        return write_out(rt, &mut lines);
    }
    play_all(rt, script, &mut lines)
}

// Room for one byte more than a script may have, so that a longer one is seen. A function of its own, for the checker runs out of stack
// where an array of so many elements is written in place; so it does where the lister and this call one told the size.
fn room() -> [u8; 1048577]
    ensures { 1048577 ≡ length result }
{
    [0; 1048577]
}

// What cannot be read or written is said on standard error; nothing is said where the reader has seen enough.
fn main(rt: HostRuntime) -> io::Result<()> {
    let mut space = room();
    let n = match read_all(&mut rt.stdin(), &mut space) {
        Ok(n) => n,
        Err(failed) => return eprintln!(rt; "standard input: {}", failed.error),
    };
    match play_script(&rt, &space[..n]) {
        Err(error) if error.kind() != ErrorKind::BrokenPipe => {
            eprintln!(rt; "standard output: {error}")
        }
        _ => Ok(()),
    }
}
