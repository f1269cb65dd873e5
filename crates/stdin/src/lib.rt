// Standard input, or any other reader, read to its end.
#![tactic(auto)]

ghost use Rattle.std.specs.Prelude.{◌≤◌, length, IfOk, IfErr};

use std::io;
use std::io::Read;

// Why reading failed, and how many bytes were read before.
#[derive(Drop)]
pub struct Failed {
    pub error: io::Error,
    pub count: usize,
}

// Reads until the input ends, the buffer is full or reading fails, and returns how many bytes were read.
pub fn read_all<R: Read>(reader: &mut R, buffer: &mut [u8]) -> Result<usize, Failed>
    ensures ok { IfOk result (λ n. n ≤ length buffer.old) }
    ensures err { IfErr result (λ failed. failed.count ≤ length buffer.old) }
{
    let mut n = 0;
    // The index moves by what each read gives.
    while n < buffer.len() {
        match reader.read(&mut buffer[n..]) {
            Ok(0) => break,
            Ok(more) => n += more,
            Err(error) => return Err(Failed { error, count: n }),
        }
    }
    Ok(n)
}
