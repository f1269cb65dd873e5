// A trace's list of a chip's numbers, and what its numbers become as fields' values.
ghost use Rattle.std.specs.Prelude.{◌≡◌, ◌≤◌, length};
ghost use Rattle.trace_script.specs.Script.{state_length};
ghost use Rattle.trace_state.specs.Numbers.{wide, natural, short};

use chip_numbers::list::NumberList;
use trace_script::STATE_LENGTH;

// The numbers of a chip.
pub type Numbers = [i64; STATE_LENGTH];

// z where it is in 0..most, else the end that it lies beyond.
fn natural(z: i64, most: u32) -> u32
    ensures value { result ≡ natural most z }
    ensures upper_bound { result ≤ most }
{
    z.clamp(0, i64::from(most)) as u32
}

// z where it is in -32,768..32,767, else the end that it lies beyond.
fn short(z: i64) -> i32
    ensures { result ≡ short z }
{
    z.clamp(-32768, 32767) as i32
}

// A trace's list. A number beyond its field's range in the format becomes the nearest end of the range.
#[derive(Drop)]
pub(crate) struct List {
    pub(crate) numbers: Numbers,
    ghost whole: { length numbers ≡ state_length },
}

// An i64 holds 63 bits of a natural number.
impl NumberList for List {
    ghost use Rattle.trace_state.specs.Fields.{clamping};

    ghost list = { λ list. list.numbers };

    ghost natural = { wide };

    ghost reading = { clamping };

    fn set_natural(&mut self, i: usize, n: u64) {
        self.numbers[i] = (n % 0x8000_0000_0000_0000) as i64;
    }

    fn set_signed(&mut self, i: usize, z: i32) {
        self.numbers[i] = i64::from(z);
    }

    fn natural_at(&self, i: usize, most: u32) -> u32 {
        natural(self.numbers[i], most)
    }

    fn byte_at(&self, i: usize) -> u8 {
        natural(self.numbers[i], 255) as u8
    }

    fn level_at(&self, i: usize) -> i32 {
        natural(self.numbers[i], 32767) as i32
    }

    fn signed_at(&self, i: usize) -> i32 {
        short(self.numbers[i])
    }

    fn held_level(&self) -> u8 {
        self.byte_at(6)
    }

    ghost whole = { λ list. list.whole };
}
