// Whether numbers fit their fields, and the chip that they say.
ghost use Rattle.std.specs.Prelude.{◌≡◌, ◌+◌, ◌≤◌, length, drop};
ghost use Rattle.chip_numbers.specs.Numbers.{number};
ghost use Rattle.chip_numbers.specs.Chips.{chip_length, within, rate_fits, fits, chip_of};

use crate::list::NumberList;
use crate::reading::read_chip;
use crate::to_numbers::Numbers;
use chip::state::Chip;
use filter::range::is_inside;

const ANY: i32 = 0x7FFF_FFFF;

const BYTE: i32 = 255;

const BIT: i32 = 1;

// The most that each of the first eight numbers may be; the least is 0.
const CONTROL_LIMITS: [i32; 8] = [3, ANY, BYTE, BIT, BYTE, BIT, BYTE, BYTE];

// Each of the FIFO's bytes.
const HELD_LIMITS: [i32; 16] = [BYTE; 16];

// Each of the five behind them.
const CLOCK_LIMITS: [i32; 5] = [BIT, ANY, ANY, ANY, ANY];

// And each of the last six.
const LATER_LIMITS: [i32; 6] = [BIT, BYTE, BYTE, BIT, BIT, ANY];

// A level that no valid chip has. No `Option`: `chip_of` says a chip of any numbers.
const NO_LEVEL: u8 = 255;

// Whether the numbers from number `at` on are in 0 to their limits.
fn within(numbers: &Numbers, at: usize, limits: &[i32]) -> bool
    requires { at + length limits.now ≤ chip_length }
    ensures { result ≡ within limits.now (drop at numbers.now) }
{
    let mut all = true;
    for (i, &most) in limits.iter().enumerate() {
        all &= is_inside(numbers[at + i], 0, most);
    }
    all
}

// A TMS5220 has no rate.
fn rate_fits(numbers: &Numbers) -> bool
    ensures { result ≡ rate_fits numbers.now }
{
    (numbers[63] == 1) | within(numbers, 64, &[0, 0])
}

// Whether the numbers are some chip's, valid or not.
fn fits(numbers: &Numbers) -> bool
    ensures { result ≡ fits numbers.now }
{
    within(numbers, 0, &CONTROL_LIMITS)
        & within(numbers, 8, &HELD_LIMITS)
        & within(numbers, 24, &CLOCK_LIMITS)
        & within(numbers, 63, &LATER_LIMITS)
        & rate_fits(numbers)
}

// The numbers that a C caller holds.
#[derive(Drop)]
pub(crate) struct Held {
    pub(crate) numbers: Numbers,
    ghost whole: { length numbers ≡ chip_length },
}

// An i32 holds 31 bits of a natural number, and what `fits` has tested is read as it is.
impl NumberList for Held {
    ghost use Rattle.chip_numbers.specs.Chips.{as_held};

    ghost list = { λ held. held.numbers };

    ghost natural = { number };

    ghost reading = { as_held };

    fn set_natural(&mut self, i: usize, n: u64) {
        self.numbers[i] = (n % 0x8000_0000) as i32;
    }

    fn set_signed(&mut self, i: usize, z: i32) {
        self.numbers[i] = z;
    }

    fn natural_at(&self, i: usize, _most: u32) -> u32 {
        self.numbers[i].max(0).cast_unsigned()
    }

    fn byte_at(&self, i: usize) -> u8 {
        (self.numbers[i] & 255) as u8
    }

    fn level_at(&self, i: usize) -> i32 {
        self.numbers[i]
    }

    fn signed_at(&self, i: usize) -> i32 {
        self.numbers[i]
    }

    // Of numbers that are no chip's, the level of no valid chip.
    fn held_level(&self) -> u8 {
        if fits(&self.numbers) {
            self.byte_at(6)
        } else {
            NO_LEVEL
        }
    }

    ghost whole = { λ held. held.whole };
}

// The chip that the numbers say; one that is not valid, where they are no chip's.
pub fn chip_of(held: &Numbers) -> Chip
    ensures { result ≡ chip_of held.now }
{
    read_chip(&Held { numbers: *held })
}
