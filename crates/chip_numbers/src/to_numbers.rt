// The numbers of a chip.
ghost use Rattle.std.specs.Prelude.{◌≡◌, true, ◌+◌, ◌≤◌, length};
ghost use Rattle.chip.specs.Validity.{valid};
ghost use Rattle.chip_numbers.specs.Fields.{param_numbers, numbers_by};
ghost use Rattle.chip_numbers.specs.Chips.{chip_length, chip_numbers, chip_of};
ghost use Rattle.chip_numbers.specs.Putting.{Put};

use crate::fields::{clock_numbers, control_numbers, later_numbers};
use crate::from_numbers::Held;
use crate::list::NumberList;
use crate::putting::put;
use chip::state::Chip;
use sound::params::Params;

pub const LENGTH: usize = 69;

// The numbers of a chip.
pub type Numbers = [i32; LENGTH];

// Twelve numbers, from number `at` on, counted from 0.
fn put_params<N: NumberList>(numbers: &mut N, at: usize, params: Params)
    requires { at ≤ 51 }
    ensures { Put (N.list numbers.old) at (param_numbers params) (at + 12) (N.list numbers.new) }
{
    put(numbers, at, &[params.energy, params.pitch]);
    put(numbers, at + 2, &params.k);
}

// All of them.
pub fn put_chip<N: NumberList>(numbers: &mut N, chip: Chip)
    ensures { N.list numbers.new ≡ numbers_by N.natural chip }
{
    let sound = chip.sound;
    put(numbers, 0, &control_numbers(chip.control));
    put(numbers, 8, &chip.control.fifo.bytes);
    put(
        numbers,
        24,
        &clock_numbers(chip.control.clock, sound.noise, sound.pulse),
    );
    put_params(numbers, 29, sound.current);
    put_params(numbers, 41, sound.target);
    put(numbers, 53, &sound.memory);
    put(numbers, 63, &later_numbers(chip));
}

// The numbers of a chip, from which a valid one comes back as it was.
pub fn numbers_of(chip: Chip) -> Numbers
    ensures value { result ≡ chip_numbers chip }
    ensures comes_back { valid chip ≡ true → chip_of result ≡ chip }
{
    let mut held = Held {
        numbers: [0; LENGTH],
    };
    put_chip(&mut held, chip);
    held.numbers
}
