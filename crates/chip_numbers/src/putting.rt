// A chip's fields put into its numbers.
ghost use Rattle.std.specs.Prelude.{◌≡◌, List, map, ℕ, ◌+◌, ◌<◌, ◌≤◌, ℤ, length, slice_set};
ghost use Rattle.chip_numbers.specs.Chips.{chip_length};
ghost use Rattle.chip_numbers.specs.Putting.{Put};

use crate::list::NumberList;

// A type of the chip's fields.
pub(crate) trait Field: Copy {
    // Its values as numbers, where w says how natural numbers are held.
    ghost number: { (ℕ → ℤ) → Self → ℤ };

    fn set<N: NumberList>(self, numbers: &mut N, i: usize)
        requires { i < chip_length }
        ensures { N.list numbers.new ≡ slice_set (N.list numbers.old) i (number N.natural self) };
}

impl Field for u64 {
    ghost number = { λ w n. w n };

    fn set<N: NumberList>(self, numbers: &mut N, i: usize) {
        numbers.set_natural(i, self);
    }
}

impl Field for u8 {
    ghost number = { λ w b. w b };

    fn set<N: NumberList>(self, numbers: &mut N, i: usize) {
        numbers.set_natural(i, u64::from(self));
    }
}

impl Field for i32 {
    ghost number = { λ w z. z };

    fn set<N: NumberList>(self, numbers: &mut N, i: usize) {
        numbers.set_signed(i, self);
    }
}

// Puts a part of the chip from number `at` on.
pub(crate) fn put<F: Field, N: NumberList>(numbers: &mut N, at: usize, part: &[F])
    requires { at + length part.now ≤ chip_length }
    ensures { Put (N.list numbers.old) at (map (F.number N.natural) part.now) (at + length part.now) (N.list numbers.new) }
{
    for (i, field) in part.iter().enumerate() {
        field.set(numbers, at + i);
    }
}
