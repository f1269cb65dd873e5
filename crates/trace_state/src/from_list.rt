// The chip of a list of numbers. A number beyond its field's range in the format becomes the nearest end of the range.
ghost use Rattle.std.specs.Prelude.{◌≡◌};
ghost use Rattle.trace_state.specs.Fields.{chip_of};

use crate::numbers::{List, Numbers};
use chip::state::Chip;
use chip_numbers::reading::read_chip;

// The chip of these numbers.
pub fn state_of(numbers: Numbers) -> Chip
    ensures { result ≡ chip_of numbers }
{
    read_chip(&List { numbers })
}
