// The numbers of a chip.
ghost use Rattle.std.specs.Prelude.{◌≡◌};
ghost use Rattle.trace_state.specs.Fields.{state_numbers};

use crate::numbers::{List, Numbers};
use chip::state::Chip;
use chip_numbers::to_numbers::put_chip;
use trace_script::STATE_LENGTH;

// The numbers of a chip.
pub fn state_numbers(chip: Chip) -> Numbers
    ensures { result ≡ state_numbers chip }
{
    let mut list = List {
        numbers: [0; STATE_LENGTH],
    };
    put_chip(&mut list, chip);
    list.numbers
}
