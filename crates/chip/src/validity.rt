// The ranges of a chip's fields: `Refusal::State` is given where one fails.
ghost use Rattle.std.specs.Prelude.{◌≡◌};
ghost use Rattle.chip.specs.Validity.{valid};

use crate::state::Chip;

impl Chip {
    // Whether every field is in its range.
    pub fn valid(self) -> bool
        ensures { result ≡ valid self }
    {
        self.control.valid()
            & self.sound.valid()
            & (self.control.clock.sounding | self.sound.is_at_rest())
    }
}
