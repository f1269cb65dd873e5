// A byte written.
ghost use Rattle.std.specs.Prelude.{◌≡◌};
ghost use Rattle.base.specs.Answers.{number_of_answer};
ghost use Rattle.chip.specs.Write.{command_fault, after_byte, write_answer, write_of};

use crate::state::Chip;
use base::refusal::Refusal;
use bus::accept::accept;
use bus::commands::Accepted;
use control::commands::{Command, command_of};
use rom::bits::image_valid;
use sound::state::Sound;

impl Chip {
    fn command_fault(self, image: &[u8], command: Command) -> Result<(), Refusal>
        ensures { number_of_answer result ≡ command_fault image.now self command }
    {
        if !image_valid(image) {
            return Err(Refusal::Image);
        }
        if !self.valid() {
            return Err(Refusal::State);
        }
        if self.control.waits(command) {
            return Err(Refusal::Wait);
        }
        if self
            .control
            .mode
            .beyond(image, self.control.address.position, command)
        {
            return Err(Refusal::Beyond);
        }
        Ok(())
    }

    // The chip whose control has accepted a byte.
    fn after_byte(self, accepted: Accepted) -> Chip
        ensures { result ≡ after_byte self accepted }
    {
        Chip {
            control: accepted.control,
            sound: if accepted.rests {
                Sound::at_rest()
            } else {
                self.sound
            },
        }
    }

    // Operation: a byte written. Refused, the chip is as it was given.
    pub fn write(self, image: &[u8], byte: u8) -> Result<Chip, Refusal>
        ensures { write_answer self result ≡ write_of image.now self byte }
    {
        let command = command_of(byte);
        self.command_fault(image, command)?;
        Ok(self.after_byte(accept(self.control, image, byte, command)))
    }
}
