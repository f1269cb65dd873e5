// What a taken byte does, by the mode.
ghost use Rattle.std.specs.Prelude.{◌≡◌, true, false, ◌<◌};
ghost use Rattle.fifo.specs.Buffer.{fifo_size};
ghost use Rattle.control.specs.Validity.{control_valid};
ghost use Rattle.control.specs.Commands.{command_of, waits_now};
ghost use Rattle.bus.specs.Accept.{buffered, accepted};

use crate::commands::{Accepted, obey, reset, sound_kept, talk};
use control::commands::Command;
use control::state::{Control, Mode};

fn buffer(control: Control, byte: u8) -> Control
    requires { control.fifo.level < fifo_size }
    ensures { result ≡ buffered control byte }
{
    control.with_fifo(control.fifo.append(byte))
}

// A byte and its command, of which the caller has tested that it need not wait, on a control that it has tested. So the
// command is Reset where the chip speaks from ROM.
pub fn accept(control: Control, image: &[u8], byte: u8, command: Command) -> Accepted
    requires { (control_valid control ≡ true)
        × (command ≡ command_of byte)
        × (waits_now control command ≡ false) }
    ensures { result ≡ accepted image.now control byte }
{
    match control.mode {
        Mode::Idle => obey(control, image, byte, command),
        Mode::Rom => reset(control),
        Mode::Waiting => {
            let next = buffer(control, byte);
            if next.fifo.level == Control::START_LEVEL {
                talk(next, Mode::External)
            } else {
                sound_kept(next)
            }
        }
        Mode::External => sound_kept(buffer(control, byte)),
    }
}
