// What each command does, in idle.
ghost use Rattle.std.specs.Prelude.{◌≡◌, ◌≤◌, ◌<◌};
ghost use Rattle.address.specs.Addresses.{position_limit, nibbles};
ghost use Rattle.bus.specs.Commands.{sound_kept, talking, reset, data_dropped, data_taken, kept_busy, obeyed};

use base::units::Samples;
use control::commands::Command;
use control::state::{Control, Mode, Port};
use rom::bits::field_at;

// The control after a taken byte, and whether the sound goes to rest.
#[derive(Clone, Copy, Debug, PartialEq, Eq)]
pub struct Accepted {
    pub control: Control,
    pub rests: bool,
}

pub(crate) fn sound_kept(control: Control) -> Accepted
    ensures { result ≡ sound_kept control }
{
    Accepted {
        control,
        rests: false,
    }
}

// TS rises: a speaking mode, the sound at rest and started.
pub(crate) fn talk(control: Control, mode: Mode) -> Accepted
    ensures { result ≡ talking mode control }
{
    Accepted {
        control: control.with_mode(mode).with_clock(control.clock.start()),
        rests: true,
    }
}

pub(crate) fn reset(control: Control) -> Accepted
    ensures { result ≡ reset control }
{
    Accepted {
        control: Control::power_up(control.device.power_up(), control.fifo.order),
        rests: true,
    }
}

fn drop_data(control: Control) -> Control
    ensures { result ≡ data_dropped control }
{
    control.with_port(control.port.drop_data())
}

// The port with the byte at the position as its data.
fn take_data(control: Control, image: &[u8]) -> Port
    requires { control.address.position ≤ position_limit }
    ensures { result ≡ data_taken image.now control }
{
    Port {
        pending: true,
        data: field_at(image, control.address.position, 8),
        ..control.port
    }
}

// The control that a branch keeps busy, without pending data.
fn keep_busy(control: Control) -> Control
    ensures { result ≡ kept_busy control }
{
    let busy = Samples::of(Port::BRANCH_TIME);
    control.with_port(control.port.drop_data().with_busy(busy))
}

// What a command does.
pub(crate) fn obey(control: Control, image: &[u8], byte: u8, command: Command) -> Accepted
    requires { (control.address.position ≤ position_limit) × (control.address.next_nibble < nibbles) }
    ensures { result ≡ obeyed image.now control byte command }
{
    let address = control.address;
    let dropped = drop_data(control);
    match command {
        Command::LoadFrameRate => sound_kept(dropped.with_device(control.device.load_rate(byte))),
        Command::ReadByte => {
            let port = take_data(control, image);
            sound_kept(control.with_port(port).with_address(address.pass_byte()))
        }
        Command::ReadAndBranch => sound_kept(keep_busy(control).with_address(address.branch(
            image,
        ))),
        Command::LoadAddress => sound_kept(dropped.with_address(address.load(byte % 16))),
        Command::Speak => talk(dropped.with_address(address.restart()), Mode::Rom),
        Command::SpeakExternal => sound_kept(dropped.with_mode(Mode::Waiting)),
        Command::Reset => reset(control),
    }
}
