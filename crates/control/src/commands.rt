// The commands, and when a byte that carries one is not taken.
ghost use Rattle.std.specs.Prelude.{◌≡◌, ◌≤◌, length};
ghost use Rattle.rom.specs.Bits.{image_limit};
ghost use Rattle.address.specs.Addresses.{position_limit};
ghost use Rattle.control.specs.Commands.{command_of, is_reset, waits, waits_now, beyond_at, beyond};

use crate::state::{Control, Mode};
use fifo::Fifo;

#[derive(Clone, Copy, Debug, PartialEq, Eq)]
pub enum Command {
    // Nothing on the TMS5220.
    LoadFrameRate,
    ReadByte,
    ReadAndBranch,
    LoadAddress,
    Speak,
    SpeakExternal,
    Reset,
}

// The command of a byte, by its middle code.
impl From<u8> for Command {
    ghost from_gives = { λ byte command. command ≡ command_of byte };

    fn from(byte: u8) -> Command {
        match byte / 16 % 8 {
            0 | 2 => Command::LoadFrameRate,
            1 => Command::ReadByte,
            3 => Command::ReadAndBranch,
            4 => Command::LoadAddress,
            5 => Command::Speak,
            6 => Command::SpeakExternal,
            _ => Command::Reset,
        }
    }
}

// The same by the name that the pages have for it.
pub fn command_of(byte: u8) -> Command
    ensures { result ≡ command_of byte }
{
    Command::from(byte)
}

impl Command {
    pub fn is_reset(self) -> bool
        ensures { result ≡ is_reset self }
    {
        matches!(self, Command::Reset)
    }

    fn beyond(self, image: &[u8], position: usize) -> bool
        requires { (position ≤ position_limit) × (length image.now ≤ image_limit) }
        ensures { result ≡ beyond_at image.now position self }
    {
        let n = image.len();
        match self {
            Command::ReadByte => 8 * n < position + 8,
            Command::ReadAndBranch => n < position / 8 + 2,
            Command::Speak => 8 * n < position + 1,
            Command::LoadFrameRate
            | Command::LoadAddress
            | Command::SpeakExternal
            | Command::Reset => false,
        }
    }
}

impl Mode {
    // Whether the mode has a byte of a command wait, with `level` bytes held.
    fn waits(self, level: u8, command: Command) -> bool
        ensures { result ≡ waits self level command }
    {
        match self {
            Mode::Idle => false,
            Mode::Rom => !command.is_reset(),
            Mode::Waiting | Mode::External => level == Fifo::SIZE,
        }
    }

    // Whether a byte of a command needs bits beyond the image. The caller has tested the image and the position.
    pub fn beyond(self, image: &[u8], position: usize, command: Command) -> bool
        requires { (position ≤ position_limit) × (length image.now ≤ image_limit) }
        ensures { result ≡ beyond self image.now position command }
    {
        self.is_idle() && command.beyond(image, position)
    }
}

impl Control {
    // Whether a byte of a command waits: a branch keeps the chip busy, or the mode has it wait.
    pub fn waits(self, command: Command) -> bool
        ensures { result ≡ waits_now self command }
    {
        self.port.is_busy() || self.mode.waits(self.fifo.level, command)
    }
}
