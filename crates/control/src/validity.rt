// The ranges of the control's fields.
ghost use Rattle.std.specs.Prelude.{◌≡◌};
ghost use Rattle.control.specs.Validity.{speaks, is_idle, least_level, most_level, most_used, fifo_valid, port_valid, control_valid};

use crate::state::{Control, Mode, Port};
use fifo::Fifo;

impl Mode {
    pub fn speaks(self) -> bool
        ensures { result ≡ speaks self }
    {
        matches!(self, Mode::Rom | Mode::External)
    }

    pub fn is_idle(self) -> bool
        ensures { result ≡ is_idle self }
    {
        matches!(self, Mode::Idle)
    }

    fn least_level(self) -> u8
        ensures { result ≡ least_level self }
    {
        match self {
            Mode::Idle | Mode::Rom | Mode::Waiting => 0,
            Mode::External => 1,
        }
    }

    fn most_level(self) -> u8
        ensures { result ≡ most_level self }
    {
        match self {
            Mode::Idle | Mode::Rom => 0,
            Mode::Waiting => Control::START_LEVEL - 1,
            Mode::External => Fifo::SIZE,
        }
    }

    fn most_used(self) -> u8
        ensures { result ≡ most_used self }
    {
        match self {
            Mode::Idle | Mode::Rom | Mode::Waiting => 0,
            Mode::External => 7,
        }
    }

    fn fifo_valid(self, fifo: Fifo) -> bool
        ensures { result ≡ fifo_valid self fifo }
    {
        fifo.is_inside(self.least_level(), self.most_level(), self.most_used())
    }
}

impl Port {
    fn valid(self, mode: Mode) -> bool
        ensures { result ≡ port_valid mode self }
    {
        let idle = mode.is_idle();
        (!self.pending | idle)
            & (self.pending | (self.data == 0))
            & ((self.busy.count() <= Port::BRANCH_TIME) & (!self.is_busy() | idle))
    }
}

impl Control {
    // Whether every field is in its range.
    pub fn valid(self) -> bool
        ensures { result ≡ control_valid self }
    {
        self.address.valid()
            & self.mode.fifo_valid(self.fifo)
            & self.port.valid(self.mode)
            & self.clock.valid(self.mode.speaks())
            & self.device.valid()
    }
}
