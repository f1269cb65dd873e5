// The control's value: its parts, power-up, and the control with one of its parts changed.
ghost use Rattle.std.specs.Prelude.{◌≡◌};
ghost use Rattle.control.specs.State.{power_up_control, with_mode, with_address, with_fifo, with_port, with_clock, with_device, with_busy, is_busy, less_busy};

use crate::device::Device;
use address::AddressRegister;
use base::units::Samples;
use clock::Clock;
use fifo::{BitOrder, Fifo};

#[derive(Clone, Copy, Debug, PartialEq, Eq)]
pub enum Mode {
    Idle,
    // Speaking from ROM.
    Rom,
    // External speech: the FIFO fills, and is not spoken yet.
    Waiting,
    // External speech: the FIFO is spoken.
    External,
}

// The bus side: the data byte that the next read gets, if one is pending, the interrupt, and the samples for which a branch still keeps
// the chip busy.
// The data byte is no `Option`: a host may hold a chip with a byte that is not pending, and it is refused with 4.
#[derive(Clone, Copy, Debug, PartialEq, Eq)]
pub struct Port {
    pub pending: bool,
    pub data: u8,
    pub interrupt: bool,
    pub busy: Samples,
}

// All of the chip but its sound. Nothing in it depends on a voice file or on the sound.
#[derive(Clone, Copy, Debug, PartialEq, Eq)]
pub struct Control {
    pub mode: Mode,
    pub address: AddressRegister,
    pub fifo: Fifo,
    pub port: Port,
    pub clock: Clock,
    pub device: Device,
}

impl Port {
    // The samples that a branch keeps the chip busy.
    pub const BRANCH_TIME: u64 = 2;

    pub fn is_busy(self) -> bool
        ensures { result ≡ is_busy self }
    {
        0 < self.busy.count()
    }

    pub fn with_busy(mut self, busy: Samples) -> Port
        ensures { result ≡ with_busy busy self }
    {
        self.busy = busy;
        self
    }
}

impl Control {
    // External speaking starts with this many bytes held.
    pub const START_LEVEL: u8 = 9;

    pub fn power_up(device: Device, order: BitOrder) -> Control
        ensures { result ≡ power_up_control device order }
    {
        Control {
            mode: Mode::Idle,
            address: AddressRegister::power_up(),
            fifo: Fifo::empty(order),
            port: Port {
                pending: false,
                data: 0,
                interrupt: false,
                busy: Samples::of(0),
            },
            clock: Clock::power_up(),
            device,
        }
    }

    // The control with one of its parts changed. A store costs less than `Control { port, ..self }`, which copies each field by itself.
    pub fn with_mode(mut self, mode: Mode) -> Control
        ensures { result ≡ with_mode mode self }
    {
        self.mode = mode;
        self
    }

    pub fn with_address(mut self, address: AddressRegister) -> Control
        ensures { result ≡ with_address address self }
    {
        self.address = address;
        self
    }

    pub fn with_fifo(mut self, fifo: Fifo) -> Control
        ensures { result ≡ with_fifo fifo self }
    {
        self.fifo = fifo;
        self
    }

    pub fn with_port(mut self, port: Port) -> Control
        ensures { result ≡ with_port port self }
    {
        self.port = port;
        self
    }

    // The control after some samples, of which a busy chip counts each.
    pub fn less_busy(self, passed: Samples) -> Control
        ensures { result ≡ less_busy passed.0 self }
    {
        self.with_port(self.port.with_busy(self.port.busy.less(passed)))
    }

    pub fn with_clock(mut self, clock: Clock) -> Control
        ensures { result ≡ with_clock clock self }
    {
        self.clock = clock;
        self
    }

    pub fn with_device(mut self, device: Device) -> Control
        ensures { result ≡ with_device device self }
    {
        self.device = device;
        self
    }
}
