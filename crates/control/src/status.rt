// What a bus read finds, and what it does to the port.
ghost use Rattle.std.specs.Prelude.{◌≡◌, cond, ◌≤◌};
ghost use Rattle.control.specs.Status.{status_of, bus_byte, no_data, raised_port, acknowledged_port};

use crate::state::{Control, Port};

// One flag of the status.
fn flag(on: bool, weight: u8) -> u8
    ensures value { result ≡ cond on weight 0 }
    ensures upper_bound { result ≤ weight }
{
    if on { weight } else { 0 }
}

impl Control {
    pub fn status(self) -> u8
        ensures { result ≡ status_of self }
    {
        flag(self.mode.speaks(), 0x80)
            + flag(self.fifo.is_low(), 0x40)
            + flag(self.fifo.is_empty(), 0x20)
    }

    // The byte that the bus gets.
    pub fn bus_byte(self) -> u8
        ensures { result ≡ bus_byte self }
    {
        if self.port.pending {
            self.port.data
        } else {
            self.status()
        }
    }
}

impl Port {
    pub fn drop_data(self) -> Port
        ensures { result ≡ no_data self }
    {
        Port {
            pending: false,
            data: 0,
            ..self
        }
    }

    // The interrupt is set where `on` says so, and stays set.
    pub fn raise(self, on: bool) -> Port
        ensures { result ≡ raised_port on self }
    {
        Port {
            interrupt: self.interrupt | on,
            ..self
        }
    }

    pub fn acknowledge(self) -> Port
        ensures { result ≡ acknowledged_port self }
    {
        if self.pending {
            self.drop_data()
        } else {
            Port {
                interrupt: false,
                ..self
            }
        }
    }
}
