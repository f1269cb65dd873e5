// The numbers of a chip's parts, in the order in which a trace prints them. A mode's and an order's are those of their enum, which `as` gives.
ghost use Rattle.std.specs.Prelude.{◌≡◌};
ghost use Rattle.chip_numbers.specs.Fields.{control_numbers, clock_numbers, later_numbers};

use chip::state::Chip;
use clock::Clock;
use control::device::Device;
use control::state::Control;

// Mode, address register, port and FIFO, but for the FIFO's bytes.
pub fn control_numbers(control: Control) -> [u64; 8]
    ensures { result ≡ control_numbers control }
{
    [
        control.mode as u64,
        control.address.position as u64,
        u64::from(control.address.next_nibble),
        u64::from(control.port.pending),
        u64::from(control.port.data),
        u64::from(control.port.interrupt),
        u64::from(control.fifo.level),
        u64::from(control.fifo.used_bits),
    ]
}

// The clock, the noise register and the pulse place.
pub fn clock_numbers(clock: Clock, noise: u32, pulse: u32) -> [u64; 5]
    ensures { result ≡ clock_numbers clock noise pulse }
{
    [
        u64::from(clock.sounding),
        clock.sample.count(),
        clock.interval.count(),
        u64::from(noise),
        u64::from(pulse),
    ]
}

// What document 02 added: the device, the rate that is set on it, whether the frame holds, the order of the FIFO's bits, and the samples
// for which a branch still keeps the chip busy.
pub fn later_numbers(chip: Chip) -> [u64; 6]
    ensures { result ≡ later_numbers chip }
{
    let device = chip.control.device;
    let rate = device.rate();
    [
        u64::from(matches!(device, Device::Tms5220C(_))),
        u64::from(rate.v),
        u64::from(rate.rr),
        u64::from(chip.sound.hold),
        chip.control.fifo.order as u64,
        chip.control.port.busy.count(),
    ]
}
