// The chip's value, its device numbers, and power-up.
ghost use Rattle.std.specs.Prelude.{◌≡◌};
ghost use Rattle.chip.specs.State.{power_up_of, power_up, power_up_with, power_up_5220c, power_up_5220c_with, device_numbers};

use address::AddressRegister;
use base::units::{Frames, Intervals};
use control::device::Device;
use control::state::Control;
use fifo::{BitOrder, Fifo};
use rates::rate::FrameRate;
use sound::state::Sound;

// The chip: what the host sees and steers, and the sound.
#[derive(Clone, Copy, Debug, PartialEq, Eq)]
pub struct Chip {
    pub control: Control,
    pub sound: Sound,
}

// The device's numbers as a value.
#[derive(Clone, Copy, Debug, PartialEq, Eq)]
pub struct DeviceNumbers {
    pub fifo_size: u8,
    pub low_level: u8,
    pub start_level: u8,
    pub nibbles: u8,
    pub image_limit: usize,
    pub position_limit: usize,
    pub rom_size: usize,
    pub address_limit: usize,
    pub samples_per_interval: u64,
    pub intervals_per_frame: u64,
}

impl Chip {
    pub const FIFO_SIZE: u8 = Fifo::SIZE;

    // BL is set with this many bytes held, or fewer; external speaking starts with that many.
    pub const LOW_LEVEL: u8 = Fifo::LOW_LEVEL;

    pub const START_LEVEL: u8 = Control::START_LEVEL;

    pub const NIBBLES: u8 = AddressRegister::NIBBLES;

    pub const IMAGE_LIMIT: usize = rom::bits::IMAGE_LIMIT;

    pub const POSITION_LIMIT: usize = AddressRegister::POSITION_LIMIT;

    pub const ROM_SIZE: usize = AddressRegister::ROM_SIZE;

    pub const ADDRESS_LIMIT: usize = AddressRegister::ADDRESS_LIMIT;

    pub const SAMPLES_PER_INTERVAL: u64 = Intervals::SAMPLES;

    pub const INTERVALS_PER_FRAME: u64 = Frames::INTERVALS;

    // The four power-ups are operations of documents 01 and 02, each a line over `power_up_of`.
    // Operation: power-up of a TMS5220 or TMS5200. The FIFO's bits leave each byte least significant first.
    pub fn power_up() -> Chip
        ensures { result ≡ power_up }
    {
        Chip::power_up_with(BitOrder::LeastFirst)
    }

    // Operation: the same with an order of the FIFO's bits.
    pub fn power_up_with(order: BitOrder) -> Chip
        ensures { result ≡ power_up_with order }
    {
        Chip::power_up_of(Device::Tms5220, order)
    }

    // Operation: power-up of a TMS5220C. The FIFO's bits leave each byte least significant first.
    pub fn power_up_5220c() -> Chip
        ensures { result ≡ power_up_5220c }
    {
        Chip::power_up_5220c_with(BitOrder::LeastFirst)
    }

    // Operation: the same with an order of the FIFO's bits.
    pub fn power_up_5220c_with(order: BitOrder) -> Chip
        ensures { result ≡ power_up_5220c_with order }
    {
        Chip::power_up_of(Device::Tms5220C(FrameRate::power_up()), order)
    }

    fn power_up_of(device: Device, order: BitOrder) -> Chip
        ensures { result ≡ power_up_of device order }
    {
        Chip {
            control: Control::power_up(device, order),
            sound: Sound::at_rest(),
        }
    }

    // The constants above, which this promises to be those of the definitions.
    pub fn device_numbers() -> DeviceNumbers
        ensures { result ≡ device_numbers }
    {
        DeviceNumbers {
            fifo_size: Self::FIFO_SIZE,
            low_level: Self::LOW_LEVEL,
            start_level: Self::START_LEVEL,
            nibbles: Self::NIBBLES,
            image_limit: Self::IMAGE_LIMIT,
            position_limit: Self::POSITION_LIMIT,
            rom_size: Self::ROM_SIZE,
            address_limit: Self::ADDRESS_LIMIT,
            samples_per_interval: Self::SAMPLES_PER_INTERVAL,
            intervals_per_frame: Self::INTERVALS_PER_FRAME,
        }
    }
}
