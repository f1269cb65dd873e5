// The device: what a TMS5220 and a TMS5220C differ in.
ghost use Rattle.std.specs.Prelude.{◌≡◌};
ghost use Rattle.control.specs.Device.{rate_of, at_power_up, loaded_rate, device_valid};

use rates::rate::FrameRate;

#[derive(Clone, Copy, Debug, PartialEq, Eq)]
pub enum Device {
    // The TMS5220 and TMS5200: no rate bits, 200 samples a frame.
    Tms5220,
    // The TMS5220C, at the frame rate that Load Frame Rate has set.
    Tms5220C(FrameRate),
}

impl Device {
    // The rate of its frames.
    pub fn rate(self) -> FrameRate
        ensures { result ≡ rate_of self }
    {
        match self {
            Device::Tms5220 => FrameRate::power_up(),
            Device::Tms5220C(rate) => rate,
        }
    }

    // The same device as it powers up.
    pub fn power_up(self) -> Device
        ensures { result ≡ at_power_up self }
    {
        match self {
            Device::Tms5220 => Device::Tms5220,
            Device::Tms5220C(_) => Device::Tms5220C(FrameRate::power_up()),
        }
    }

    // What Load Frame Rate sets, where the device has it.
    pub fn load_rate(self, byte: u8) -> Device
        ensures { result ≡ loaded_rate self byte }
    {
        match self {
            Device::Tms5220 => Device::Tms5220,
            Device::Tms5220C(_) => Device::Tms5220C(FrameRate::of_byte(byte)),
        }
    }

    pub fn valid(self) -> bool
        ensures { result ≡ device_valid self }
    {
        match self {
            Device::Tms5220 => true,
            Device::Tms5220C(rate) => rate.valid(),
        }
    }
}
