// The state of the sound, the sound with one of its parts changed, its ranges, and the sound at rest.
ghost use Rattle.std.specs.Prelude.{◌≡◌};
ghost use Rattle.sound.specs.State.{with_current, with_target, with_memory, with_noise, with_pulse, with_hold, rest_sound, at_rest, sound_valid};

use crate::params::Params;
use filter::filter::{MEMORY_MAX, MEMORY_MIN, STAGES};
use filter::range::all_inside;

// The currents and the targets, the filter's memory, the noise register and the pulse place, and whether the frame holds its
// currents.
#[derive(Clone, Copy, Debug, PartialEq, Eq)]
pub struct Sound {
    pub current: Params,
    pub target: Params,
    pub memory: [i32; STAGES],
    pub noise: u32,
    pub pulse: u32,
    pub hold: bool,
}

impl Sound {
    // The most that the noise register can be, and what it is at rest. The least is 1.
    pub const NOISE_MAX: u32 = 8191;

    pub const PULSE_MAX: u32 = 1022;

    // The sound at rest.
    pub fn at_rest() -> Sound
        ensures { result ≡ rest_sound }
    {
        Sound {
            current: Params::default(),
            target: Params::default(),
            memory: [0; STAGES],
            noise: Self::NOISE_MAX,
            pulse: 0,
            hold: false,
        }
    }

    pub fn with_current(self, current: Params) -> Sound
        ensures { result ≡ with_current current self }
    {
        Sound { current, ..self }
    }

    pub fn with_target(self, target: Params) -> Sound
        ensures { result ≡ with_target target self }
    {
        Sound { target, ..self }
    }

    pub fn with_memory(self, memory: [i32; STAGES]) -> Sound
        ensures { result ≡ with_memory memory self }
    {
        Sound { memory, ..self }
    }

    pub fn with_noise(self, noise: u32) -> Sound
        ensures { result ≡ with_noise noise self }
    {
        Sound { noise, ..self }
    }

    pub fn with_pulse(self, pulse: u32) -> Sound
        ensures { result ≡ with_pulse pulse self }
    {
        Sound { pulse, ..self }
    }

    pub fn with_hold(self, hold: bool) -> Sound
        ensures { result ≡ with_hold hold self }
    {
        Sound { hold, ..self }
    }

    // Whether it equals the sound at rest.
    pub fn is_at_rest(self) -> bool
        ensures { result ≡ at_rest self }
    {
        self == Self::at_rest()
    }

    // Whether each field is in its range.
    #[tactic(auto, unfolding(crate::specs::State::sound_valid))]
    pub fn valid(self) -> bool
        ensures { result ≡ sound_valid self }
    {
        // `&` as in `Params::valid`, for each public step tests this.
        self.current.valid()
            & self.target.valid()
            & all_inside(self.memory, MEMORY_MIN, MEMORY_MAX)
            & (1..=Self::NOISE_MAX).contains(&self.noise)
            & (self.pulse <= Self::PULSE_MAX)
    }
}
