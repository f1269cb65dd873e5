// The parameters of the sound, which are its currents or its targets, and their ranges.
ghost use Rattle.std.specs.Prelude.{◌≡◌};
ghost use Rattle.sound.specs.State.{params_valid};
ghost use Rattle.sound.specs.Targets.{is_voiced, is_mute};

use filter::filter::STAGES;
use filter::range::{all_inside, is_inside};

// Energy and pitch, and K1 to K10.
#[derive(Clone, Copy, Debug, Default, PartialEq, Eq)]
pub struct Params {
    pub energy: i32,
    pub pitch: i32,
    pub k: [i32; STAGES],
}

impl Params {
    // The most that energy and pitch can be, which is the most in a voice file. The least is 0.
    pub const MAX: i32 = voice::checks::VALUE_MAX as i32;

    pub const K_MIN: i32 = voice::checks::K_MIN;

    pub const K_MAX: i32 = voice::checks::K_MAX;

    // Whether each number is in its range.
    pub(crate) fn valid(self) -> bool
        ensures { result ≡ params_valid self }
    {
        // `&&` in place of `&` takes 49 instructions more at each public step.
        is_inside(self.energy, 0, Self::MAX)
            & is_inside(self.pitch, 0, Self::MAX)
            & all_inside(self.k, Self::K_MIN, Self::K_MAX)
    }

    // Of targets: whether the pitch is not 0.
    pub(crate) fn is_voiced(self) -> bool
        ensures { result ≡ is_voiced self }
    {
        self.pitch != 0
    }

    // Of targets: whether the energy is 0.
    pub(crate) fn is_mute(self) -> bool
        ensures { result ≡ is_mute self }
    {
        self.energy == 0
    }
}
