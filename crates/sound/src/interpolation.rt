// Interpolation: at an interval's first sample the currents move towards the targets; in a frame that holds, at the last interval
// alone.
ghost use Rattle.std.specs.Prelude.{◌≡◌, true, ◌<◌, ◌^◌};
ghost use mathlib.Core.List.{zip_with};
ghost use Rattle.base.specs.Range.{Between};
ghost use Rattle.base.specs.Units.{intervals_per_frame};
ghost use Rattle.filter.specs.Ranges.{TenBetween};
ghost use Rattle.sound.specs.Interpolation.{toward_by, toward_params, divisor, interpolated};
ghost use Rattle.sound.specs.State.{params_valid, sound_valid};

use crate::params::Params;
use crate::state::Sound;
use base::units::{Frames, Intervals};
use filter::filter::STAGES;
use std::array;

// The divisors 8, 8, 8, 4, 4, 2, 2, 1 of the intervals, as powers of two.
const SHIFTS: [u32; Frames::INTERVALS as usize] = [3, 3, 3, 2, 2, 1, 1, 0];

// The interval in which the currents reach the targets: it shifts by 0.
const ARRIVAL: u64 = Frames::INTERVALS - 1;

// The shift of an interval.
fn shift_of(interval: Intervals) -> u32
    requires { interval.0 < intervals_per_frame }
    ensures { (result < 4) × (2 ^ result ≡ divisor interval) }
{
    SHIFTS[interval.count() as usize]
}

// One step of a value towards its target: the difference, divided by a power of two and rounded down, is added. That a shift is below 4 stays a
// clause: a type for it would be opened wherever it shifts.
fn toward(current: i32, target: i32, shift: u32) -> i32
    requires { (Between 1023 1023 current) × (Between 1023 1023 target) × (shift < 4) }
    ensures { result ≡ toward_by (2 ^ shift) current target }
{
    current + ((target - current) >> shift)
}

// Each K moved towards its target.
fn toward_each(current: [i32; STAGES], target: [i32; STAGES], shift: u32) -> [i32; STAGES]
    requires { (TenBetween 512 511 current) × (TenBetween 512 511 target) × (shift < 4) }
    ensures { result ≡ zip_with (toward_by (2 ^ shift)) current target }
{
    array::from_fn(|i| toward(current[i], target[i], shift))
}

impl Params {
    // Energy, pitch and each K moved towards the target's.
    fn toward(self, target: Params, shift: u32) -> Params
        requires { (params_valid self ≡ true) × (params_valid target ≡ true) × (shift < 4) }
        ensures { result ≡ toward_params (2 ^ shift) self target }
    {
        Params {
            energy: toward(self.energy, target.energy, shift),
            pitch: toward(self.pitch, target.pitch, shift),
            k: toward_each(self.k, target.k, shift),
        }
    }
}

impl Sound {
    // The sound after the interpolation at an interval of a frame.
    #[tactic(auto, unfolding(crate::specs::Interpolation::interpolated))]
    pub fn interpolate(self, interval: Intervals) -> Sound
        requires { (sound_valid self ≡ true) × (interval.0 < intervals_per_frame) }
        ensures { result ≡ interpolated interval self }
    {
        if interval.count() < ARRIVAL && self.hold {
            return self;
        }
        self.with_current(self.current.toward(self.target, shift_of(interval)))
    }
}
