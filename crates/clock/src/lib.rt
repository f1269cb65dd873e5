// Whether a chip sounds, and its counters: the sample of the interval and the interval of the frame. It knows no device.
#![tactic(auto)]

ghost use Rattle.std.specs.Prelude.{◌≡◌, ◌≤◌};
ghost use Rattle.base.specs.Units.{samples_per_interval};
ghost use Rattle.clock.specs.Counters.{power_up_clock, stopped, started, begun, counted_by, counted, interval_begins, frame_begins, left_of_interval, last_sample, last_interval, clock_valid};

use base::units::{Frames, Intervals, Samples};

// No invariant keeps the counters in their ranges: a host may hold a chip with any, and it is refused with 4.
#[derive(Clone, Copy, Debug, PartialEq, Eq)]
pub struct Clock {
    pub sounding: bool,
    pub sample: Samples,
    pub interval: Intervals,
}

impl Clock {
    // The counters' greatest values.
    pub const LAST_SAMPLE: u64 = Intervals::SAMPLES - 1;

    pub const LAST_INTERVAL: u64 = Frames::INTERVALS - 1;

    pub fn power_up() -> Clock
        ensures { result ≡ power_up_clock }
    {
        Clock {
            sounding: false,
            sample: Samples::of(0),
            interval: Intervals::of(0),
        }
    }

    // A silent chip's counters are those of power-up.
    pub fn stop(self) -> Clock
        ensures { result ≡ stopped self }
    {
        Clock::power_up()
    }

    pub fn start(self) -> Clock
        ensures { result ≡ started self }
    {
        Clock {
            sounding: true,
            ..self.stop()
        }
    }

    // A frame begins at this interval, and so skips those before it.
    pub fn begin_at(self, interval: Intervals) -> Clock
        ensures { result ≡ begun interval self }
    {
        Clock { interval, ..self }
    }

    // `count_by` and `count` take counters in their ranges, so that no sum is out of range.
    pub fn count_by(self, more: Samples) -> Clock
        requires { (self.sample.0 ≤ last_sample) × (self.interval.0 ≤ last_interval) × (more.0 ≤ samples_per_interval) }
        ensures { result ≡ counted_by more.0 self }
    {
        let next = self.sample + more;
        let carried = self.interval + next.whole_intervals();
        Clock {
            sample: next.within_interval(),
            interval: carried.within_frame(),
            ..self
        }
    }

    pub fn count(self) -> Clock
        requires { (self.sample.0 ≤ last_sample) × (self.interval.0 ≤ last_interval) }
        ensures { result ≡ counted self }
    {
        self.count_by(Samples::of(1))
    }

    pub fn interval_begins(self) -> bool
        ensures { result ≡ interval_begins self }
    {
        self.sample.count() == 0
    }

    pub fn frame_begins(self) -> bool
        ensures { result ≡ frame_begins self }
    {
        self.interval_begins() & (self.interval.count() == 0)
    }

    // The samples left of an interval in which one has been made.
    pub fn left_of_interval(self) -> Samples
        ensures { result.0 ≡ left_of_interval self }
    {
        if self.interval_begins() {
            return Samples::of(0);
        }
        Samples::of(Intervals::SAMPLES).less(self.sample)
    }

    // Whether the counters are in their ranges. `speaks` says whether the mode is a speaking one.
    pub fn valid(self, speaks: bool) -> bool
        ensures { result ≡ clock_valid speaks self }
    {
        (self.sample.count() <= Self::LAST_SAMPLE)
            & (self.interval.count() <= Self::LAST_INTERVAL)
            & (self.sounding | (self.frame_begins() & !speaks))
    }
}
