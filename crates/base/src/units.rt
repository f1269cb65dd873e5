// Sample periods, interpolation intervals and frames: one type each, so that a count of one cannot stand where another is
// wanted. Their numbers are private. A count of samples is made and read as samples, and so on; the ways between the units
// are those here, by 25 and 8.
ghost use Rattle.std.specs.Prelude.{◌≡◌, ◌+◌, ◌^◌, ◌≤◌, ◌<◌};
ghost use Rattle.base.specs.Units.{frames, intervals, samples, intervals_of, samples_of, whole_intervals, within_interval, within_frame, samples_sum, samples_less, intervals_sum};

use std::ops::Add;

#[derive(Clone, Copy, Debug, PartialEq, Eq, PartialOrd, Ord)]
pub struct Frames(u32);

#[derive(Clone, Copy, Debug, PartialEq, Eq, PartialOrd, Ord)]
pub struct Intervals(u64);

#[derive(Clone, Copy, Debug, PartialEq, Eq, PartialOrd, Ord)]
pub struct Samples(u64);

impl Frames {
    pub const INTERVALS: u64 = 8;

    pub fn of(count: u32) -> Frames
        ensures { result ≡ frames count }
    {
        Frames(count)
    }

    pub fn count(self) -> u32
        ensures { result ≡ self.0 }
    {
        self.0
    }

    pub fn intervals(self) -> Intervals
        ensures { result ≡ intervals_of self }
    {
        Intervals(Self::INTERVALS * u64::from(self.0))
    }
}

impl Intervals {
    pub const SAMPLES: u64 = 25;

    pub fn of(count: u64) -> Intervals
        ensures { result ≡ intervals count }
    {
        Intervals(count)
    }

    pub fn count(self) -> u64
        ensures { result ≡ self.0 }
    {
        self.0
    }

    // The `requires` keeps the product within 64 bits. A walk's count is far below it.
    pub fn samples(self) -> Samples
        requires { self.0 ≤ 2 ^ 59 }
        ensures { result ≡ samples_of self }
    {
        Samples(Self::SAMPLES * self.0)
    }

    // What is left of these intervals when whole frames are taken away.
    pub fn within_frame(self) -> Intervals
        ensures { result ≡ within_frame self }
    {
        Intervals(self.0 % Frames::INTERVALS)
    }
}

impl Samples {
    pub fn of(count: u64) -> Samples
        ensures { result ≡ samples count }
    {
        Samples(count)
    }

    pub fn count(self) -> u64
        ensures { result ≡ self.0 }
    {
        self.0
    }

    // These samples without others, and none where the others are as many or more.
    pub fn less(self, others: Samples) -> Samples
        ensures { result ≡ samples_less self others }
    {
        Samples(self.0.saturating_sub(others.0))
    }

    // The whole intervals in these samples, and what is left of the samples without them.
    pub fn whole_intervals(self) -> Intervals
        ensures { result ≡ whole_intervals self }
    {
        Intervals(self.0 / Intervals::SAMPLES)
    }

    pub fn within_interval(self) -> Samples
        ensures { result ≡ within_interval self }
    {
        Samples(self.0 % Intervals::SAMPLES)
    }
}

// Counts of one unit are added. `can_add` keeps the sum within 64 bits; a clock's counts are far below it.
impl Add for Intervals {
    type Output = Intervals;

    ghost can_add = { λ i j. i.0 + j.0 < 2 ^ 64 };

    ghost add_gives = { λ i j sum. sum ≡ intervals_sum i j };

    fn add(self, more: Intervals) -> Intervals {
        Intervals(self.0 + more.0)
    }
}

impl Add for Samples {
    type Output = Samples;

    ghost can_add = { λ s t. s.0 + t.0 < 2 ^ 64 };

    ghost add_gives = { λ s t sum. sum ≡ samples_sum s t };

    fn add(self, more: Samples) -> Samples {
        Samples(self.0 + more.0)
    }
}
