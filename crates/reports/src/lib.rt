// What a sample step reports, and what it asks of the sound.
#![tactic(auto)]

ghost use Rattle.std.specs.Prelude.{◌≡◌};
ghost use Rattle.reports.specs.Reports.{report_number, report_frame, frame_report, of_frame, no_details, rated, out_of_rom, out_of_fifo};

use base::refusal::Shortfall;
use base::units::Intervals;
use rom::frames::{Frame, is_stop};

// What a step reports.
#[derive(Clone, Copy, Debug, PartialEq, Eq)]
pub enum Report {
    Nothing,
    Frame(Frame),
    Stop,
    RanOut,
}

// What a step gives besides its report; zeros where nothing applies. Later changes add their numbers here.
#[derive(Clone, Copy, Debug, Default, PartialEq, Eq)]
pub struct Details {
    // The rate bits of the frame reported, where it has any.
    pub rate: u8,
    // Ran out in the ROM: the bit at which the cut frame begins.
    pub begun: usize,
    // Ran out in the FIFO: the bits that are used up.
    pub used_up: usize,
    // Ran out: the bits that the cut frame lacks.
    pub missing: usize,
    // A stop from the FIFO: the bits behind it, which it throws away.
    pub thrown: usize,
}

impl Details {
    pub fn none() -> Details
        ensures { result ≡ no_details }
    {
        Details::default()
    }

    pub fn rated(rate: u8) -> Details
        ensures { result ≡ rated rate }
    {
        Details {
            rate,
            ..Details::default()
        }
    }

    pub fn of_frame(rate: u8, thrown: usize) -> Details
        ensures { result ≡ of_frame rate thrown }
    {
        Details {
            rate,
            thrown,
            ..Details::default()
        }
    }

    pub fn out_of_rom(short: Shortfall) -> Details
        ensures { result ≡ out_of_rom short }
    {
        Details {
            begun: short.begun,
            missing: short.missing,
            ..Details::default()
        }
    }

    pub fn out_of_fifo(used_up: usize, missing: usize) -> Details
        ensures { result ≡ out_of_fifo used_up missing }
    {
        Details {
            used_up,
            missing,
            ..Details::default()
        }
    }
}

// What a step asks of the sound.
#[derive(Clone, Copy, Debug, PartialEq, Eq)]
pub enum Action {
    // Stay as it is, and give no sound.
    Silent,
    // Go to rest: the last frame has ended, or the bits have run out.
    Rest,
    // Begin a frame, whose first interval this is.
    Begin(Frame, Intervals),
    // Begin an interval of the frame.
    Interpolate(Intervals),
    // Go on within the interval.
    Continue,
}

impl Report {
    pub fn number(self) -> u8
        ensures { result ≡ report_number self }
    {
        match self {
            Report::Nothing => 0,
            Report::Frame(_) => 1,
            Report::Stop => 2,
            Report::RanOut => 3,
        }
    }

    pub fn frame(self) -> Option<Frame>
        ensures { result ≡ report_frame self }
    {
        match self {
            Report::Frame(frame) => Some(frame),
            Report::Stop => Some(Frame::Stop),
            Report::Nothing | Report::RanOut => None,
        }
    }
}

// A frame that begins is reported as frame or stop.
pub fn report_frame(frame: Frame) -> Report
    ensures { result ≡ frame_report frame }
{
    if is_stop(frame) {
        Report::Stop
    } else {
        Report::Frame(frame)
    }
}
