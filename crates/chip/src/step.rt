// A sample step: the control moves, and the sound does what it asks.
ghost use Rattle.std.specs.Prelude.{◌≡◌, Ok};
ghost use Rattle.base.specs.Answers.{number_of_answer};
ghost use Rattle.reports.specs.Reports.{report_numbers};
ghost use Rattle.chip.specs.Step.{step_taken, step_fault, step_answer, step_of};

use crate::state::Chip;
use base::refusal::Refusal;
use play::apply;
use reports::{Details, Report};
use rom::bits::image_valid;
use rom::frames::PitchWidth;
use speech::advance::advance;
use voice::checks::voice_check;

// What a step returns: the next chip, the sample, what it reports, and what it gives besides.
#[derive(Clone, Copy, Debug, PartialEq, Eq)]
pub struct SampleStep {
    pub chip: Chip,
    pub sample: i16,
    pub report: Report,
    pub details: Details,
}

impl Chip {
    // Why a step is refused, if it is.
    pub fn step_fault(self, image: &[u8], voice: &[u8]) -> Result<(), Refusal>
        ensures { number_of_answer result ≡ step_fault image.now voice.now self }
    {
        if !image_valid(image) {
            return Err(Refusal::Image);
        }
        voice_check(voice)?;
        if !self.valid() {
            return Err(Refusal::State);
        }
        Ok(())
    }

    // A step whose checks have passed.
    pub fn take_step(self, image: &[u8], voice: &[u8]) -> SampleStep
        requires { step_fault image.now voice.now self ≡ 0 }
        ensures { step_answer self (Ok result) ≡ step_taken image.now voice.now self }
    {
        let moved = advance(self.control, image, PitchWidth::TMS5220);
        let sampled = apply(moved.action, self.sound, voice, PitchWidth::TMS5220);
        SampleStep {
            chip: Chip {
                control: moved.control,
                sound: sampled.sound,
            },
            sample: sampled.value,
            report: moved.report,
            details: moved.details,
        }
    }

    // Operation: a sample step. Refused, the chip is as it was given. The second promise is the report in the paper's numbers.
    pub fn step(self, image: &[u8], voice: &[u8]) -> Result<SampleStep, Refusal>
        ensures value { step_answer self result ≡ step_of image.now voice.now self }
        ensures in_numbers { report_numbers (step_answer self result).report ≡ report_numbers (step_of image.now voice.now self).report }
    {
        self.step_fault(image, voice)?;
        Ok(self.take_step(image, voice))
    }
}
