// A run of sample steps into a lent buffer.
ghost use Rattle.std.specs.Prelude.{◌≡◌, true, ◌≤◌, pos, length, replicate};
ghost use Rattle.base.specs.Steps.{state_after, outputs};
ghost use Rattle.base.specs.Units.{samples_per_interval};
ghost use Rattle.rom.specs.Frames.{pitch_width};
ghost use Rattle.clock.specs.Counters.{last_sample, left_of_interval};
ghost use Rattle.sound.specs.Sample.{values_of};
ghost use Rattle.chip.specs.Validity.{valid};
ghost use Rattle.chip.specs.Step.{step_fault};
ghost use Rattle.chip.specs.Run.{sample_step, played_on, silent_on, run_answer, run_of, buffer_of};

use crate::state::Chip;
use base::refusal::Refusal;
use base::units::Samples;
use clock::Clock;
use rom::frames::PitchWidth;

// The elements that the samples left of an interval take, in which one has been made.
fn samples_left(clock: Clock) -> usize
    requires { clock.sample.0 ≤ last_sample }
    ensures { result ≡ left_of_interval clock }
{
    clock.left_of_interval().count() as usize
}

impl Chip {
    // Samples up to the end of an interval in which one has been made, one for each element: the sound is not interpolated
    // between them, and the control only counts.
    fn play_on(self, voice: &[u8], out: &mut [i16]) -> Chip
        requires { (valid self ≡ true) × (length out.old ≤ samples_per_interval) }
        ensures value { result ≡ played_on voice.now (length out.old) self }
        ensures out_after { out.new ≡ values_of pitch_width voice.now (length out.old) self.sound }
    {
        let passed = Samples::of(out.len() as u64);
        let clock = self.control.clock.count_by(passed);
        Chip {
            control: self.control.less_busy(passed).with_clock(clock),
            sound: self.sound.play(voice, out, PitchWidth::TMS5220),
        }
    }

    // The samples of a chip that does not sound, one for each element: in them a branch's time passes, and no more.
    fn keep_silent(self, out: &mut [i16]) -> Chip
        ensures value { result ≡ silent_on (length out.old) self }
        ensures out_after { out.new ≡ replicate (length out.old) (pos 0) }
    {
        out.fill(0);
        Chip {
            control: self.control.less_busy(Samples::of(out.len() as u64)),
            ..self
        }
    }

    // A step for each element, once the checks have passed. What is left of an interval is played at once, and all that is left where the
    // chip does not sound: the index moves by one, by an interval's rest or to the end, which no iterator says.
    fn fill(self, image: &[u8], voice: &[u8], out: &mut [i16]) -> Chip
        requires { step_fault image.now voice.now self ≡ 0 }
        ensures value { result ≡ state_after (sample_step image.now voice.now) (length out.old) self }
        ensures out_after { out.new ≡ outputs (sample_step image.now voice.now) (length out.old) self }
    {
        let mut chip = self;
        let mut i = 0;
        while i < out.len() {
            let left = samples_left(chip.control.clock);
            if !chip.control.clock.sounding {
                let end = out.len();
                chip = chip.keep_silent(&mut out[i..end]);
                i = end;
            } else if left == 0 {
                let stepped = chip.take_step(image, voice);
                out[i] = stepped.sample;
                chip = stepped.chip;
                i += 1;
            } else {
                let end = i + left.min(out.len() - i);
                chip = chip.play_on(voice, &mut out[i..end]);
                i = end;
            }
        }
        chip
    }

    // Operation: a run. Refused, chip and buffer are as they were given.
    pub fn run(self, image: &[u8], voice: &[u8], out: &mut [i16]) -> Result<Chip, Refusal>
        ensures value { run_answer self result ≡ run_of image.now voice.now self (length out.old) }
        ensures out_after { out.new ≡ buffer_of image.now voice.now self out.old }
    {
        self.step_fault(image, voice)?;
        Ok(self.fill(image, voice, out))
    }
}
