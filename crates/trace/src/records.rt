// What each record does, and its answers.
ghost use Rattle.std.specs.Prelude.{◌≤◌, ◌<◌};
ghost use Rattle.trace_script.specs.Script.{limit, run_limit};

use base::bytes::byte_at;
use base::refusal::{Refusal, number_of};
use chip::state::Chip;
use fifo::BitOrder;
use rates::rate::FrameRate;
use reports::{Details, Report};
use std::array;
use trace_lines::lines::{Lines, UNTOUCHED};
use trace_script::{RUN_LIMIT, le_i64, le32, part, run_length};
use trace_state::from_list::state_of;
use trace_state::numbers::Numbers;
use trace_state::to_list::state_numbers;

// The image and the voice file, which are parts of the script, and the chip. Nobody compares or prints it.
#[derive(Clone, Copy)]
pub struct Player<'a> {
    image: &'a [u8],
    voice: &'a [u8],
    chip: Chip,
}

// The numbers of a state.
fn state_at(script: &[u8], at: usize) -> Numbers
    requires { at ≤ limit }
{
    array::from_fn(|i| le_i64(script, at + 8 * i))
}

// `O`: power-up of a device with an order of the FIFO's bits, by the script's bytes, which docs/TRACE.md
// numbers; 1 is the TMS5220C, and most significant first.
fn power_up(device: u8, order: u8) -> Chip {
    let order = match order {
        0 => BitOrder::LeastFirst,
        _ => BitOrder::MostFirst,
    };
    match device {
        0 => Chip::power_up_with(order),
        _ => Chip::power_up_5220c_with(order),
    }
}

impl<'a> Player<'a> {
    // As a script begins: both empty, and a TMS5220 as powered up.
    pub fn new() -> Player<'a> {
        Player {
            image: &[],
            voice: &[],
            chip: Chip::power_up(),
        }
    }

    // `I` and `V`: what follows the u32 of the record that begins with byte `at` is now the image, or the voice file.
    fn take_part(&mut self, script: &'a [u8], at: usize)
        requires { at < limit }
    {
        let from = at + 5;
        let bytes = part(script, from, from + le32(script, at + 1));
        match byte_at(script, at) {
            b'I' => self.image = bytes,
            b'V' => self.voice = bytes,
            _ => {}
        }
    }

    // A call's answer ends with the line of the chip that it hands back. Refused, the chip is as it was.
    fn hand_back(&mut self, answer: Result<Chip, Refusal>, lines: &mut Lines) {
        self.chip = answer.unwrap_or(self.chip);
        lines.chip_line(&state_numbers(self.chip));
    }

    // `P`, `Q`, `O`, `W` and `K`: the number alone, and the chip.
    fn answer(&mut self, letter: char, answer: Result<Chip, Refusal>, lines: &mut Lines) {
        lines.refusal_line(letter, number_of(&answer));
        self.hand_back(answer, lines);
    }

    // `R`: a byte read.
    fn read(&mut self, lines: &mut Lines) {
        let answer = self.chip.read();
        lines.read_line('R', number_of(&answer), answer.map_or(0, |read| read.byte));
        self.hand_back(answer.map(|read| read.chip), lines);
    }

    // `L`: a look.
    fn look(&mut self, lines: &mut Lines) {
        let answer = self.chip.look();
        lines.read_line('L', number_of(&answer), answer.unwrap_or(0));
        self.hand_back(Ok(self.chip), lines);
    }

    // `T`: a sample step.
    fn step(&mut self, lines: &mut Lines) {
        let answer = self.chip.step(self.image, self.voice);
        let (sample, report, details) = match answer {
            Ok(step) => (step.sample, step.report, step.details),
            Err(_) => (0, Report::Nothing, Details::none()),
        };
        lines.step_line(
            number_of(&answer),
            sample,
            report.number(),
            report.frame(),
            details,
        );
        self.hand_back(answer.map(|step| step.chip), lines);
    }

    fn run(&mut self, values: &mut [i16], lines: &mut Lines) {
        let answer = self.chip.run(self.image, self.voice, values);
        lines.run_line(number_of(&answer), values);
        self.hand_back(answer, lines);
    }

    // `U`: a run, into a buffer of its own. In `play` each record would pay for the buffer.
    fn run_of(&mut self, length: usize, lines: &mut Lines)
        requires { length ≤ run_limit }
    {
        let mut values = [UNTOUCHED; RUN_LIMIT];
        self.run(&mut values[..length], lines);
    }

    // Plays the record that begins with byte `at`. A record has been seen to be whole before.
    pub fn play(&mut self, script: &'a [u8], at: usize, lines: &mut Lines)
        requires { at < limit }
    {
        self.take_part(script, at);
        let body = at + 1;
        match byte_at(script, at) {
            b'P' => self.answer('P', Ok(Chip::power_up()), lines),
            b'Q' => self.answer('Q', Ok(Chip::power_up_5220c()), lines),
            b'O' => {
                let chip = power_up(byte_at(script, body), byte_at(script, body + 1));
                self.answer('O', Ok(chip), lines);
            }
            b'S' => self.hand_back(Ok(state_of(state_at(script, body))), lines),
            b'W' => {
                let written = self.chip.write(self.image, byte_at(script, body));
                self.answer('W', written, lines);
            }
            b'R' => self.read(lines),
            b'L' => self.look(lines),
            b'K' => self.answer('K', self.chip.acknowledge(), lines),
            b'T' => self.step(lines),
            b'U' => self.run_of(run_length(script, body), lines),
            b'G' => lines.rated_frame_line(
                self.image,
                le32(script, body + 1),
                byte_at(script, body),
            ),
            b'B' => {
                let rate = FrameRate {
                    v: byte_at(script, body),
                    rr: byte_at(script, body + 1),
                };
                lines.rated_walk_line(self.image, le32(script, body + 2), rate);
            }
            letter => lines.told_line(letter, le32(script, body), self.image, self.voice),
        }
    }
}
