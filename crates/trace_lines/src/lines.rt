// The lines of the answers.
ghost use Rattle.std.specs.Prelude.{◌≡◌, ◌≤◌, [], length};

use arrayvec::ArrayString;
use base::refusal::{Refusal, Shortfall, number_of};
use rates::rate::FrameRate;
use reports::Details;
use rom::frames::{Frame, numbers};
use rom::phrases::{Extent, phrase, walk};
use rom::reader::{Taken, frame_taken};
use std::fmt::{Display, Write};
use std::marker::Model;
use voice::checks::voice_check;

// What each element of a run's buffer is before the call. No sample is so large.
pub const UNTOUCHED: i16 = 9999;

// The sum of bytes modulo 65,536.
fn sum(bytes: &[u8]) -> u16 {
    bytes
        .iter()
        .fold(0u16, |total, &byte| total.wrapping_add(u16::from(byte)))
}

// Lines that are still to be written out. What finds no room is dropped.
#[derive(Drop)]
pub struct Lines {
    text: ArrayString<65536>,
}

// What they are in a contract: the bytes, of which `as_bytes` says how many there may be.
impl Model for Lines {
    ghost use Rattle.std.specs.Prelude.{ℕ, List};

    ghost Value = { List ℕ };

    ghost view = { λ lines. lines.text.bytes };
}

impl Lines {
    pub fn new() -> Lines
        ensures { result ≡ [] }
    {
        Lines {
            text: ArrayString::new(),
        }
    }

    pub fn as_bytes(&self) -> &[u8]
        ensures value { result.now ≡ self.now }
        ensures fits { length result.now ≤ 65536 }
    {
        self.text.as_str().as_bytes()
    }

    pub fn clear(&mut self)
        ensures { self.new ≡ [] }
    {
        self.text.clear();
    }

    fn put<D: Display + Drop>(&mut self, text: D) {
        let _ = self.text.write(text);
    }

    // Numbers, a space before each.
    fn put_each<N: Display>(&mut self, list: &[N]) {
        for n in list {
            self.put(format_args!(" {n}"));
        }
    }

    // A letter and a refusal number, with which the answer of a call begins.
    fn head(&mut self, letter: char, refusal: u8) {
        self.put(format_args!("{letter} {refusal}"));
    }

    // Where a cut frame begins, and the bits that it lacks, with which a line ends.
    fn cut<T>(&mut self, answer: &Result<T, Refusal>) {
        let short = match answer {
            Ok(_) => Shortfall::none(),
            Err(refusal) => refusal.shortfall(),
        };
        self.put(format_args!(" {} {}\n", short.begun, short.missing));
    }

    // `I`: the size of an image.
    fn image_line(&mut self, size: usize) {
        self.put(format_args!("I {size}\n"));
    }

    // `V`, `P`, `Q`, `O`, `W` and `K`: a letter and a refusal number alone. A number, here as in the lines below, for a line says any.
    pub fn refusal_line(&mut self, letter: char, refusal: u8) {
        self.head(letter, refusal);
        self.put('\n');
    }

    // A frame taken: its bits and its thirteen numbers.
    fn taken(&mut self, letter: char, answer: Result<Taken, Refusal>) {
        self.head(letter, number_of(&answer));
        self.put(format_args!(" {}", answer.map_or(0, |taken| taken.bits)));
        self.put_each(&numbers(answer.ok().map(|taken| taken.frame)));
    }

    // `F`: a frame taken at a bit of an image.
    fn frame_line(&mut self, image: &[u8], bit: usize) {
        let answer = frame_taken(image, bit);
        self.taken('F', answer);
        self.cut(&answer);
    }

    // `G`: a frame taken at a bit of an image, told v, with its rate.
    pub fn rated_frame_line(&mut self, image: &[u8], bit: usize, v: u8) {
        let answer = rates::walks::frame_taken(image, bit, v);
        self.taken('G', answer);
        self.put(format_args!(" {}", answer.map_or(0, |taken| taken.rate)));
        self.cut(&answer);
    }

    // A walk: its bits, frames, intervals and samples, and the length of its part with the sum of the part's bytes.
    fn walked_line(&mut self, letter: char, answer: Result<Extent, Refusal>, part: &[u8]) {
        self.head(letter, number_of(&answer));
        match answer {
            Ok(extent) => self.put(format_args!(
                " {} {} {} {}",
                extent.bits,
                extent.frames.count(),
                extent.intervals.count(),
                extent.samples.count()
            )),
            Err(_) => self.put(" 0 0 0 0"),
        }
        self.put(format_args!(" {} {}", part.len(), sum(part)));
        self.cut(&answer);
    }

    // `A`: a walk of an image from a byte address.
    fn walk_line(&mut self, image: &[u8], address: usize) {
        self.walked_line('A', walk(image, address), phrase(image, address));
    }

    // `B`: the same, told v and rr.
    pub fn rated_walk_line(&mut self, image: &[u8], address: usize, rate: FrameRate) {
        let answer = rates::walks::walk(image, address, rate);
        let part = rates::walks::phrase(image, address, rate);
        self.walked_line('B', answer, part);
    }

    // The answer to a record that asks nothing of a chip, by its letter in the script, `I`, `V`, `F` or `A`, with its u32.
    // A byte of the script: docs/TRACE.md is the table of them.
    pub fn told_line(&mut self, letter: u8, n: usize, image: &[u8], voice: &[u8]) {
        match letter {
            b'I' => self.image_line(n),
            b'V' => self.refusal_line('V', number_of(&voice_check(voice))),
            b'F' => self.frame_line(image, n),
            _ => self.walk_line(image, n),
        }
    }

    // `R` and `L`: a byte read, and a look.
    pub fn read_line(&mut self, letter: char, refusal: u8, byte: u8) {
        self.head(letter, refusal);
        self.put(format_args!(" {byte}\n"));
    }

    // `T`: a sample step, with the number of its report, the frame that it reports and what it gives besides.
    pub fn step_line(
        &mut self,
        refusal: u8,
        sample: i16,
        report: u8,
        found: Option<Frame>,
        details: Details,
    ) {
        self.head('T', refusal);
        self.put(format_args!(" {sample} {report}"));
        self.put_each(&numbers(found));
        self.put(format_args!(
            " {} {} {} {} {}\n",
            details.rate, details.begun, details.used_up, details.missing, details.thrown
        ));
    }

    // `U`: a run into a buffer. Refused, it has no sample, and the line says whether an element was touched.
    pub fn run_line(&mut self, refusal: u8, values: &[i16]) {
        self.head('U', refusal);
        if refusal == 0 {
            self.put(format_args!(" {}", values.len()));
            self.put_each(values);
        } else {
            self.put(" 0");
            if values.iter().any(|&value| value != UNTOUCHED) {
                self.put(" touched");
            }
        }
        self.put('\n');
    }

    // `C`: the numbers of a chip.
    pub fn chip_line(&mut self, list: &[i64]) {
        self.put('C');
        self.put_each(list);
        self.put('\n');
    }

    // The line that ends the answers to a bad script.
    pub fn bad_line(&mut self) {
        self.put("bad script\n");
    }
}
