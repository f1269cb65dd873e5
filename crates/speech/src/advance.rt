// What a sample step does to the control, what it asks of the sound, and what it reports. The width of the pitch field is a
// parameter.
ghost use Rattle.std.specs.Prelude.{◌≡◌, true, cond, ◌≤◌, ◌<◌, length};
ghost use Rattle.rom.specs.Bits.{image_limit};
ghost use Rattle.address.specs.Addresses.{position_limit};
ghost use Rattle.clock.specs.Counters.{last_sample};
ghost use Rattle.fifo.specs.Buffer.{fifo_size, held_bytes};
ghost use Rattle.rates.specs.Form.{read_item};
ghost use Rattle.control.specs.Validity.{control_valid};
ghost use Rattle.reports.specs.Reports.{no_details};
ghost use Rattle.speech.specs.Types.{NoReport};
ghost use Rattle.speech.specs.Advance.{raises, changed, frame_begun, ran_out, from_rom, fifo_out, from_fifo, form_of, rested, boundary_in, within, advanced_from, advanced};

use base::units::Samples;
use clock::Clock;
use control::state::{Control, Mode};
use fifo::Fifo;
use reports::{Action, Details, Report, report_frame};
use rom::bits::field_at;
use rom::frames::{Frame, PitchWidth, is_stop};
use rom::reader::frame_from;

// The control after a step, what it asks of the sound, what it reports, and what it gives besides.
#[derive(Clone, Copy, Debug, PartialEq, Eq)]
pub struct Moved {
    pub control: Control,
    pub action: Action,
    pub report: Report,
    pub details: Details,
}

// Whether a change of mode and FIFO sets the interrupt.
fn raises(control: Control, mode: Mode, fifo: Fifo) -> bool
    ensures { result ≡ raises control mode fifo }
{
    (control.mode.speaks() && !mode.speaks())
        || (!control.fifo.is_low() && fifo.is_low())
        || (!control.fifo.is_empty() && fifo.is_empty())
}

// The control with another mode, position, FIFO and clock, and the interrupt that this sets.
fn change(control: Control, mode: Mode, position: usize, fifo: Fifo, clock: Clock) -> Control
    ensures { result ≡ changed control mode position fifo clock }
{
    let raised = raises(control, mode, fifo);
    control
        .with_mode(mode)
        .with_address(control.address.move_to(position))
        .with_fifo(fifo)
        .with_port(control.port.raise(raised))
        .with_clock(clock)
}

// The control after a frame with these rate bits, the position and the FIFO moved on, and what the step gives besides. As a call of its own
// it costs a step 700 bytes of stack, for what is passed by value.
#[inline(always)]
fn begin_frame(
    control: Control,
    bits: u8,
    frame: Frame,
    position: usize,
    held: Fifo,
    details: Details,
) -> Moved
    requires { control.clock.sample.0 ≤ last_sample }
    ensures { result ≡ frame_begun control (bits, frame) position held details }
{
    let first = control.device.rate().skips(bits);
    let clock = control.clock.begin_at(first).count();
    let next = if is_stop(frame) {
        change(control, Mode::Idle, position, held.discard(), clock)
    } else {
        change(control, control.mode, position, held, clock)
    };
    Moved {
        control: next,
        action: Action::Begin(frame, first),
        report: report_frame(frame),
        details,
    }
}

// Running out: idle, and the sound goes to rest at once.
fn run_out(control: Control, position: usize, held: Fifo, details: Details) -> Moved
    ensures { result ≡ ran_out control position held details }
{
    Moved {
        control: change(control, Mode::Idle, position, held, control.clock.stop()),
        action: Action::Rest,
        report: Report::RanOut,
        details,
    }
}

// A frame from the ROM, or its end.
fn from_rom(control: Control, image: &[u8], pitch_bits: PitchWidth) -> Moved
    requires { (length image.now ≤ image_limit)
        × (control.address.position ≤ position_limit)
        × (control.clock.sample.0 ≤ last_sample) }
    ensures { result ≡ from_rom image.now control (read_item (form_of pitch_bits control) image.now control.address.position) }
{
    let position = control.address.position;
    let prefix = control.device.rate().prefix_bits();
    let bits = field_at(image, position, prefix);
    let answer = frame_from(image, position, position + prefix, pitch_bits);
    let Ok((frame, next)) = answer else {
        let end = position.max(8 * image.len());
        let details = Details::out_of_rom(answer.unwrap_err());
        return run_out(control, end, control.fifo, details);
    };
    let details = Details::rated(bits);
    begin_frame(control, bits, frame, next, control.fifo, details)
}

// Running out in the FIFO, in a frame that lacks some bits, or none.
fn fifo_out(control: Control, missing: usize) -> Moved
    requires { (0 < control.fifo.level) × (control.fifo.used_bits ≤ 7) }
    ensures { result ≡ fifo_out control missing }
{
    let held = control.fifo;
    let used_up = 8 * usize::from(held.level) - usize::from(held.used_bits);
    let details = Details::out_of_fifo(used_up, missing);
    run_out(control, control.address.position, held.discard(), details)
}

// The bits that a frame throws away, of those left behind it: a stop all, another frame none.
fn thrown(stop: bool, left: usize) -> usize
    ensures { result ≡ cond stop left 0 }
{
    if stop { left } else { 0 }
}

// A frame from the FIFO, or its end.
fn from_fifo(control: Control, pitch_bits: PitchWidth) -> Moved
    requires { (0 < control.fifo.level)
        × (control.fifo.level ≤ fifo_size)
        × (control.fifo.used_bits ≤ 7)
        × (control.clock.sample.0 ≤ last_sample) }
    ensures { result ≡ from_fifo control (read_item (form_of pitch_bits control) (held_bytes control.fifo) control.fifo.used_bits) }
{
    let held = control.fifo;
    let bytes = held.read_bytes();
    let level = usize::from(held.level);
    let used = usize::from(held.used_bits);
    let prefix = control.device.rate().prefix_bits();
    let bits = field_at(&bytes[..level], used, prefix);
    let answer = frame_from(&bytes[..level], used, used + prefix, pitch_bits);
    let Ok((frame, next)) = answer else {
        return fifo_out(control, answer.unwrap_err().missing);
    };
    let stop = is_stop(frame);
    if stop || next < 8 * level {
        let details = Details::of_frame(bits, thrown(stop, 8 * level - next));
        begin_frame(
            control,
            bits,
            frame,
            control.address.position,
            held.use_up(next),
            details,
        )
    } else {
        fifo_out(control, 0)
    }
}

// A frame boundary in idle or waiting: the sound goes to rest.
fn rest(control: Control) -> Moved
    ensures { result ≡ rested control }
{
    Moved {
        control: control.with_clock(control.clock.stop()),
        action: Action::Rest,
        report: Report::Nothing,
        details: Details::none(),
    }
}

// At a frame boundary. That a control is valid is a clause and no type round it: each step leaves another, and every line would open it.
fn boundary(control: Control, image: &[u8], pitch_bits: PitchWidth) -> Moved
    requires { (length image.now ≤ image_limit) × (control_valid control ≡ true) }
    ensures { result ≡ boundary_in pitch_bits control.mode image.now control }
{
    match control.mode {
        Mode::Idle | Mode::Waiting => rest(control),
        Mode::Rom => from_rom(control, image, pitch_bits),
        Mode::External => from_fifo(control, pitch_bits),
    }
}

// What is asked of the sound within a frame.
fn go_on(clock: Clock) -> Action
    ensures { result ≡ within clock }
{
    if clock.interval_begins() {
        Action::Interpolate(clock.interval)
    } else {
        Action::Continue
    }
}

// A step that reports nothing.
fn quiet(control: Control, action: Action) -> Moved
    ensures { result ≡ record { control = control; action = action; report = NoReport; details = no_details } }
{
    Moved {
        control,
        action,
        report: Report::Nothing,
        details: Details::none(),
    }
}

// A sample step but for the time that a branch takes.
fn advance_from(control: Control, image: &[u8], pitch_bits: PitchWidth) -> Moved
    requires { (length image.now ≤ image_limit) × (control_valid control ≡ true) }
    ensures { result ≡ advanced_from pitch_bits image.now control }
{
    let clock = control.clock;
    if !clock.sounding {
        quiet(control, Action::Silent)
    } else if clock.frame_begins() {
        boundary(control, image, pitch_bits)
    } else {
        quiet(control.with_clock(clock.count()), go_on(clock))
    }
}

// A sample step of the control, which the caller has tested, as it has the image.
pub fn advance(control: Control, image: &[u8], pitch_bits: PitchWidth) -> Moved
    requires { (length image.now ≤ image_limit) × (control_valid control ≡ true) }
    ensures { result ≡ advanced pitch_bits image.now control }
{
    advance_from(control.less_busy(Samples::of(1)), image, pitch_bits)
}
