// The operations on a chip. What is no chip's numbers is refused with 4, at its place in the order of checks. Refused, a call leaves the
// numbers as they were.
ghost use Rattle.std.specs.Prelude.{◌≡◌, true, length, IfOk};
ghost use Rattle.base.specs.Answers.{number_of_answer};
ghost use Rattle.chip.specs.Validity.{valid};
ghost use Rattle.reports.specs.Reports.{report_number, report_frame};
ghost use Rattle.chip_numbers.specs.Chips.{chip_of};
ghost use Rattle.capi.specs.Operations.{abi, numbers_after, settled, SaysNext, name_fault, power_up_named, check_on, write_on, look_on, acknowledge_on, read_on, step_on, run_on, buffer_on};
ghost use Rattle.answer_numbers.specs.Answers.{frame_bytes, step_bits};

use answer_numbers::frames::{step_bits, with_rate};
use base::refusal::Refusal;
use chip::state::Chip;
use chip_numbers::from_numbers::chip_of;
use chip_numbers::to_numbers::{Numbers, numbers_of};
use fifo::BitOrder;
use rom::frames::numbers as frame_numbers;

// What C gets of a call that is taken, in place of a refusal number.
const TAKEN: u8 = 0;

// The version of the interface, so that a program sees whether its header and its library are of one.
#[unsafe(no_mangle)]
pub extern "C" fn tms_abi() -> u32
    ensures { result ≡ abi }
{
    1
}

// Puts the numbers of the chip that a call handed back in place, and gives the call's number; refused, they stay as they were.
#[inline(always)]
fn settle(chip: &mut Numbers, answer: Result<Chip, Refusal>) -> u8
    ensures value { result ≡ number_of_answer answer }
    ensures chip_after { chip.new ≡ settled chip.old answer }
    ensures says_next { IfOk answer (λ next. valid next ≡ true → chip_of chip.new ≡ next) }
{
    match answer {
        Ok(next) => {
            *chip = numbers_of(next);
            TAKEN
        }
        Err(refusal) => refusal.number(),
    }
}

fn power_up_named(device: u8, bit_order: u8) -> Result<Chip, Refusal>
    ensures value { number_of_answer result ≡ name_fault device bit_order }
    ensures fresh { IfOk result (λ fresh. fresh ≡ power_up_named device bit_order) }
{
    let order = match bit_order {
        0 => BitOrder::LeastFirst,
        1 => BitOrder::MostFirst,
        _ => return Err(Refusal::State),
    };
    match device {
        0 => Ok(Chip::power_up_with(order)),
        1 => Ok(Chip::power_up_5220c_with(order)),
        _ => Err(Refusal::State),
    }
}

// Power-up, whatever the numbers were, of the TMS5220 (0) or the TMS5220C (1), whose FIFO's bits leave each byte least (0) or most (1)
// significant first.
#[unsafe(no_mangle)]
pub extern "C" fn tms_power_up(chip: &mut Numbers, device: u8, bit_order: u8) -> u8
    ensures value { result ≡ name_fault device bit_order }
    ensures chip_after { chip.new ≡ numbers_after chip.old (name_fault device bit_order) (power_up_named device bit_order) }
    ensures says_next { SaysNext chip.new (name_fault device bit_order) (power_up_named device bit_order) }
{
    settle(chip, power_up_named(device, bit_order))
}

// Whether the numbers are those of a valid chip, which may be resumed.
#[unsafe(no_mangle)]
pub extern "C" fn tms_check(chip: &Numbers) -> u8
    ensures { result ≡ check_on chip.now }
{
    if chip_of(chip).valid() {
        TAKEN
    } else {
        Refusal::State.number()
    }
}

// A byte written.
#[unsafe(no_mangle)]
pub extern "C" fn tms_write(chip: &mut Numbers, image: &[u8], byte: u8) -> u8
    ensures value { result ≡ (write_on image.now chip.old byte).refusal }
    ensures chip_after { chip.new ≡ numbers_after chip.old (write_on image.now chip.old byte).refusal (write_on image.now chip.old byte).chip }
    ensures says_next { SaysNext chip.new (write_on image.now chip.old byte).refusal (write_on image.now chip.old byte).chip }
{
    let answer = chip_of(chip).write(image, byte);
    settle(chip, answer)
}

// The byte that a read would give; the chip stays as it is.
#[unsafe(no_mangle)]
pub extern "C" fn tms_look(chip: &Numbers, byte: &mut u8) -> u8
    ensures value { result ≡ (look_on chip.now).refusal }
    ensures byte_after { byte.new ≡ (look_on chip.now).byte }
{
    match chip_of(chip).look() {
        Ok(found) => {
            *byte = found;
            TAKEN
        }
        Err(refusal) => {
            *byte = 0;
            refusal.number()
        }
    }
}

// What a read does to the chip.
#[unsafe(no_mangle)]
pub extern "C" fn tms_acknowledge(chip: &mut Numbers) -> u8
    ensures value { result ≡ (acknowledge_on chip.old).refusal }
    ensures chip_after { chip.new ≡ numbers_after chip.old (acknowledge_on chip.old).refusal (acknowledge_on chip.old).chip }
    ensures says_next { SaysNext chip.new (acknowledge_on chip.old).refusal (acknowledge_on chip.old).chip }
{
    let answer = chip_of(chip).acknowledge();
    settle(chip, answer)
}

// A byte read.
#[unsafe(no_mangle)]
pub extern "C" fn tms_read(chip: &mut Numbers, byte: &mut u8) -> u8
    ensures value { result ≡ (read_on chip.old).refusal }
    ensures chip_after { chip.new ≡ numbers_after chip.old (read_on chip.old).refusal (read_on chip.old).chip }
    ensures says_next { SaysNext chip.new (read_on chip.old).refusal (read_on chip.old).chip }
    ensures byte_after { byte.new ≡ (read_on chip.old).byte }
{
    match chip_of(chip).read() {
        Ok(read) => {
            *byte = read.byte;
            settle(chip, Ok(read.chip))
        }
        Err(refusal) => {
            *byte = 0;
            refusal.number()
        }
    }
}

// A sample step: the sample, the number of what it reports, the frame that begins, and what became of the bits. Its two halves are called
// one by one: the compiler would keep the chip as it was through the whole step, for the case that it is refused.
#[unsafe(no_mangle)]
pub extern "C" fn tms_step(
    chip: &mut Numbers,
    image: &[u8],
    voice: &[u8],
    sample: &mut i16,
    report: &mut u8,
    frame: &mut [u8; 14],
    bits: &mut [usize; 4],
) -> u8
    ensures value { result ≡ (step_on image.now voice.now chip.old).refusal }
    ensures chip_after { chip.new ≡ numbers_after chip.old (step_on image.now voice.now chip.old).refusal (step_on image.now voice.now chip.old).chip }
    ensures says_next { SaysNext chip.new (step_on image.now voice.now chip.old).refusal (step_on image.now voice.now chip.old).chip }
    ensures sample_after { sample.new ≡ (step_on image.now voice.now chip.old).sample }
    ensures report_after { report.new ≡ report_number (step_on image.now voice.now chip.old).report }
    ensures frame_after { frame.new ≡ frame_bytes (report_frame (step_on image.now voice.now chip.old).report) (step_on image.now voice.now chip.old).details.rate }
    ensures bits_after { bits.new ≡ step_bits (step_on image.now voice.now chip.old).details }
{
    let held = chip_of(chip);
    if let Err(refusal) = held.step_fault(image, voice) {
        *sample = 0;
        *report = 0;
        *frame = [0; 14];
        *bits = [0; 4];
        return refusal.number();
    }
    let stepped = held.take_step(image, voice);
    *chip = numbers_of(stepped.chip);
    *sample = stepped.sample;
    *report = stepped.report.number();
    *frame = with_rate(frame_numbers(stepped.report.frame()), stepped.details.rate);
    *bits = step_bits(stepped.details);
    TAKEN
}

// A run: a sample in each element of `out`; refused, `out` is as it was.
#[unsafe(no_mangle)]
pub extern "C" fn tms_run(chip: &mut Numbers, image: &[u8], voice: &[u8], out: &mut [i16]) -> u8
    ensures value { result ≡ (run_on image.now voice.now chip.old (length out.old)).refusal }
    ensures chip_after { chip.new ≡ numbers_after chip.old (run_on image.now voice.now chip.old (length out.old)).refusal (run_on image.now voice.now chip.old (length out.old)).chip }
    ensures says_next { SaysNext chip.new (run_on image.now voice.now chip.old (length out.old)).refusal (run_on image.now voice.now chip.old (length out.old)).chip }
    ensures out_after { out.new ≡ buffer_on image.now voice.now chip.old out.old }
{
    let answer = chip_of(chip).run(image, voice, out);
    settle(chip, answer)
}
