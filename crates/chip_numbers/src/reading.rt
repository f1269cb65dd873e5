// The chip that a list of numbers says.
ghost use Rattle.std.specs.Prelude.{◌≡◌, ◌<◌, ◌≤◌};
ghost use Rattle.chip_numbers.specs.Chips.{chip_length};
ghost use Rattle.chip_numbers.specs.Fields.{nth};
ghost use Rattle.chip_numbers.specs.Reading.{flag_by, order_by, mode_by, ten_by, held_by, address_by, fifo_by, port_by, clock_by, device_by, params_by, sound_by, chip_by};

use crate::list::NumberList;
use address::AddressRegister;
use base::units::{Intervals, Samples};
use chip::state::Chip;
use clock::Clock;
use control::device::Device;
use control::state::{Control, Mode, Port};
use fifo::{BitOrder, Fifo};
use filter::filter::STAGES;
use rates::rate::FrameRate;
use sound::params::Params;
use sound::state::Sound;

fn flag_at<N: NumberList>(numbers: &N, i: usize) -> bool
    requires { i < chip_length }
    ensures { result ≡ flag_by N.reading (nth (N.list numbers.now) i) }
{
    numbers.natural_at(i, 1) == 1
}

fn mode_at<N: NumberList>(numbers: &N, i: usize) -> Mode
    requires { i < chip_length }
    ensures { result ≡ mode_by N.reading (nth (N.list numbers.now) i) }
{
    match numbers.natural_at(i, 3) {
        0 => Mode::Idle,
        1 => Mode::Rom,
        2 => Mode::Waiting,
        _ => Mode::External,
    }
}

fn order_at<N: NumberList>(numbers: &N, i: usize) -> BitOrder
    requires { i < chip_length }
    ensures { result ≡ order_by N.reading (nth (N.list numbers.now) i) }
{
    if flag_at(numbers, i) {
        BitOrder::MostFirst
    } else {
        BitOrder::LeastFirst
    }
}

// Ten numbers, from number `at` on.
fn ten_of<N: NumberList>(numbers: &N, at: usize) -> [i32; STAGES]
    requires { at ≤ 53 }
    ensures { result ≡ ten_by N.reading (N.list numbers.now) at }
{
    let mut ten = [0; STAGES];
    for (i, z) in ten.iter_mut().enumerate() {
        *z = numbers.signed_at(at + i);
    }
    ten
}

fn held_of<N: NumberList>(numbers: &N) -> [u8; 16]
    ensures { result ≡ held_by N.reading (N.list numbers.now) }
{
    let mut bytes = [0; 16];
    for (i, byte) in bytes.iter_mut().enumerate() {
        *byte = numbers.byte_at(8 + i);
    }
    bytes
}

fn address_of<N: NumberList>(numbers: &N) -> AddressRegister
    ensures { result ≡ address_by N.reading (N.list numbers.now) }
{
    AddressRegister {
        position: numbers.natural_at(1, u32::MAX) as usize,
        next_nibble: numbers.byte_at(2),
    }
}

fn fifo_of<N: NumberList>(numbers: &N) -> Fifo
    ensures { result ≡ fifo_by N.reading (N.list numbers.now) }
{
    Fifo {
        bytes: held_of(numbers),
        level: numbers.held_level(),
        used_bits: numbers.byte_at(7),
        order: order_at(numbers, 67),
    }
}

fn port_of<N: NumberList>(numbers: &N) -> Port
    ensures { result ≡ port_by N.reading (N.list numbers.now) }
{
    Port {
        pending: flag_at(numbers, 3),
        data: numbers.byte_at(4),
        interrupt: flag_at(numbers, 5),
        busy: Samples::of(u64::from(numbers.natural_at(68, 255))),
    }
}

fn clock_of<N: NumberList>(numbers: &N) -> Clock
    ensures { result ≡ clock_by N.reading (N.list numbers.now) }
{
    Clock {
        sounding: flag_at(numbers, 24),
        sample: Samples::of(u64::from(numbers.natural_at(25, 255))),
        interval: Intervals::of(u64::from(numbers.natural_at(26, 255))),
    }
}

fn device_of<N: NumberList>(numbers: &N) -> Device
    ensures { result ≡ device_by N.reading (N.list numbers.now) }
{
    if flag_at(numbers, 63) {
        Device::Tms5220C(FrameRate {
            v: numbers.byte_at(64),
            rr: numbers.byte_at(65),
        })
    } else {
        Device::Tms5220
    }
}

// The parameters from number `at` on.
fn params_of<N: NumberList>(numbers: &N, at: usize) -> Params
    requires { at ≤ 51 }
    ensures { result ≡ params_by N.reading (N.list numbers.now) at }
{
    Params {
        energy: numbers.level_at(at),
        pitch: numbers.level_at(at + 1),
        k: ten_of(numbers, at + 2),
    }
}

fn sound_of<N: NumberList>(numbers: &N) -> Sound
    ensures { result ≡ sound_by N.reading (N.list numbers.now) }
{
    Sound {
        current: params_of(numbers, 29),
        target: params_of(numbers, 41),
        memory: ten_of(numbers, 53),
        noise: numbers.natural_at(27, 32767),
        pulse: numbers.natural_at(28, 32767),
        hold: flag_at(numbers, 66),
    }
}

pub fn read_chip<N: NumberList>(numbers: &N) -> Chip
    ensures { result ≡ chip_by N.reading (N.list numbers.now) }
{
    Chip {
        control: Control {
            mode: mode_at(numbers, 0),
            address: address_of(numbers),
            fifo: fifo_of(numbers),
            port: port_of(numbers),
            clock: clock_of(numbers),
            device: device_of(numbers),
        },
        sound: sound_of(numbers),
    }
}
