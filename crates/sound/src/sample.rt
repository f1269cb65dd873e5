// One sample of the sound, and samples one after another.
ghost use Rattle.std.specs.Prelude.{◌≡◌, true, length};
ghost use Rattle.base.specs.Range.{Between};
ghost use Rattle.filter.specs.Filter.{forward, new_memory};
ghost use Rattle.filter.specs.Ranges.{TenBetween};
ghost use Rattle.sound.specs.Sample.{excitation_of, input_of, value_of, renewed, sampled, sound_after, values_of};
ghost use Rattle.sound.specs.State.{sound_valid};

use crate::noise::next_noise;
use crate::params::Params;
use crate::pulse::next_pulse;
use crate::state::Sound;
use filter::filter::{STAGES, filter};
use filter::range::clamp;
use rom::frames::PitchWidth;
use voice::lookup::pulse;

// The range of a sample: 10 signed bits.
const SAMPLE_MIN: i32 = -512;

const SAMPLE_MAX: i32 = 511;

// The excitation of noise, down or up.
const NOISE_LOW: i32 = -64;

const NOISE_HIGH: i32 = 64;

// An excitation counts in 64ths.
const EXCITATION_SHIFT: i32 = 6;

// The sound after a sample, and the sample.
#[derive(Clone, Copy, Debug, PartialEq, Eq)]
pub struct Sampled {
    pub sound: Sound,
    pub value: i16,
}

// The excitation: the pulse at the pulse place, or noise.
fn excitation(file: &[u8], voiced: bool, place: u32, noise: u32, pitch_bits: PitchWidth) -> i32
    ensures { result ≡ excitation_of pitch_bits file.now voiced place noise }
{
    if voiced {
        pulse(file, place, pitch_bits)
    } else if noise % 2 == 1 {
        NOISE_LOW
    } else {
        NOISE_HIGH
    }
}

// A sample's value, from the excitation; the memory is renewed.
fn filtered(k: &[i32; STAGES], memory: &mut [i32; STAGES], energy: i32, excitation: i32) -> i16
    requires { (TenBetween 512 511 k.now) × (TenBetween 8192 8191 memory.old) × (Between 0 1023 energy) × (Between 128 127 excitation) }
    ensures value { result ≡ value_of (forward k.now memory.old (input_of energy excitation)) }
    ensures memory_after { memory.new ≡ new_memory k.now memory.old (input_of energy excitation) }
{
    let input = energy * excitation >> EXCITATION_SHIFT;
    clamp(filter(k, memory, input), SAMPLE_MIN, SAMPLE_MAX) as i16
}

impl Sound {
    // The sound with the parts that a sample renews.
    fn renew(self, memory: [i32; STAGES], noise: u32, pulse: u32) -> Sound
        ensures { result ≡ renewed memory noise pulse self }
    {
        Sound {
            memory,
            noise,
            pulse,
            ..self
        }
    }

    // A sample, with the pulses of a voice file. A sound's ranges are a clause and no type: a host may hold a sound that is out of them.
    pub fn sample(self, file: &[u8], pitch_bits: PitchWidth) -> Sampled
        requires { sound_valid self ≡ true }
        ensures { result ≡ sampled pitch_bits file.now self }
    {
        let Params { energy, pitch, k } = self.current;
        let voiced = self.target.is_voiced();
        let mut memory = self.memory;
        let x = excitation(file, voiced, self.pulse, self.noise, pitch_bits);
        let value = filtered(&k, &mut memory, energy, x);
        let noise = next_noise(self.noise);
        let pulse = next_pulse(self.pulse, pitch);
        let sound = self.renew(memory, noise, pulse);
        Sampled { sound, value }
    }

    // A sample for each element of a buffer, without an interpolation between them.
    pub fn play(self, file: &[u8], out: &mut [i16], pitch_bits: PitchWidth) -> Sound
        requires { sound_valid self ≡ true }
        ensures value { result ≡ sound_after pitch_bits file.now (length out.old) self }
        ensures out_after { out.new ≡ values_of pitch_bits file.now (length out.old) self }
    {
        // Copies: read from `self` in the loop, they cost 14 instructions more a sample.
        let Params { energy, pitch, k } = self.current;
        let voiced = self.target.is_voiced();
        let mut memory = self.memory;
        let mut noise = self.noise;
        let mut pulse = self.pulse;
        for value in out {
            let x = excitation(file, voiced, pulse, noise, pitch_bits);
            *value = filtered(&k, &mut memory, energy, x);
            noise = next_noise(noise);
            pulse = next_pulse(pulse, pitch);
        }
        self.renew(memory, noise, pulse)
    }
}
