// The noise register.
ghost use Rattle.std.specs.Prelude.{◌≡◌, ◌<◌, ◌≤◌};
ghost use Rattle.sound.specs.Noise.{noise_limit, bit_of, tap_chain, next_noise};

use crate::state::Sound;

// The register has 13 bits.
const NOISE_LIMIT: u32 = Sound::NOISE_MAX + 1;

// The wire from a bit of the register, 0 or 1.
fn tap(register: u32, bit: u32) -> u32
    requires { bit ≤ 12 }
    ensures { result ≡ bit_of register bit }
{
    (register >> bit) % 2
}

// The new bit, as the gate drawing has it.
#[tactic(auto, unfolding(crate::specs::Noise::tap_chain))]
fn new_bit(register: u32) -> u32
    ensures { result ≡ tap_chain register }
{
    tap(register, 12) ^ tap(register, 3) ^ tap(register, 2) ^ tap(register, 0)
}

// The register after a sample: twice itself plus the new bit, modulo 8192.
#[tactic(auto, using(crate::proofs::Taps::taps_agree), unfolding(crate::specs::Noise::next_noise))]
pub(crate) fn next_noise(register: u32) -> u32
    requires { register < noise_limit }
    ensures { result ≡ next_noise register }
{
    (2 * register + new_bit(register)) % NOISE_LIMIT
}
