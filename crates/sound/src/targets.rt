// The targets that a frame sets, and whether it holds the currents.
ghost use Rattle.std.specs.Prelude.{◌≡◌};
ghost use Rattle.sound.specs.Targets.{targets_of, holds, with_targets};

use crate::params::Params;
use crate::state::Sound;
use rom::frames::{Frame, PitchWidth};
use voice::lookup::{energy, k, pitch};

// The targets of a frame, from a voice file and the targets before it.
fn targets(file: &[u8], frame: Frame, old: Params, pitch_bits: PitchWidth) -> Params
    ensures { result ≡ targets_of pitch_bits file.now frame old }
{
    match frame {
        Frame::Silence | Frame::Stop => Params { energy: 0, ..old },
        Frame::Repeat {
            energy: e,
            pitch: p,
        } => Params {
            energy: energy(file, e, pitch_bits),
            pitch: pitch(file, p, pitch_bits),
            ..old
        },
        Frame::Unvoiced {
            energy: e,
            k1,
            k2,
            k3,
            k4,
        } => Params {
            energy: energy(file, e, pitch_bits),
            pitch: 0,
            k: [
                k(file, 0, k1, pitch_bits),
                k(file, 1, k2, pitch_bits),
                k(file, 2, k3, pitch_bits),
                k(file, 3, k4, pitch_bits),
                0,
                0,
                0,
                0,
                0,
                0,
            ],
        },
        Frame::Voiced {
            energy: e,
            pitch: p,
            k1,
            k2,
            k3,
            k4,
            k5,
            k6,
            k7,
            k8,
            k9,
            k10,
        } => Params {
            energy: energy(file, e, pitch_bits),
            pitch: pitch(file, p, pitch_bits),
            k: [
                k(file, 0, k1, pitch_bits),
                k(file, 1, k2, pitch_bits),
                k(file, 2, k3, pitch_bits),
                k(file, 3, k4, pitch_bits),
                k(file, 4, k5, pitch_bits),
                k(file, 5, k6, pitch_bits),
                k(file, 6, k7, pitch_bits),
                k(file, 7, k8, pitch_bits),
                k(file, 8, k9, pitch_bits),
                k(file, 9, k10, pitch_bits),
            ],
        },
    }
}

// Whether a frame holds the currents: it changes voiced to unvoiced or back, or its energy comes from 0.
fn holds(old: Params, new: Params) -> bool
    ensures { result ≡ holds old new }
{
    old.is_voiced() != new.is_voiced() || (old.is_mute() && !new.is_mute())
}

impl Sound {
    // The sound with the targets of a frame, holding its currents or not.
    pub fn set_targets(self, file: &[u8], frame: Frame, pitch_bits: PitchWidth) -> Sound
        ensures { result ≡ with_targets pitch_bits file.now frame self }
    {
        let target = targets(file, frame, self.target, pitch_bits);
        let hold = holds(self.target, target);
        Sound {
            target,
            hold,
            ..self
        }
    }
}
