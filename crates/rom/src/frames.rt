// Frames: kinds and indexes.
ghost use Rattle.std.specs.Prelude.{◌≡◌, ◌≤◌};
ghost use Rattle.rom.specs.Frames.{pitch_width, is_stop, numbers_of};

use std::marker::Model;

// The width of a device's pitch field: at most 8, so that a pitch index is a byte.
#[derive(Clone, Copy, Debug, PartialEq, Eq)]
pub struct PitchWidth {
    bits: usize,
}

impl Model for PitchWidth {
    ghost use Rattle.std.specs.Prelude.{ℕ, ◌≤◌};

    ghost Value = { ℕ };

    ghost view = { λ w. w.bits };

    ghost invariant = { λ w. w.bits ≤ 8 };

    ghost inverse = { λ n. record { bits = n } };
}

impl PitchWidth {
    // Of the TMS5220 and TMS5200.
    pub const TMS5220: PitchWidth = PitchWidth { bits: 6 };

    // Of another device.
    pub fn new(bits: usize) -> PitchWidth
        requires { bits ≤ 8 }
        ensures { result ≡ bits }
    {
        PitchWidth { bits }
    }

    pub fn bits(self) -> usize
        ensures value { result ≡ self }
        ensures upper_bound { result ≤ 8 }
    {
        self.bits
    }
}

// Each kind carries the indexes that its bits hold, and no others.
#[derive(Clone, Copy, Debug, PartialEq, Eq)]
pub enum Frame {
    Silence,
    Stop,
    Repeat {
        energy: u8,
        pitch: u8,
    },
    Unvoiced {
        energy: u8,
        k1: u8,
        k2: u8,
        k3: u8,
        k4: u8,
    },
    Voiced {
        energy: u8,
        pitch: u8,
        k1: u8,
        k2: u8,
        k3: u8,
        k4: u8,
        k5: u8,
        k6: u8,
        k7: u8,
        k8: u8,
        k9: u8,
        k10: u8,
    },
}

pub fn is_stop(f: Frame) -> bool
    ensures { result ≡ is_stop f }
{
    matches!(f, Frame::Stop)
}

// Kind, energy, pitch and K1 to K10 as numbers.
pub type Numbers = [u8; 13];

// The numbers of a frame: 0 for an index that the kind does not carry, all 0 for no frame.
pub fn numbers(f: Option<Frame>) -> Numbers
    ensures { result ≡ numbers_of f }
{
    let Some(f) = f else {
        return [0; 13];
    };
    match f {
        Frame::Silence => [1, 0, 0, 0, 0, 0, 0, 0, 0, 0, 0, 0, 0],
        Frame::Stop => [2, 15, 0, 0, 0, 0, 0, 0, 0, 0, 0, 0, 0],
        Frame::Repeat { energy, pitch } => [3, energy, pitch, 0, 0, 0, 0, 0, 0, 0, 0, 0, 0],
        Frame::Unvoiced {
            energy,
            k1,
            k2,
            k3,
            k4,
        } => [4, energy, 0, k1, k2, k3, k4, 0, 0, 0, 0, 0, 0],
        Frame::Voiced {
            energy,
            pitch,
            k1,
            k2,
            k3,
            k4,
            k5,
            k6,
            k7,
            k8,
            k9,
            k10,
        } => [5, energy, pitch, k1, k2, k3, k4, k5, k6, k7, k8, k9, k10],
    }
}
