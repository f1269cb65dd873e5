// The head of a frame: its energy, repeat bit and pitch. It gives the kind, and with it where the frame ends.
ghost use Rattle.std.specs.Prelude.{◌≡◌, List, ℕ};
ghost use Rattle.rom.specs.Window.{narrow, Window};
ghost use Rattle.rom.specs.Reader.{head_at, kind_of, kind_bits};

use crate::bits::{NARROW, part};
use crate::frames::PitchWidth;

// The fields that give the kind of a frame, each a number, as `head_at` reads them.
#[derive(Clone, Copy, Debug, PartialEq, Eq)]
pub struct Head {
    pub energy: u8,
    pub repeat: u8,
    pub pitch: u8,
}

// The head of the frame whose first bit is that of a narrow window.
pub fn head_of(window: u64, pitch_bits: PitchWidth) -> Head
    ensures { (s : List ℕ) (at : ℕ) → Window narrow s at window → result ≡ head_at pitch_bits s at }
{
    Head {
        energy: part(window, NARROW, 0, 4),
        repeat: part(window, NARROW, 4, 1),
        pitch: part(window, NARROW, 5, pitch_bits.bits()),
    }
}

// The kinds of frames.
#[derive(Clone, Copy, Debug, PartialEq, Eq)]
pub(crate) enum Kind {
    Silence,
    Stop,
    Repeat,
    Unvoiced,
    Voiced,
}

// The energies of a silence and a stop.
const SILENCE_CODE: u8 = 0;

const STOP_CODE: u8 = 15;

// The kind that a head gives.
pub(crate) fn kind_of(head: Head) -> Kind
    ensures { result ≡ kind_of head }
{
    match head {
        Head {
            energy: SILENCE_CODE,
            ..
        } => Kind::Silence,
        Head {
            energy: STOP_CODE,
            ..
        } => Kind::Stop,
        Head { repeat: 1, .. } => Kind::Repeat,
        Head { pitch: 0, .. } => Kind::Unvoiced,
        _ => Kind::Voiced,
    }
}

// The bits of a frame of a kind: 4 of energy, 1 + `pitch_bits` of repeat and pitch, 18 of K1 to K4, 39 of K1 to K10.
pub(crate) fn kind_bits(kind: Kind, pitch_bits: PitchWidth) -> usize
    ensures { result ≡ kind_bits pitch_bits kind }
{
    match kind {
        Kind::Silence | Kind::Stop => 4,
        Kind::Repeat => 5 + pitch_bits.bits(),
        Kind::Unvoiced => 23 + pitch_bits.bits(),
        Kind::Voiced => 44 + pitch_bits.bits(),
    }
}
