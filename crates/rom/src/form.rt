// The form of a device's frames, which the walk and the frame taken are told.
ghost use Rattle.std.specs.Prelude.{◌≡◌, ℕ, ◌≤◌};
ghost use Rattle.std.proofs.Common.{rules};
ghost use Rattle.base.specs.Units.{intervals};
ghost use Rattle.rom.specs.Frames.{pitch_width};
ghost use Rattle.rom.specs.Form.{Form, KeepsSome, plain_form};

use crate::frames::PitchWidth;
use base::units::Intervals;

// How a device's frames stand in the bits, and how many intervals they skip.
pub trait FrameForm: Copy {
    ghost form: { Self → Form };

    // The bits of the prefix before each frame.
    fn prefix(self) -> usize
        ensures { result ≡ (form self).prefix };

    // The width of the pitch field.
    fn pitch(self) -> PitchWidth
        ensures { result ≡ (form self).pitch };

    // The intervals that a frame with this prefix skips.
    fn skipped(self, prefix: u8) -> Intervals
        ensures { result ≡ intervals ((form self).skips prefix) };

    // A prefix is a byte at most, and no frame skips all of its intervals.
    ghost prefix_fits: { (f : Self) → (form f).prefix ≤ 8 };

    ghost keeps_some: { (f : Self) → KeepsSome (form f) };
}

// Frames without a prefix, which skip nothing: those of the TMS5220 and TMS5200.
#[derive(Clone, Copy, Debug, PartialEq, Eq)]
pub struct Plain;

impl FrameForm for Plain {
    ghost form = { λ _. plain_form pitch_width };

    ghost prefix_fits = { λ _. Prim.search rules };

    ghost keeps_some = { λ _ q. Prim.search rules };

    #[inline(always)]
    fn prefix(self) -> usize {
        0
    }

    #[inline(always)]
    fn pitch(self) -> PitchWidth {
        PitchWidth::TMS5220
    }

    #[inline(always)]
    fn skipped(self, _prefix: u8) -> Intervals {
        Intervals::of(0)
    }
}
