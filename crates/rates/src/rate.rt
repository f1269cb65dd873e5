// The frame rate: what Load Frame Rate sets.
ghost use Rattle.std.specs.Prelude.{◌≡◌, ◌≤◌, eqb};
ghost use Rattle.std.proofs.Common.{rules};
ghost use Rattle.base.proofs.Booleans.{by_test};
ghost use Rattle.rom.specs.Frames.{pitch_width};
ghost use Rattle.rates.specs.Form.{rate_form};
ghost use Rattle.rates.specs.Rates.{power_up_rate, rate_valid, rate_of_byte, prefix_bits, skipped_with};

use base::units::Intervals;
use rom::form::FrameForm;
use rom::frames::PitchWidth;

// The frame mode v and the rate rr, as in the byte x0x0xvrr. Numbers and no enum: a host may hold and ask for any, and others are refused with 4.
#[derive(Clone, Copy, Debug, PartialEq, Eq)]
pub struct FrameRate {
    pub v: u8,
    pub rr: u8,
}

impl FrameRate {
    pub fn power_up() -> FrameRate
        ensures { result ≡ power_up_rate }
    {
        FrameRate { v: 0, rr: 0 }
    }

    pub fn valid(self) -> bool
        ensures { result ≡ rate_valid self }
    {
        (self.v <= 1) & (self.rr <= 3)
    }

    // The rate that a byte sets.
    pub fn of_byte(byte: u8) -> FrameRate
        ensures { result ≡ rate_of_byte byte }
    {
        FrameRate {
            v: byte / 4 % 2,
            rr: byte % 4,
        }
    }

    // The rate bits before each frame.
    pub fn prefix_bits(self) -> usize
        ensures { result ≡ prefix_bits self }
    {
        if self.v == 0 { 0 } else { 2 }
    }

    // The intervals that a frame with these rate bits skips.
    pub fn skips(self, bits: u8) -> Intervals
        ensures { result ≡ skipped_with self bits }
    {
        let rate = if self.v == 0 { self.rr } else { bits };
        Intervals::of(2 * u64::from(rate % 4))
    }
}

impl FrameForm for FrameRate {
    ghost form = { λ r. rate_form r pitch_width };

    ghost prefix_fits = { λ r. by_test (λ n. n ≤ 8) (eqb r.v 0) (λ _. Prim.search rules) (λ _. Prim.search rules) };

    ghost keeps_some = { λ r q. Prim.search rules };

    #[inline(always)]
    fn prefix(self) -> usize {
        self.prefix_bits()
    }

    #[inline(always)]
    fn pitch(self) -> PitchWidth {
        PitchWidth::TMS5220
    }

    #[inline(always)]
    fn skipped(self, prefix: u8) -> Intervals {
        self.skips(prefix)
    }
}
