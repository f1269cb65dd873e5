// Ranges of signed numbers.
ghost use Rattle.std.specs.Prelude.{◌≡◌};
ghost use Rattle.base.specs.Range.{inside, clamped};
ghost use Rattle.filter.specs.Ranges.{ten_inside};

use crate::filter::STAGES;

// z, or the end of low..high that it lies beyond. `i32::clamp` is not of use, as it asks that low is at most high.
#[tactic(auto, unfolding(base::specs::Range::clamped))]
pub fn clamp(z: i32, low: i32, high: i32) -> i32
    ensures { result ≡ clamped low high z }
{
    if z < low {
        low
    } else if high < z {
        high
    } else {
        z
    }
}

// Whether z is in low..high.
pub fn is_inside(z: i32, low: i32, high: i32) -> bool
    ensures { result ≡ inside low high z }
{
    (low..=high).contains(&z)
}

// Whether each of ten numbers is in low..high.
pub fn all_inside(zs: [i32; STAGES], low: i32, high: i32) -> bool
    ensures { result ≡ ten_inside low high zs }
{
    // `all`, which stops at the first that is not, takes up to two fifths more instructions.
    let mut all = true;
    for z in zs {
        all &= is_inside(z, low, high);
    }
    all
}
