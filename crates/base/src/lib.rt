// What every layer shares: the three units of time, the refusal numbers, and a byte of a slice; in specs/ also ranges of
// integers, and steps one after another.
#![tactic(auto)]

pub mod bytes;
pub mod refusal;
pub mod units;
