// The lattice filter of document 01, and numbers clamped to a range or tested for it.
#![tactic(auto)]

pub mod filter;
pub mod range;
