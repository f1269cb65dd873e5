// The library for C to link: the chip as the numbers that the caller holds, and the operations on it. Each function takes any numbers
// and any slices, and returns a refusal number of document 01.
#![tactic(auto)]

pub mod image;
pub mod operations;
