// Frames, bits and phrases as the numbers that a C caller gets.
#![tactic(auto)]

pub mod frames;
pub mod walks;
