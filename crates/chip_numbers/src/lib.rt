// The chip as the 69 numbers that a C caller holds, and back.
#![tactic(auto)]

pub mod fields;
pub mod from_numbers;
pub mod list;
mod putting;
pub mod reading;
pub mod to_numbers;
