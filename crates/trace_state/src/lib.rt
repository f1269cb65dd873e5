// The chip as one list of numbers, in the order in which a trace prints it, and back.
#![tactic(auto)]

pub mod from_list;
pub mod numbers;
pub mod to_list;
