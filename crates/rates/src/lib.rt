// The frame rate of the TMS5220C, and the walk and the frame taken that are told it.
#![tactic(auto)]

pub mod rate;
pub mod walks;
