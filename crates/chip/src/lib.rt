// The chip of document 01: one value, which each operation takes and hands back.
#![tactic(auto)]

pub mod read;
pub mod run;
pub mod state;
pub mod step;
pub mod validity;
pub mod write;
