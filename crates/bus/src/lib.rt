// What a taken byte does to the control, and whether the sound goes to rest.
#![tactic(auto)]

pub mod accept;
pub mod commands;
