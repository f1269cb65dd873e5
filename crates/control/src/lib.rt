// The control of the chip: its value, its ranges, its commands and its status.
#![tactic(auto)]

pub mod commands;
pub mod device;
pub mod state;
pub mod status;
pub mod validity;
