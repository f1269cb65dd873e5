// The sound of document 01: its state, the targets of a frame, interpolation, noise, pulses, and one sample after another
// through the lattice filter.
#![tactic(auto)]

pub mod interpolation;
mod noise;
pub mod params;
mod pulse;
pub mod sample;
pub mod state;
pub mod targets;
