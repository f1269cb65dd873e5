// What a sample step does to the control, what it asks of the sound, and what it reports.
#![tactic(auto)]

pub mod advance;
