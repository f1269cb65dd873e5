// Voice files: their layout, their check and their look-ups.
#![tactic(auto)]

pub mod checks;
mod layout;
pub mod lookup;
