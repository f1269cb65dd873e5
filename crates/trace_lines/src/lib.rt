// The lines that answer the records of a trace script (docs/TRACE.md), in a buffer.
#![tactic(auto)]

pub mod lines;
