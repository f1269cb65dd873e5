// The ROM side of document 01: the bits of an image, frames, the frame reader and the phrase walk.
#![tactic(auto)]

pub mod bits;
pub mod form;
pub mod frames;
pub mod head;
pub mod phrases;
pub mod reader;
