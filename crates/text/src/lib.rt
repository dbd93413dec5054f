// Lines of text as bytes: fields separated by tabs, strict decimal numbers, lowercase hex. Reading answers every input; the workers of
// `write` ask for room.
#![tactic(auto)]

pub mod fields;
pub mod hex;
pub mod lines;
pub mod places;
pub mod read;
pub mod write;
