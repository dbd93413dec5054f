// A coder's state as a lent list of twelve numbers, in the crate's order and encoding; a stream's record as a list of energies and one of its
// next number.
#![tactic(auto)]

pub mod coder;
pub mod record;
