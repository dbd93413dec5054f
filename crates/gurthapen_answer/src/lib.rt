// An answer into the lists that a call was lent, family by family. A refusal leaves every list as it was.
// Answers are numbers and lent slices, as C has them. What has fields by the names of document 01, a vector or a shape, has a function of its own.
#![tactic(auto)]

pub mod allocation;
pub mod coder;
pub mod numbers;
pub mod pulses;
pub mod record;
pub mod shapes;
