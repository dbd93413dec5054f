// What other languages link: every public call of the port on numbers and lent lists; those of reader_held and stream_lent, which are the same calls in
// another form of state, cross as the same calls on lists. A coder's state is a list of twelve numbers, a record one of 42 energies and its next frame
// number. The answer is 0, or the number of the refusal, which leaves every list as it was: no Result, since C links these calls. For C each call has a
// function of its own and takes its numbers and lists one by one.
#![tactic(auto)]

pub mod allocation;
pub mod dec;
pub mod enc;
pub mod energies;
pub mod lap;
pub mod lookups;
pub mod pulses;
pub mod record;
pub mod requests;
pub mod shapes;
pub mod trips;
