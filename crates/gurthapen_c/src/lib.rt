// What other languages link: each call of gurthapen under its own name, with the clauses that gurthapen states of it. An integer or a float crosses
// as C's own, a slice as the pointer to its first element and the count of its elements. Written by tools/exported.
#![tactic(auto)]

mod allocation;
mod dec;
mod enc;
mod energies;
mod lap;
mod lookups;
mod pulses;
mod record;
mod requests;
mod shapes;
mod trips;
