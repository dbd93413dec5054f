// The constant tables of CELT's 48 kHz mode. Each stands in a module of its own, in consts that the functions there read (the pulse cache's index
// is a list of specs/ alone, which rate_cache holds packed); its rule is proved once, in proofs/. A const is written out at each mention, so
// tables hold bytes where they can, and a caller that reads one of the long ones many times takes it once, by its module's `table`, and lends it to
// the functions named `.._in`.
// Bands and sizes stay numbers with their bounds in each contract: a type for them would be opened at each place of a table.
#![tactic(auto)]

pub mod cache_bits;
pub mod caps;
pub mod edges;
pub mod energy_model;
pub mod fractions;
pub mod log_widths;
pub mod prediction;
pub mod small_energy;
pub mod vectors;
