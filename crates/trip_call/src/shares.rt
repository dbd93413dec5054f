// Allocations with their lists, and two of them compared.
ghost use Rattle.std.specs.Prelude.{◌≡◌};
ghost use Rattle.trip_call.specs.Same.{same_ints, same_numbers};

use rate::{Allocation, ReadAllocation, WrittenAllocation};

// What an allocation gives, and the lists that it filled.
#[derive(Clone, Copy)]
pub struct Shares<C> {
    pub figures: Allocation<C>,
    pub pulses: [i32; 21],
    pub fine: [i32; 21],
    pub priorities: [i32; 21],
}

// Field by field: the two have coders of other types.
// Are the numbers of two allocations the same?
pub fn same_numbers(y: WrittenAllocation, x: ReadAllocation) -> bool
    ensures { result ≡ same_numbers y x }
{
    (x.coded == y.coded)
        & (x.balance == y.balance)
        & (x.intensity == y.intensity)
        & (x.dual == y.dual)
}

// Do two lists have the same entries?
pub fn same_ints(x: &[i32], y: &[i32]) -> bool
    ensures { result ≡ same_ints x.now y.now }
{
    x == y
}
