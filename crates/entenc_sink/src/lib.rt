// Where a writer's bytes go: the range coder's from the front of the storage, raw bits from its end, and at a close the gap between them. RFC 6716,
// sections 5.1.1.2, 5.1.3 and 5.1.5.
#![tactic(auto)]

pub mod front;
pub mod gap;
pub mod raw;

// Where bytes go: the lent length, the next place at the front, how many bytes lie at the end, the error mark. Places and no slices: the state goes by value
// and is a list of numbers for C.
#[derive(Clone, Copy)]
pub struct Sink {
    pub storage: u32,
    pub offs: u32,
    pub ends: u32,
    pub error: bool,
}
