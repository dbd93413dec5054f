// Each band's bits before skipping: the vector and the 64ths that the budget pays for. rate.rs, clt_compute_allocation and
// interp_bits2pulses up to its first psum; RFC 6716, section 4.3.3.
#![tactic(auto)]

pub mod pass;
pub mod search;
pub mod settle;
pub mod trial;

// Where the bands begin that are above the highest one that has its threshold, and what they take together.
#[derive(Clone, Copy)]
pub struct Top {
    pub below: usize,
    pub sum: u32,
}

// The vector that halving finds, within the budget, and how many were tried.
#[derive(Clone, Copy)]
pub struct Choice {
    pub v: usize,
    pub trials: u32,
}

// What no band has before skipping, and how many vectors were tried.
#[derive(Clone, Copy)]
pub struct Settled {
    pub left: u32,
    pub trials: u32,
}
