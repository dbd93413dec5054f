// What an allocation knows before it shares bits: the frame, what is reserved, and each band's figures. rate.rs, clt_compute_allocation;
// RFC 6716, section 4.3.3. All figures are eighth bits and have no sign.
#![tactic(auto)]

pub mod band;
pub mod budget;
pub mod lists;

// All that an allocation is asked except its two lists: channels, frame size, the bands start..end-1, the trim, and the total, in which a
// negative number was read as 0. No invariant: the definition `alloc_counts` of rate, and theorems over it, make this record of any numbers. The two lists
// are lent beside it, so that nothing is copied.
#[derive(Clone, Copy)]
pub struct AllocCounts {
    pub c: u32,
    pub lm: u32,
    pub start: usize,
    pub end: usize,
    pub trim: u32,
    pub total: u32,
}

// What is set aside for the skip flag, the intensity parameter and the dual stereo flag, and what the bands share.
#[derive(Clone, Copy)]
pub struct Reserves {
    pub skip: u32,
    pub intensity: u32,
    pub dual: u32,
    pub budget: u32,
}
