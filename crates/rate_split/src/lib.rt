// The end of an allocation: what is left is spread over the coded bands, and each band's bits are split between fine energy and pulses.
// rate.rs, interp_bits2pulses from the even spread on; RFC 6716, section 4.3.3. All figures are eighth bits and have no sign.
#![tactic(auto)]

ghost use Rattle.std.specs.Prelude.{◌≡◌, length};

pub mod bands;
pub mod shares;
pub mod split;

// What a band gets: pulses, fine bits of a channel, whether its fine energy comes last (1), and what it hands to the next band.
// `prio` is a number, no bool: the definition and the list of document 01 have it so.
#[derive(Clone, Copy)]
pub struct BandSplit {
    pub pulses: u32,
    pub fine: u32,
    pub prio: u32,
    pub balance: u32,
}

// What is left, spread evenly: for each coefficient, and one more for each of the first `rest`, counted from the edge `first`.
#[derive(Clone, Copy)]
pub struct Share {
    pub each: u32,
    pub rest: u32,
    pub first: u32,
}

// The lists that an allocation writes, an entry for each band: pulses, fine bits of a channel, and whether fine energy comes last (1).
#[derive(Drop)]
pub struct Lists<'a> {
    pub pulses: &'a mut [i32],
    pub fine: &'a mut [i32],
    pub priorities: &'a mut [i32],
    pub ghost whole: { (length pulses.now ≡ 21) × (length fine.now ≡ 21) × (length priorities.now ≡ 21) },
}
