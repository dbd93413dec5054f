// Bands are skipped from the top, and then the two stereo symbols are coded: rate.rs, interp_bits2pulses from the skip loop to dual stereo;
// RFC 6716, section 4.3.3. A side answers, reading or writing; the walk is one. All figures are eighth bits and have no sign.
#![tactic(auto)]

pub mod choice;
pub mod figures;
pub mod reading;
pub mod side;
pub mod walk;
pub mod writing;

// A round's figures: what the top band would get, whether a flag is asked, and if the band is dropped, what it keeps, what is left for the
// others and what is reserved for intensity.
#[derive(Clone, Copy)]
pub struct RoundFigures {
    pub top: u32,
    pub asked: bool,
    pub keep: u32,
    pub left: u32,
    pub reserve: u32,
}

// After skipping: the bands that are coded, what is left, what is reserved for intensity, and whether a flag said stop.
#[derive(Clone, Copy)]
pub struct Skipped {
    pub coded: usize,
    pub left: u32,
    pub reserve: u32,
    pub stopped: bool,
}
