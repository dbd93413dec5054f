// The numbers of a call that passed the gate, as the workers take them: they travel together, and what the gate tested of them is in the type.
ghost use Rattle.std.specs.Prelude.{◌≡◌, true, ◌<◌};
ghost use Rattle.laws.specs.Signs.{clip};
ghost use Rattle.quant_bands.specs.Domain.{BandsIn};
ghost use Rattle.quant_bands.specs.Question.{bands_ok, coarse_ok, is_intra};

use crate::edge::place_of;
use laws::clipped;

// The bands start..end-1 of c channels.
#[derive(Clone, Copy)]
pub struct Bands {
    pub c: u32,
    pub start: usize,
    pub end: usize,
    pub ghost within: { BandsIn c start end },
}

// The bands of a frame whose coarse energies are decoded, its size, and whether it is intra.
#[derive(Clone, Copy)]
pub struct Frame {
    pub bands: Bands,
    pub lm: usize,
    pub intra: bool,
    pub ghost size_lt: { lm < 4 },
}

impl Bands {
    // From the numbers that a call is handed.
    pub fn of(c: i32, start: i32, end: i32) -> Bands
        requires { bands_ok c start end ≡ true }
        ensures { (result.c ≡ clip c) × (result.start ≡ clip start) × (result.end ≡ clip end) }
    {
        Bands {
            c: clipped(c),
            start: place_of(start),
            end: place_of(end),
        }
    }
}

impl Frame {
    // From the numbers that a call is handed.
    pub fn of(c: i32, lm: i32, start: i32, end: i32, intra: i32) -> Frame
        requires { coarse_ok c lm start end intra ≡ true }
        ensures { (result.bands.c ≡ clip c) × (result.bands.start ≡ clip start) × (result.bands.end ≡ clip end) × (result.lm ≡ clip lm)
            × (result.intra ≡ is_intra intra) }
    {
        Frame {
            bands: Bands::of(c, start, end),
            lm: place_of(lm),
            intra: 0 < intra,
        }
    }
}
