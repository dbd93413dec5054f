// What an encoder wishes, and what it decides by that: which flag it writes, and which intensity.
ghost use Rattle.std.specs.Prelude.{◌≡◌, cond, ◌-◌, ◌≤◌, ◌<◌, min, ltb, pos};
ghost use Rattle.std.specs.Int.Signed.{lt_z};
ghost use Rattle.modes.specs.Edges.{width};
ghost use Rattle.rate_spec.specs.Answers.{stops};
ghost use Rattle.rate_bands.specs.Inputs.{bare, AllocCountsOk};

use laws::pow2;
use rate_bands::AllocCounts;

// The first band whose channels are coded as one, whether the bands below it are coded apart, and what the flags depend on: the band count of the
// frame before and the signal's bandwidth.
#[derive(Clone, Copy)]
pub struct Wished {
    pub intensity: usize,
    pub dual: bool,
    pub previous: i32,
    pub bandwidth: i32,
}

impl Wished {
    // How deep the top of `coded` bands must be coded to stay, in 16ths of a bit for each coefficient.
    fn depth(self, coded: usize) -> u32
        requires { (1 ≤ coded) × (coded ≤ 21) }
        ensures { (result ≡ cond (ltb 17 coded) (cond (lt_z (pos (coded - 1)) self.previous) 7 9) 0) × (result ≤ 9) }
    {
        if 17 < coded {
            let j = (coded - 1) as i32;
            if j < self.previous { 7 } else { 9 }
        } else {
            0
        }
    }

    // Whether the encoder says stop, with the top band of width n and `top` bits.
    pub fn stops(self, f: AllocCounts, coded: usize, n: u32, top: u32) -> bool
        requires { AllocCountsOk f × (1 ≤ coded) × (coded ≤ 21) × (n ≡ width (coded - 1)) }
        ensures { result ≡ stops (bare f) self.previous self.bandwidth coded top }
    {
        if coded <= f.start + 2 {
            return true;
        }
        let depth = self.depth(coded);
        let p = pow2(f.lm);
        let least = depth * n * p * 8 / 16;
        let j = (coded - 1) as i32;
        (least < top) & (j <= self.bandwidth)
    }

    // Intensity as it is written, counted from start: no more than the coded bands.
    pub fn written(self, start: usize, coded: usize) -> u32
        requires { (start < coded) × (coded ≤ 21) }
        ensures { (result ≡ min (self.intensity - start) (coded - start)) × (result ≤ coded - start) }
    {
        self.intensity.saturating_sub(start).min(coded - start) as u32
    }
}
