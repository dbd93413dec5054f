// What is reserved before bits are shared: document 01, "Allocation".
ghost use Rattle.std.specs.Prelude.{◌≡◌, cond, ◌≤◌, leb};
ghost use Rattle.rate_bands.specs.Inputs.{bare, AllocCountsOk};
ghost use Rattle.rate_bands.specs.Reserved.{Reserved};

use crate::{AllocCounts, Reserves};
use modes::fractions::fraction_of;

// A bit, where the rest pays for one.
pub fn bit_of(rest: u32) -> u32
    ensures { (result ≡ cond (leb 8 rest) 8 0) × (result ≤ rest) }
{
    if 8 <= rest { 8 } else { 0 }
}

// The skip flag comes first; with two channels the intensity parameter, if it fits, and then the dual stereo flag.
pub fn reserves_of(f: AllocCounts) -> Reserves
    requires { AllocCountsOk f }
    ensures { Reserved (bare f) result }
{
    let skip = bit_of(f.total);
    let rest = f.total - skip;
    if f.c < 2 {
        return Reserves {
            skip: skip,
            intensity: 0,
            dual: 0,
            budget: rest,
        };
    }
    let cost = fraction_of(f.end - f.start);
    if rest < cost {
        return Reserves {
            skip: skip,
            intensity: 0,
            dual: 0,
            budget: rest,
        };
    }
    let dual = bit_of(rest - cost);
    Reserves {
        skip: skip,
        intensity: cost,
        dual: dual,
        budget: rest - cost - dual,
    }
}
