// What stands before a symbol is coded: the same for reading and writing.
ghost use Rattle.std.specs.Prelude.{◌≡◌, ◌-◌};
ghost use Rattle.laws.specs.Lists.{fill};
ghost use Rattle.rate_spec.specs.Trials.{bits_of};
ghost use Rattle.rate_bands.specs.Inputs.{alloc_in, AllocCountsOk, AllocListsOk};
ghost use Rattle.rate.specs.Begun.{BeginsAt};

use crate::Begun;
use rate_bands::AllocCounts;
use rate_bands::budget::reserves_of;
use rate_bands::lists::skip_start;
use rate_trial::settle::settle;

// Writes each band's bits before skipping.
pub fn begin(f: AllocCounts, offsets: &[u32; 21], caps: &[u32; 21], bits: &mut [u32; 21]) -> Begun
    requires { AllocCountsOk f × AllocListsOk offsets.now caps.now }
    ensures { BeginsAt (alloc_in f offsets.now caps.now) result
        × (bits.new ≡ fill (bits_of (alloc_in f offsets.now caps.now)) f.start (f.end - f.start) bits.old) }
{
    let reserves = reserves_of(f);
    let mut thresholds = [0u32; 21];
    let t = settle(f, offsets, caps, reserves.budget, &mut thresholds, bits);
    let low = skip_start(f, offsets, caps);
    Begun {
        reserves,
        left: t.left,
        low,
    }
}
