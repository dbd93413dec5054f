// Each band's bits before skipping, from the question to the list.
ghost use Rattle.std.specs.Prelude.{◌≡◌, ◌-◌, length};
ghost use Rattle.laws.specs.Lists.{fill};
ghost use Rattle.rate_spec.specs.Alloc.{first_round};
ghost use Rattle.rate_spec.specs.Reserves.{budget};
ghost use Rattle.rate_spec.specs.Trials.{bits_of, vector};
ghost use Rattle.rate_spec.specs.Vectors.{threshold};
ghost use Rattle.rate_bands.specs.Inputs.{alloc_in, bare, AllocCountsOk, AllocListsOk};
ghost use Rattle.rate_bands.specs.Tilts.{Neighbours};

use crate::pass::last_pass;
use crate::search::{sixtyfourths_of, vector_of};
use crate::trial::Point;
use crate::{Choice, Settled};
use modes::vectors::table;
use rate_bands::AllocCounts;
use rate_bands::lists::{BandTilts, neighbours, tilts};

// Chooses the vector, and writes the thresholds, the vector's bits and what the next one has above them.
pub fn choose(
    f: AllocCounts,
    offsets: &[u32; 21],
    caps: &[u32; 21],
    shared: u32,
    thresholds: &mut [u32; 21],
    lows: &mut [u32; 21],
    gaps: &mut [u32; 21],
) -> Choice
    requires { AllocCountsOk f × AllocListsOk offsets.now caps.now × (shared ≡ budget (bare f)) × (length thresholds.old ≡ 21)
        × (length lows.old ≡ 21) × (length gaps.old ≡ 21) }
    ensures { let a = alloc_in f offsets.now caps.now in
        (result.v ≡ (vector a).0) × (result.trials ≡ (vector a).1)
        × (thresholds.new ≡ fill (threshold (bare f)) f.start (f.end - f.start) thresholds.old)
        × Neighbours a result.v lows.new gaps.new }
{
    let steps = table();
    let mut scales = [0u32; 21];
    let mut ups = [0u32; 21];
    let mut downs = [0u32; 21];
    tilts(f, thresholds, &mut scales, &mut ups, &mut downs);
    let t = BandTilts {
        f,
        scales: &scales,
        ups: &ups,
        downs: &downs,
    };
    let found = vector_of(&t, offsets, caps, shared, &steps, thresholds);
    let v = found.v;
    neighbours(&t, offsets, caps, &steps, v, lows, gaps);
    found
}

// Writes the thresholds and each band's bits, and gives what is left of the budget, `shared`.
pub fn settle(
    f: AllocCounts,
    offsets: &[u32; 21],
    caps: &[u32; 21],
    shared: u32,
    thresholds: &mut [u32; 21],
    bits: &mut [u32; 21],
) -> Settled
    requires { AllocCountsOk f × AllocListsOk offsets.now caps.now × (shared ≡ budget (alloc_in f offsets.now caps.now))
        × (length thresholds.old ≡ 21) }
    ensures { let a = alloc_in f offsets.now caps.now in
        (result.left ≡ (first_round a (bits_of a)).left) × (result.trials ≡ (vector a).1)
        × (thresholds.new ≡ fill (threshold a) f.start (f.end - f.start) thresholds.old)
        × (bits.new ≡ fill (bits_of a) f.start (f.end - f.start) bits.old) }
{
    let mut lows = [0u32; 21];
    let mut gaps = [0u32; 21];
    let found = choose(f, offsets, caps, shared, thresholds, &mut lows, &mut gaps);
    let v = found.v;
    let q = sixtyfourths_of(f, offsets, caps, shared, v, thresholds, &lows, &gaps);
    let p = Point {
        f,
        lows: &lows,
        gaps: &gaps,
        q,
    };
    let sum = last_pass(&p, caps, thresholds, bits);
    Settled {
        left: shared - sum,
        trials: found.trials,
    }
}
