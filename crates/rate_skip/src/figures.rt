// The figures of a round of skipping, and what is left after it and the stereo symbols.
ghost use Rattle.std.specs.Prelude.{◌≡◌, cond, [], ◌+◌, ◌-◌, ◌*◌, ◌/◌, ◌%◌, ◌≤◌, ◌<◌, max, leb, eqb, get_or};
ghost use Rattle.modes.specs.Edges.{edge, width};
ghost use Rattle.modes.specs.Fractions.{fraction};
ghost use Rattle.rate_spec.specs.Reserves.{alloc_floor};
ghost use Rattle.rate_spec.specs.Vectors.{threshold};
ghost use Rattle.rate_bands.specs.Inputs.{bare, AllocCountsOk};
ghost use Rattle.rate_bands.specs.Reserved.{Reserved};
ghost use Rattle.rate_skip.specs.Rounds.{left_at, round_of, round_figures, RoundIn};

use crate::RoundFigures;
use modes::fractions::fraction_of;
use rate_bands::band::{floor_of, floored_of, threshold_of};
use rate_bands::{AllocCounts, Reserves};

// The b bits of the band from edge lo to edge hi, with its part if what is left were spread evenly from the edge first on.
fn top_of(b: u32, left: u32, first: u32, lo: u32, hi: u32) -> u32
    requires { (first ≤ lo) × (lo < hi) × (b + left ≤ 81600) }
    ensures { (result ≡ b + left / (hi - first) * (hi - lo) + (left % (hi - first) - (lo - first))) × (result ≤ b + left) }
{
    let w = hi - first;
    let m = left / w * (hi - lo);
    b + m + (left % w).saturating_sub(lo - first)
}

// What the flag of a round costs: a bit where the top band, of width w, could be coded after a flag was paid.
fn paid_of(f: AllocCounts, j: usize, w: u32, top: u32) -> u32
    requires { AllocCountsOk f × (w ≡ width j) }
    ensures { (result ≡ cond (leb (max (threshold (bare f) j) (alloc_floor (bare f) + 8)) top) 8 0) × (result ≤ top) × (result ≤ 8) }
{
    let floor = floor_of(f);
    let t = threshold_of(f, j, w);
    let m = t.max(floor + 8);
    if m <= top { 8 } else { 0 }
}

// What is reserved for intensity with n bands left.
fn reserve_of(reserve: u32, n: usize) -> u32
    requires { n < 24 }
    ensures { result ≡ cond (eqb reserve 0) 0 (fraction n) }
{
    if reserve == 0 { 0 } else { fraction_of(n) }
}

// A round's figures, where the top band of `coded` goes from edge lo to edge hi.
pub fn round_of(
    f: AllocCounts,
    bits: &[u32; 21],
    first: u32,
    lo: u32,
    hi: u32,
    coded: usize,
    left: u32,
    reserve: u32,
) -> RoundFigures
    requires { RoundIn f bits.now coded left reserve × (first ≡ edge f.start) × (lo ≡ edge (coded - 1)) × (hi ≡ edge coded) }
    ensures { result ≡ round_figures (bare f) (λ j. get_or bits.now j 0) (round_of coded left reserve []) }
{
    let j = coded - 1;
    let b = bits[j];
    let top = top_of(b, left, first, lo, hi);
    let paid = paid_of(f, j, hi - lo, top);
    let keep = floored_of(f, top - paid);
    let next = reserve_of(reserve, j - f.start);
    RoundFigures {
        top,
        asked: 0 < paid,
        keep,
        left: left + b + reserve.saturating_sub(next) - paid - keep,
        reserve: next,
    }
}

// A reservation whose symbol was coded is spent; any other comes back.
fn back_of(coded: bool, reserve: u32) -> u32
    ensures { (result ≡ cond coded 0 reserve) × (result ≤ reserve) }
{
    if coded { 0 } else { reserve }
}

// What is left after skipping and the stereo symbols: a reservation whose symbol was not coded comes back.
pub fn left_of(f: AllocCounts, k: Reserves, left: u32, stopped: bool, intensity: usize) -> u32
    requires { AllocCountsOk f × Reserved (bare f) k × (left ≤ 81600) }
    ensures { result ≡ left_at (bare f) left stopped intensity }
{
    let asked = (f.start < intensity) & (0 < k.dual);
    left + back_of(stopped, k.skip) + back_of(asked, k.dual)
}
