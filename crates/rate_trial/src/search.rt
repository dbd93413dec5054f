// Both searches, by halving: a figure that the budget, `shared`, pays for, and whose next it does not, or which is the last that is tried. It is
// the highest that the budget pays for where no cap is below the floor (rate_spec, Highest).
ghost use Rattle.std.specs.Prelude.{◌≡◌, ℕ, Bool, ◌≤◌, ◌<◌, ◌^◌, length};
ghost use Rattle.laws.specs.Lists.{AllLe};
ghost use Rattle.modes.specs.Vectors.{vectors};
ghost use Rattle.rate_spec.specs.Reserves.{budget};
ghost use Rattle.rate_spec.specs.Trials.{halve, over, vector, sixtyfourths};
ghost use Rattle.rate_spec.specs.Vectors.{lower_bits};
ghost use Rattle.rate_bands.specs.Inputs.{bare, alloc_in, AllocCountsOk, AllocListsOk};
ghost use Rattle.rate_bands.specs.Tilts.{Neighbours, Thresholds};
ghost use Rattle.rate_trial.specs.Calls.{Left};
ghost use Rattle.rate_trial.specs.Points.{PointOk};

use crate::Choice;
use crate::trial::{Point, over_of};
use rate_bands::AllocCounts;
use rate_bands::lists::{BandTilts, lows_of};

// Halves 0..top-1, with 0 taken to be within and `top` to be over, until neighbours are left: the lower one, and how many figures were tried.
fn halve<F: FnMut(usize) -> bool>(top: usize, mut over: F) -> Choice
    requires bounds { (0 < top) × (top ≤ 64) }
    requires tries { (f : F) (x : ℕ) → Left F.step top over f → x < top → F.pre f x }
    ensures halved { (said : ℕ → Bool) (n : ℕ) → top ≤ 2 ^ n
        → ((f g : F) (x : ℕ) (r : Bool) → Left F.step top over f → x < top → F.step f x r g → r ≡ said x)
        → (result.v, result.trials) ≡ halve said n 0 top }
    ensures within { result.v < top }
{
    let mut lo = 0;
    let mut hi = top;
    let mut trials: u32 = 0;
    while lo + 1 < hi {
        let mid = (lo + hi) / 2;
        trials += 1;
        if over(mid) {
            hi = mid;
        } else {
            lo = mid;
        }
    }
    Choice { v: lo, trials }
}

// Whether the bands take more than the budget at vector v.
fn vector_over(
    t: &BandTilts,
    offsets: &[u32; 21],
    caps: &[u32; 21],
    shared: u32,
    steps: &[u8],
    thresholds: &[u32; 21],
    v: usize,
    lows: &mut [u32; 21],
) -> bool
    requires { AllocListsOk offsets.now caps.now × (shared ≡ budget (bare t.now.f)) × (steps.now ≡ vectors)
        × Thresholds (bare t.now.f) thresholds.now × (v < 11) × (length lows.old ≡ 21) }
    ensures { let a = alloc_in t.now.f offsets.now caps.now in (result ≡ over a (lower_bits a v)) × (length lows.new ≡ 21) }
{
    lows_of(t, offsets, caps, steps, v, lows);
    let p = Point {
        f: t.f,
        lows,
        gaps: lows,
        q: 0,
    };
    over_of(&p, caps, shared, thresholds)
}

// The vector that halving finds, of 0..10, with the number of trials.
pub fn vector_of(
    t: &BandTilts,
    offsets: &[u32; 21],
    caps: &[u32; 21],
    shared: u32,
    steps: &[u8],
    thresholds: &[u32; 21],
) -> Choice
    requires { AllocListsOk offsets.now caps.now × (shared ≡ budget (bare t.now.f)) × (steps.now ≡ vectors)
        × Thresholds (bare t.now.f) thresholds.now }
    ensures { let a = alloc_in t.now.f offsets.now caps.now in
        (result.v ≡ (vector a).0) × (result.trials ≡ (vector a).1) × (result.v < 11) }
{
    // each trial overwrites one list: a list of its own would be copied or cleared for each
    let mut lows = [0u32; 21];
    let trial = |v|
        requires { AllocListsOk offsets.now caps.now × (shared ≡ budget (bare t.now.f)) × (steps.now ≡ vectors)
            × Thresholds (bare t.now.f) thresholds.now × (v < 11) × (length lows ≡ 21) }
    { vector_over(t, offsets, caps, shared, steps, thresholds, v, &mut lows) };
    halve(11, trial)
}

// How many 64ths, of 0..63, of the way from vector v, whose bits are `lows`, to the next halving finds.
pub fn sixtyfourths_of(
    f: AllocCounts,
    offsets: &[u32; 21],
    caps: &[u32; 21],
    shared: u32,
    v: usize,
    thresholds: &[u32; 21],
    lows: &[u32; 21],
    gaps: &[u32; 21],
) -> u32
    requires { AllocCountsOk f × AllocListsOk offsets.now caps.now × (shared ≡ budget (bare f)) × Thresholds (bare f) thresholds.now
        × Neighbours (alloc_in f offsets.now caps.now) v lows.now gaps.now }
    ensures { (result ≡ sixtyfourths (alloc_in f offsets.now caps.now) v) × (result ≤ 64) }
{
    let trial = |q|
        requires { AllocCountsOk f × PointOk f lows.now gaps.now q × AllLe 32767 caps.now × (shared ≡ budget (bare f))
            × Thresholds (bare f) thresholds.now }
    {
        let p = Point {
            f,
            lows,
            gaps,
            q: q as u32,
        };
        over_of(&p, caps, shared, thresholds)
    };
    halve(64, trial).v as u32
}
