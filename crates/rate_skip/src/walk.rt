// Skipping and the two stereo questions, whoever answers.
// The figures of a round stay numbers with their bounds in each contract: each function takes others of them.
ghost use Rattle.std.specs.Prelude.{◌≡◌, ℕ, [], suc, ◌-◌, ◌≤◌, ◌<◌, length, get_or};
ghost use Rattle.modes.specs.Edges.{width};
ghost use Rattle.rate_spec.specs.Alloc.{ask_dual, ask_intensity};
ghost use Rattle.rate_spec.specs.Reserves.{dual_reserve};
ghost use Rattle.rate_spec.specs.Skips.{skip};
ghost use Rattle.rate_bands.specs.Inputs.{bare, AllocCountsOk};
ghost use Rattle.rate_skip.specs.Asks.{when_asked};
ghost use Rattle.rate_skip.specs.Rounds.{skip_ending, kept_of, round_of, SkipIn};

use crate::Skipped;
use crate::figures::round_of;
use crate::side::Side;
use modes::edges::edge_of;
use rate_bands::AllocCounts;

// The flag of a round with `coded` bands, of which the top one has the width n and `top` bits, where it is asked.
fn flag<S: Side>(f: AllocCounts, asked: bool, coded: usize, n: u32, top: u32, side: &mut S) -> bool
    requires { AllocCountsOk f × (1 ≤ coded) × (coded ≤ 21) × (n ≡ width (coded - 1)) × S.ready 1 side.old }
    ensures answered { (result, S.state side.new)
        ≡ when_asked asked ((S.ask side.old f).skip coded top (S.state side.old)) (S.state side.old) }
    ensures ready { (k : ℕ) → S.ready (suc k) side.old → S.ready k side.new }
    ensures same { S.alike side.old side.new }
{
    asked && side.stops(f, coded, n, top)
}

// Rounds from the top down to band low, until a flag says stop. Entry j of `kept` becomes what the dropped band j keeps.
pub fn skip<S: Side>(
    f: AllocCounts,
    bits: &[u32; 21],
    low: usize,
    left: u32,
    reserve: u32,
    side: &mut S,
    kept: &mut [u32],
) -> Skipped
    requires { SkipIn f bits.now low left reserve × S.ready 22 side.old × (length kept.old ≡ 21) }
    ensures ended { (round_of result.coded result.left result.reserve (kept_of f.end result.coded kept.new), result.stopped, S.state side.new)
        ≡ skip_ending (skip (bare f) (λ j. get_or bits.now j 0) (S.ask side.old f) (f.end - suc low) (round_of f.end left reserve []) (S.state side.old)) }
    ensures ready { S.ready 2 side.new }
    ensures same { S.alike side.old side.new }
{
    let first = edge_of(f.start);
    let mut hi = edge_of(f.end);
    let mut rest = left;
    let mut held = reserve;
    for j in (low + 1..f.end).rev() {
        let coded = j + 1;
        let lo = edge_of(j);
        let y = round_of(f, bits, first, lo, hi, coded, rest, held);
        if flag(f, y.asked, coded, hi - lo, y.top, side) {
            return Skipped {
                coded,
                left: rest,
                reserve: held,
                stopped: true,
            };
        }
        kept[j] = y.keep;
        rest = y.left;
        held = y.reserve;
        hi = lo;
    }
    Skipped {
        coded: low + 1,
        left: rest,
        reserve: held,
        stopped: false,
    }
}

// The first band whose channels are coded as one, where something is reserved for saying so.
pub fn intensity<S: Side>(f: AllocCounts, coded: usize, reserve: u32, side: &mut S) -> usize
    requires { AllocCountsOk f × (f.start < coded) × (coded ≤ 21) × S.ready 2 side.old }
    ensures answered { (result, S.state side.new)
        ≡ ask_intensity (bare f) (S.ask side.old f) (round_of coded 0 reserve []) (S.state side.old) }
    ensures within { result ≤ coded }
    ensures ready { S.ready 1 side.new }
    ensures same { S.alike side.old side.new }
{
    if reserve == 0 {
        0
    } else {
        f.start + side.intensity(f, coded) as usize
    }
}

// Whether the bands below it have separate channels, where it is asked; `reserve` is what is reserved for it.
pub fn dual<S: Side>(f: AllocCounts, reserve: u32, intensity: usize, side: &mut S) -> bool
    requires { (reserve ≡ dual_reserve (bare f)) × S.ready 1 side.old }
    ensures answered { (result, S.state side.new) ≡ ask_dual (bare f) (S.ask side.old f) intensity (S.state side.old) }
    ensures same { S.alike side.old side.new }
{
    (f.start < intensity) & (0 < reserve) && side.dual()
}
