// One coded band, with its share of what is left.
ghost use Rattle.std.specs.Prelude.{◌≡◌, ◌+◌, ◌-◌, ◌*◌, ◌^◌, ◌≤◌, ◌<◌};
ghost use Rattle.modes.specs.Edges.{edge};
ghost use Rattle.modes.specs.LogWidths.{log_width};
ghost use Rattle.rate_spec.specs.Split.{split_of};
ghost use Rattle.rate_bands.specs.Inputs.{AllocCountsOk};
ghost use Rattle.rate_split.specs.Splits.{as_band, share_of, with_share, degrees_of};

use crate::split::split_of;
use crate::{BandSplit, Share};
use laws::{min32, pow2, saturating_sub};
use modes::edges::edge_of;
use modes::log_widths::log_width_of;
use rate_bands::AllocCounts;

// The shares of what is left over the bands start..coded-1.
pub fn share_of(start: usize, coded: usize, left: u32) -> Share
    requires { (start < coded) × (coded ≤ 21) }
    ensures { result ≡ share_of start coded left }
{
    let first = edge_of(start);
    let w = edge_of(coded) - first;
    Share {
        each: left / w,
        rest: left % w,
        first: first,
    }
}

// The b bits of the band from edge lo to edge hi, with its share.
fn spread_of(g: Share, b: u32, lo: u32, hi: u32) -> u32
    requires { (g.first ≤ lo) × (lo ≤ hi) × (with_share g b lo hi ≤ 81600) }
    ensures { result ≡ with_share g b lo hi }
{
    let w = hi - lo;
    let m = g.each * w;
    b + m + min32(saturating_sub(g.rest, lo - g.first), w)
}

// The degrees of freedom of band j, which has n coefficients.
fn degrees_of(f: AllocCounts, n: u32, j: usize, intensity: usize, dual: bool) -> u32
    requires { (1 ≤ f.c) × (f.c ≤ 2) × (1 ≤ n) × (n ≤ 176) }
    ensures { (result ≡ degrees_of f.c n intensity dual j) × (1 ≤ result) × (result ≤ 353) }
{
    let m = f.c * n;
    if (f.c == 2) & (2 < n) & !dual & (j < intensity) {
        m + 1
    } else {
        m
    }
}

// Band j, from edge lo to edge hi, with b bits and its share, and `balance` from the band below.
pub fn part_of(
    f: AllocCounts,
    g: Share,
    cap: u32,
    b: u32,
    lo: u32,
    hi: u32,
    j: usize,
    intensity: usize,
    dual: bool,
    balance: u32,
) -> BandSplit
    requires { AllocCountsOk f × (j < 21) × (lo ≡ edge j) × (hi ≡ edge (j + 1)) × (g.first ≤ lo) × (with_share g b lo hi + balance ≤ 81600) }
    ensures { (as_band result
        ≡ split_of f.c ((hi - lo) * 2 ^ f.lm) (degrees_of f.c ((hi - lo) * 2 ^ f.lm) intensity dual j) (log_width j + 8 * f.lm) cap
        (with_share g b lo hi + balance) balance)
        × (result.prio ≤ 1) }
{
    let n = (hi - lo) * pow2(f.lm);
    let den = degrees_of(f, n, j, intensity, dual);
    let lg = log_width_of(j) + 8 * f.lm;
    let x = spread_of(g, b, lo, hi) + balance;
    split_of(f.c, n, den, lg, cap, x, balance)
}
