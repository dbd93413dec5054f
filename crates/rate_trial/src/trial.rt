// One trial: what the bands take together at a point between two allocation vectors, where band j has the bits `lows[j]` and q 64ths of `gaps[j]`.
// At vector v itself q is 0. The bands above the highest one that has its threshold take a floor or nothing, it and all below it their bits up to
// their caps: two plain loops, which look at each band once (the highest one twice).
// Thresholds and caps are lent beside a point: they are the frame's, and points are many. Arrays side by side: each is `fill` of a definition.
ghost use Rattle.std.specs.Prelude.{◌≡◌, [], ◌-◌, ◌≤◌, ◌<◌};
ghost use Rattle.laws.specs.Lists.{AllLe};
ghost use Rattle.laws.specs.Places.{sum_of};
ghost use Rattle.rate_spec.specs.Reserves.{budget};
ghost use Rattle.rate_spec.specs.Trials.{over};
ghost use Rattle.rate_bands.specs.Inputs.{bare, alloc_in, AllocCountsOk};
ghost use Rattle.rate_bands.specs.Tilts.{Thresholds};
ghost use Rattle.rate_trial.specs.Points.{point_bits, capped, PointOk, TopOf};

use crate::Top;
use rate_bands::AllocCounts;
use rate_bands::band::floored_of;

// A point between two allocation vectors, of a frame's bands: the figures of the bands start..end-1 are no larger than those of the domain.
#[derive(Clone, Copy)]
pub struct Point<'a> {
    pub f: AllocCounts,
    pub lows: &'a [u32; 21],
    pub gaps: &'a [u32; 21],
    pub q: u32,
    pub ghost frame: { AllocCountsOk f },
    pub ghost figures: { PointOk f lows.now gaps.now q },
}

impl Point<'_> {
    // Band j's bits.
    pub fn bits(&self, j: usize) -> u32
        requires { (self.now.f.start ≤ j) × (j < self.now.f.end) }
        ensures { result ≡ point_bits self.now.lows.now self.now.gaps.now self.now.q j }
    {
        self.lows[j] + self.q * self.gaps[j] / 64
    }
}

// The bands above the highest one that has its threshold.
pub fn top_of(p: &Point, thresholds: &[u32; 21]) -> Top
    requires { Thresholds (bare p.now.f) thresholds.now }
    ensures { TopOf (bare p.now.f) (point_bits p.now.lows.now p.now.gaps.now p.now.q) result.below result.sum }
{
    let mut sum: u32 = 0;
    for j in (p.f.start..p.f.end).rev() {
        let x = p.bits(j);
        if thresholds[j] <= x {
            return Top { below: j + 1, sum };
        }
        sum += floored_of(p.f, x);
    }
    Top {
        below: p.f.start,
        sum,
    }
}

// The bands below, up to their caps.
pub fn rest_of(p: &Point, caps: &[u32; 21], below: usize) -> u32
    requires { AllLe 32767 caps.now × (p.now.f.start ≤ below) × (below ≤ p.now.f.end) }
    ensures { (result ≡ sum_of (capped caps.now (point_bits p.now.lows.now p.now.gaps.now p.now.q)) p.now.f.start (below - p.now.f.start)) × (result ≤ 688107) }
{
    let mut sum: u32 = 0;
    for j in p.f.start..below {
        let x = p.bits(j);
        sum += x.min(caps[j]);
    }
    sum
}

// Whether the bands take more than the budget, `shared`.
pub fn over_of(p: &Point, caps: &[u32; 21], shared: u32, thresholds: &[u32; 21]) -> bool
    requires { AllLe 32767 caps.now × (shared ≡ budget (bare p.now.f)) × Thresholds (bare p.now.f) thresholds.now }
    ensures { result ≡ over (alloc_in p.now.f [] caps.now) (point_bits p.now.lows.now p.now.gaps.now p.now.q) }
{
    let top = top_of(p, thresholds);
    let rest = rest_of(p, caps, top.below);
    let sum = top.sum + rest;
    shared < sum
}
