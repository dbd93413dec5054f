// The last pass over the bands: what each keeps.
ghost use Rattle.std.specs.Prelude.{◌≡◌, cond, [], ◌-◌, ◌≤◌, min};
ghost use Rattle.laws.specs.Lists.{fill, AllLe};
ghost use Rattle.laws.specs.Places.{sum_of};
ghost use Rattle.rate_spec.specs.Trials.{floored, kept_bits};
ghost use Rattle.rate_bands.specs.Inputs.{bare, alloc_in, AllocCountsOk};
ghost use Rattle.rate_bands.specs.Tilts.{Thresholds};
ghost use Rattle.rate_trial.specs.Points.{point_bits};

use crate::trial::Point;
use rate_bands::AllocCounts;
use rate_bands::band::floored_of;

// What a band of x bits keeps: as in a trial, but no more than its cap in any case.
pub fn keep_of(f: AllocCounts, reached: bool, x: u32, cap: u32) -> u32
    requires { AllocCountsOk f × (cap ≤ 32767) }
    ensures { (result ≡ min (cond reached x (floored (bare f) x)) cap) × (result ≤ 32767) }
{
    if reached {
        return x.min(cap);
    }
    let y = floored_of(f, x);
    y.min(cap)
}

// Writes what each band keeps of its bits at a point, and gives the sum.
pub fn last_pass(p: &Point, caps: &[u32; 21], thresholds: &[u32; 21], bits: &mut [u32; 21]) -> u32
    requires { AllLe 32767 caps.now × Thresholds (bare p.now.f) thresholds.now }
    ensures { let kept = kept_bits (alloc_in p.now.f [] caps.now) (point_bits p.now.lows.now p.now.gaps.now p.now.q) in
        (result ≡ sum_of kept p.now.f.start (p.now.f.end - p.now.f.start)) × (bits.new ≡ fill kept p.now.f.start (p.now.f.end - p.now.f.start) bits.old) }
{
    let mut sum: u32 = 0;
    let mut reached = false;
    for j in (p.f.start..p.f.end).rev() {
        let x = p.bits(j);
        reached = (thresholds[j] <= x) | reached;
        let kept = keep_of(p.f, reached, x, caps[j]);
        bits[j] = kept;
        sum += kept;
    }
    sum
}
