// The bands' figures as lists, each written over start..end-1 in one loop.
// The vectors' steps are taken once and lent. Arrays side by side, of an entry for each band: each is `fill` of a definition of its own.
ghost use Rattle.std.specs.Prelude.{◌≡◌, ◌-◌, ◌<◌, length};
ghost use Rattle.laws.specs.Lists.{fill};
ghost use Rattle.modes.specs.Vectors.{vectors};
ghost use Rattle.rate_spec.specs.Vectors.{threshold, trim_up, trim_down, lower_bits};
ghost use Rattle.rate_spec.specs.Skips.{skip_start};
ghost use Rattle.rate_bands.specs.Inputs.{bare, alloc_in, AllocCountsOk, AllocListsOk};
ghost use Rattle.rate_bands.specs.Tilts.{scale, Holds, Neighbours, Tilts};

use crate::{AllocCounts, band};
use modes::edges::width_of;

// Each band's scale and both parts of its trim, of a frame's bands. The arrays are lent, as those of `Point` of rate_trial are.
#[derive(Clone, Copy)]
pub struct BandTilts<'a> {
    pub f: AllocCounts,
    pub scales: &'a [u32; 21],
    pub ups: &'a [u32; 21],
    pub downs: &'a [u32; 21],
    pub ghost frame: { AllocCountsOk f },
    pub ghost figures: { Tilts (bare f) scales.now ups.now downs.now },
}

// Thresholds, scales and both parts of the trim.
pub fn tilts(
    f: AllocCounts,
    thresholds: &mut [u32; 21],
    scales: &mut [u32; 21],
    ups: &mut [u32; 21],
    downs: &mut [u32; 21],
)
    requires { AllocCountsOk f }
    ensures { (thresholds.new ≡ fill (threshold (bare f)) f.start (f.end - f.start) thresholds.old)
        × (scales.new ≡ fill (scale (bare f)) f.start (f.end - f.start) scales.old)
        × (ups.new ≡ fill (trim_up (bare f)) f.start (f.end - f.start) ups.old)
        × (downs.new ≡ fill (trim_down (bare f)) f.start (f.end - f.start) downs.old) }
{
    for j in f.start..f.end {
        let w = width_of(j);
        let s = band::slope_of(f, j, w);
        thresholds[j] = band::threshold_of(f, j, w);
        scales[j] = band::scale_of(f, j, w);
        ups[j] = band::up_of(f, j, s);
        downs[j] = band::down_of(f, j, w, s);
    }
}

// Vector v's bits as the lower one of two.
pub fn lows_of(
    t: &BandTilts,
    offsets: &[u32; 21],
    caps: &[u32; 21],
    steps: &[u8],
    v: usize,
    lows: &mut [u32; 21],
)
    requires { AllocListsOk offsets.now caps.now × (steps.now ≡ vectors) × (v < 11) × (length lows.old ≡ 21) }
    ensures { let a = alloc_in t.now.f offsets.now caps.now in
        Holds a (lower_bits a v) lows.new × (length lows.new ≡ 21) }
{
    let f = t.f;
    for j in f.start..f.end {
        let scale = t.scales[j];
        let up = t.ups[j];
        let down = t.downs[j];
        lows[j] = band::low_of(f, offsets, caps, steps, v, j, scale, up, down);
    }
}

// Vector v's bits as the lower one of two, and how much the next one has above them.
pub fn neighbours(
    t: &BandTilts,
    offsets: &[u32; 21],
    caps: &[u32; 21],
    steps: &[u8],
    v: usize,
    lows: &mut [u32; 21],
    gaps: &mut [u32; 21],
)
    requires { AllocListsOk offsets.now caps.now × (steps.now ≡ vectors) × (v < 11) × (length lows.old ≡ 21) × (length gaps.old ≡ 21) }
    ensures { Neighbours (alloc_in t.now.f offsets.now caps.now) v lows.new gaps.new }
{
    let f = t.f;
    for j in f.start..f.end {
        let scale = t.scales[j];
        let up = t.ups[j];
        let down = t.downs[j];
        let low = band::low_of(f, offsets, caps, steps, v, j, scale, up, down);
        let high = band::high_of(f, offsets, caps, steps, v, j, scale, up, down);
        lows[j] = low;
        gaps[j] = high.saturating_sub(low);
    }
}

// The highest boosted band, else the first: neither it nor one below it is skipped.
pub fn skip_start(f: AllocCounts, offsets: &[u32; 21], caps: &[u32; 21]) -> usize
    requires { AllocCountsOk f }
    ensures { result ≡ skip_start (alloc_in f offsets.now caps.now) }
{
    for j in (f.start..f.end).rev() {
        if 0 < offsets[j] {
            return j;
        }
    }
    f.start
}
