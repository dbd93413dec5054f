// One band's figures. Band j has w coefficients at LM 0; a caller reads the width once and hands it on.
ghost use Rattle.std.specs.Prelude.{◌≡◌, ◌+◌, ◌≤◌, ◌<◌};
ghost use Rattle.modes.specs.Edges.{width};
ghost use Rattle.modes.specs.Vectors.{vectors};
ghost use Rattle.rate_spec.specs.Reserves.{alloc_floor};
ghost use Rattle.rate_spec.specs.Trials.{floored};
ghost use Rattle.rate_spec.specs.Vectors.{threshold, slope, trim_up, trim_down, trimmed, lower_bits, upper_bits};
ghost use Rattle.rate_bands.specs.Inputs.{bare, alloc_in, AllocCountsOk, AllocListsOk};
ghost use Rattle.rate_bands.specs.Tilts.{scale, Tilt};

use crate::AllocCounts;
use laws::pow2;
use modes::vectors::step_in;

// A bit for each channel.
pub fn floor_of(f: AllocCounts) -> u32
    requires { AllocCountsOk f }
    ensures { (result ≡ alloc_floor (bare f)) × (result ≤ 16) }
{
    8 * f.c
}

// A floor of x bits that have one, else nothing.
pub fn floored_of(f: AllocCounts, x: u32) -> u32
    requires { AllocCountsOk f }
    ensures { (result ≡ floored (bare f) x) × (result ≤ x) × (result ≤ 16) }
{
    let floor = floor_of(f);
    if floor <= x { floor } else { 0 }
}

// Below it band j is not worth coding.
pub fn threshold_of(f: AllocCounts, j: usize, w: u32) -> u32
    requires { AllocCountsOk f × (w ≡ width j) }
    ensures { result ≡ threshold (bare f) j }
{
    let floor = floor_of(f);
    let p = pow2(f.lm);
    floor.max(3 * w * p * 8 / 16)
}

// What a step of an allocation vector is multiplied by, and divided by 4, to give bits.
pub fn scale_of(f: AllocCounts, j: usize, w: u32) -> u32
    requires { AllocCountsOk f × (w ≡ width j) }
    ensures { result ≡ scale (bare f) j }
{
    let p = pow2(f.lm);
    f.c * w * p
}

// What a step of the trim tilts band j by, in 64ths.
pub fn slope_of(f: AllocCounts, j: usize, w: u32) -> u32
    requires { AllocCountsOk f × (j < f.end) × (w ≡ width j) }
    ensures { result ≡ slope (bare f) j }
{
    let p = pow2(f.lm + 3);
    let above = (f.end - 1 - j) as u32;
    f.c * w * above * p
}

// The trim's part upwards, of a band with slope s.
pub fn up_of(f: AllocCounts, j: usize, s: u32) -> u32
    requires { AllocCountsOk f × (s ≡ slope (bare f) j) }
    ensures { result ≡ trim_up (bare f) j }
{
    let d = f.trim.saturating_sub(5 + f.lm);
    s * d / 64
}

// The part downwards, and the floor of a single coefficient.
pub fn down_of(f: AllocCounts, j: usize, w: u32, s: u32) -> u32
    requires { AllocCountsOk f × (w ≡ width j) × (s ≡ slope (bare f) j) }
    ensures { result ≡ trim_down (bare f) j }
{
    let d = (5 + f.lm).saturating_sub(f.trim);
    let m = (s * d + 63) / 64;
    let p = pow2(f.lm);
    if w * p == 1 { m + floor_of(f) } else { m }
}

// x bits of band j after the trim.
pub fn trimmed_of(f: AllocCounts, j: usize, x: u32, up: u32, down: u32) -> u32
    requires { AllocCountsOk f × (x ≤ 32767) × (up ≡ trim_up (bare f) j) × (down ≡ trim_down (bare f) j) }
    ensures { result ≡ trimmed (bare f) x j }
{
    if x == 0 {
        return 0;
    }
    (x + up).saturating_sub(down)
}

// Vector v's bits for band j as the lower one of two.
pub fn low_of(
    f: AllocCounts,
    offsets: &[u32; 21],
    caps: &[u32; 21],
    steps: &[u8],
    v: usize,
    j: usize,
    scale: u32,
    up: u32,
    down: u32,
) -> u32
    requires { AllocCountsOk f × AllocListsOk offsets.now caps.now × (steps.now ≡ vectors) × (v < 11) × (j < f.end) × Tilt (bare f) j scale up down }
    ensures { result ≡ lower_bits (alloc_in f offsets.now caps.now) v j }
{
    let s = step_in(steps, v, j);
    let x = trimmed_of(f, j, scale * s / 4, up, down);
    if v == 0 {
        return x;
    }
    x + offsets[j]
}

// The bits for band j of the vector after v, as the upper one of two.
pub fn high_of(
    f: AllocCounts,
    offsets: &[u32; 21],
    caps: &[u32; 21],
    steps: &[u8],
    v: usize,
    j: usize,
    scale: u32,
    up: u32,
    down: u32,
) -> u32
    requires { AllocCountsOk f × AllocListsOk offsets.now caps.now × (steps.now ≡ vectors) × (v < 11) × (j < f.end) × Tilt (bare f) j scale up down }
    ensures { result ≡ upper_bits (alloc_in f offsets.now caps.now) (v + 1) j }
{
    if v == 10 {
        return trimmed_of(f, j, caps[j], up, down) + offsets[j];
    }
    let s = step_in(steps, v + 1, j);
    trimmed_of(f, j, scale * s / 4, up, down) + offsets[j]
}
