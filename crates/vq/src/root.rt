// The f32 nearest to the square root of a whole number, by comparing integer squares.
ghost use Rattle.std.specs.Prelude.{◌≡◌, ◌≤◌, ◌<◌, ◌^◌};
ghost use Rattle.vq.specs.Root.{Scaling, Floor, Near, root_of};

// A number times a power of 4, and which power.
#[derive(Clone, Copy)]
pub struct Scaled {
    pub v: u64,
    pub j: u32,
}

// n times the power of 4 that gives it 47 or 48 binary digits.
fn scale(n: u32) -> Scaled
    requires { 0 < n }
    ensures { Scaling n result.v result.j }
{
    let j = (48 - entcode::ilog(n)) / 2;
    Scaled {
        v: (n as u64) << (2 * j),
        j,
    }
}

// The whole part of the square root of v: from above, each step takes the mean of s and v / s.
fn floor_root(v: u64) -> u64
    requires { (2 ^ 46 ≤ v) × (v < 2 ^ 48) }
    ensures { Floor v result }
{
    let mut s: u64 = 16777216;
    while v < s * s {
        s = (s + v / s) / 2;
    }
    s
}

// The whole number nearest to the square root of v.
fn near_root(v: u64) -> u64
    requires { (2 ^ 46 ≤ v) × (v < 2 ^ 48) }
    ensures { Near v result }
{
    let s = floor_root(v);
    if v <= s * s + s { s } else { s + 1 }
}

// The f32 nearest to the square root of n.
pub fn sqrt(n: u32) -> f32
    requires { 0 < n }
    ensures { result ≡ root_of n }
{
    let s = scale(n);
    let m = near_root(s.v);
    let d = 1u64 << s.j;
    (m as f32) / (d as f32)
}
