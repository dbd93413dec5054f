// The small functions that many crates call: differences and powers, bytes as numbers, the i32 edge, and tests of whole lists.
#![tactic(auto)]

ghost use Rattle.std.specs.Prelude.{◌≡◌, cond, ◌+◌, ◌-◌, ◌^◌, ◌≤◌, ◌<◌, min, get_or, nat_abs};
ghost use Rattle.std.specs.Float.Ieee.Scale.{finite};
ghost use Rattle.laws.specs.Lists.{every};
ghost use Rattle.laws.specs.Signs.{clip, in_range, with_sign};

// The next two are `saturating_sub` and `min` of std, each written as an `if`, for rate_split; docs/DESIGN-PASS.md, "Speed", has the times. Elsewhere std's are
// called.

// a - b, and 0 where b is the larger.
pub fn saturating_sub(a: u32, b: u32) -> u32
    ensures { result ≡ a - b }
{
    if b < a { a - b } else { 0 }
}

// The smaller of two.
pub fn min32(a: u32, b: u32) -> u32
    ensures { result ≡ min a b }
{
    if a < b { a } else { b }
}

// 2^k, for a k that leaves it in 32 bits: one shift, where the library's `pow` multiplies in a loop.
pub fn pow2(k: u32) -> u32
    requires { k < 32 }
    ensures { result ≡ 2 ^ k }
{
    1 << k
}

// A byte as a number. The bound is beside it, as `u32::from` does not say it: callers rely on it where the byte is an element of a list.
pub fn wide(b: u8) -> u32
    ensures { (result ≡ b) × (result < 256) }
{
    b as u32
}

// The byte at a place, and 0 past the end, as RFC 6716 reads there.
pub fn byte_at(s: &[u8], at: usize) -> u32
    ensures { (result ≡ get_or s.now at 0) × (result < 256) }
{
    if at < s.len() { wide(s[at]) } else { 0 }
}

// Whether v is lo..hi. Both ends are compared, with no early return as in a range's `contains`, so that `list_ok` tests several at once.
pub fn in_range(v: i32, lo: i32, hi: i32) -> bool
    ensures { result ≡ in_range lo hi v }
{
    (lo <= v) & (v <= hi)
}

// v as a count: a negative number reads as 0.
pub fn clipped(v: i32) -> u32
    ensures { (result ≡ clip v) × (result < 2147483648) }
{
    v.max(0) as u32
}

// How far v is from 0, by its bound too, which std's does not state.
pub fn unsigned_abs(v: i32) -> u32
    ensures { (result ≡ nat_abs v) × (result ≤ 2147483648) }
{
    v.unsigned_abs()
}

// The number of a sign and a size.
pub fn value_of(neg: bool, n: u32) -> i32
    requires { n < 2147483648 + cond neg 1 0 }
    ensures { result ≡ with_sign neg n }
{
    if neg {
        n.cast_signed().wrapping_neg()
    } else {
        n as i32
    }
}

// Whether every entry is lo..hi. All are looked at, so that several can be tested in one step.
pub fn list_ok(l: &[i32], lo: i32, hi: i32) -> bool
    ensures { result ≡ every (in_range lo hi) l.now }
{
    let mut ok = true;
    for &v in l {
        ok = ok & in_range(v, lo, hi);
    }
    ok
}

// Whether every entry is finite, tested in the same way.
pub fn all_finite(l: &[f32]) -> bool
    ensures { result ≡ every finite l.now }
{
    let mut ok = true;
    for x in l {
        ok = ok & x.is_finite();
    }
    ok
}
