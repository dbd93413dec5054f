// How many pulse vectors there are: RFC 6716, section 4.3.4.2.
// N and K stay numbers with their bounds in each contract: a type for them would be opened at each comparison.
#![tactic(auto)]

ghost use Rattle.std.specs.Prelude.{◌≡◌, ◌<◌, ◌≤◌, ◌^◌, ltb};
ghost use Rattle.cwrs_counts.specs.Count.{U, count32};

mod stored;

// U(n, k), where 32 bits hold it.
pub fn pvq_u(n: usize, k: usize) -> u32
    requires { (n ≤ 176) × (k ≤ 176) × (U n k < 2 ^ 32) }
    ensures { result ≡ U n k }
{
    if n <= k {
        stored::entry(n, k)
    } else {
        stored::entry(k, n)
    }
}

// Do 32 bits hold U(n, k)?
fn fits(n: usize, k: usize) -> bool
    requires { (n ≤ 176) × (k ≤ 176) }
    ensures { result ≡ ltb (U n k) 4294967296 }
{
    if n <= k {
        stored::held(n, k)
    } else {
        stored::held(k, n)
    }
}

// V(n, k), the number of vectors of n places and k pulses, or 0 where it is 2^32 or more: no Option, since `count32`, on which
// the theorems stand, says 0.
pub fn pvq_v(n: usize, k: usize) -> u32
    requires { (1 ≤ n) × (n ≤ 176) × (k ≤ 175) }
    ensures { result ≡ count32 n k }
{
    if fits(n, k + 1) {
        let a = pvq_u(n, k);
        let b = pvq_u(n, k + 1);
        if a <= 0xffff_ffff - b { a + b } else { 0 }
    } else {
        0
    }
}
