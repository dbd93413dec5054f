// What reader and writer of the range coder share: RFC 6716, sections 4.1 and 5.1.
#![tactic(auto)]

mod reasons;
pub mod table;

ghost use Rattle.std.specs.Prelude.{◌≡◌, ◌≤◌, ◌<◌};
ghost use Rattle.entcode.specs.Range.{ilog};
ghost use Rattle.entcode.specs.Tell.{tell_of, eighths, tell_frac_of};
ghost use Rattle.entcode.specs.Counts.{counts_ok, tell_ok};

pub use reasons::{Refusal, Verdict, refusal_of};

// A value, and the coder after it.
#[derive(Clone, Copy)]
pub struct Coded<V, C> {
    pub value: V,
    pub next: C,
}

// EC_ILOG: how many binary digits a number has.
pub fn ilog(n: u32) -> u32
    ensures { (result ≡ ilog n) × (result ≤ 32) }
{
    32 - u32::leading_zeros(n)
}

// ec_tell: how many bits are used, RFC 6716, section 4.1.6.1.
pub fn tell_of(total: u32, rng: u32) -> u32
    ensures { (result ≡ tell_of total rng) × (result ≤ total) }
{
    total.saturating_sub(ilog(rng))
}

// Entry k decides for the numbers whose top four digits are those of k + 8: up to it three truncated squarings give k eighths, above it k + 1
// (proofs/Logs.antt, `eighth_upto` and `eighth-above`).
const CORRECTION: [u32; 8] = [35733, 38967, 42495, 46340, 50535, 55109, 60097, 65535];

// The three digits after the point of the logarithm of r / 2^15.
fn eighths_of(r: u32) -> u32
    requires { (32768 ≤ r) × (r < 65536) }
    ensures { (result ≡ eighths r) × (result ≤ 7) }
{
    let b = r / 4096 - 8;
    let i = b as usize;
    if CORRECTION[i] < r { b + 1 } else { b }
}

// ec_tell_frac: how many eighths of a bit are used, RFC 6716, section 4.1.6.2, of a state that is known to be good.
pub fn tell_frac_of(total: u32, rng: u32) -> u32
    requires { (32768 ≤ rng) × (33 ≤ total) × (total ≤ 268435456) }
    ensures { result ≡ tell_frac_of total rng }
{
    let l = ilog(rng);
    let e = eighths_of(rng >> (l - 16));
    8 * total - (8 * l + e)
}

// The part of a state's rule that is the same for reader and writer.
pub fn counts_ok(storage: u32, rng: u32, waiting: u32, total: u32) -> bool
    ensures { result ≡ counts_ok storage rng waiting total }
{
    (storage <= 1275)
        & (8388608 < rng)
        & (rng <= 2147483648)
        & (waiting <= 32)
        & (33 <= total)
        & (total <= 65535)
}

// Is tell at most 8 * storage + 32?
pub fn tell_ok(storage: u32, total: u32, rng: u32) -> bool
    ensures { result ≡ tell_ok storage total rng }
{
    let used = tell_of(total, rng) as u64;
    used <= 8 * (storage as u64) + 32
}
