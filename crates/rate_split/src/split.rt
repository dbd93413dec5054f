// One band's bits between fine energy and pulses. The band has n coefficients, den degrees of freedom over all channels, and lg is the
// logarithm of n in eighths.
// n, den and lg stay numbers with their bounds in each contract: each function takes others of them, and a type would be opened at each sum.
ghost use Rattle.std.specs.Prelude.{◌≡◌, cond, ◌+◌, ◌-◌, ◌*◌, ◌/◌, ◌≤◌, min, leb, ltb, eqb};
ghost use Rattle.rate_spec.specs.Split.{with_offset, extra, spill, fine_of, prio_of, split_of};
ghost use Rattle.rate_split.specs.Splits.{as_band, Sized};

use crate::BandSplit;
use laws::{min32, saturating_sub};

// b bits with the offset, and 21 · den above it, before the correction for few bits.
fn base_of(b: u32, n: u32, den: u32, lg: u32) -> u32
    requires { (b ≤ 81600) × (den ≤ 353) × (lg ≤ 60) }
    ensures { (result ≡ b + den * lg / 2 + cond (eqb n 2) (2 * den) 0) × (result ≤ 92896) }
{
    let h = den * lg / 2;
    if n == 2 { b + h + 2 * den } else { b + h }
}

// The correction for less than 2 or 3 bits for each degree of freedom.
fn raised_of(x: u32, den: u32, lg: u32) -> u32
    requires { (x ≤ 92896) × (den ≤ 353) × (lg ≤ 60) }
    ensures { result ≡ x + cond (ltb x (37 * den)) (den * lg / 4) (cond (ltb x (45 * den)) (den * lg / 8) 0) }
{
    let g = den * lg;
    if x < 37 * den {
        x + g / 4
    } else {
        if x < 45 * den { x + g / 8 } else { x }
    }
}

// b bits with the offset.
fn with_offset(b: u32, n: u32, den: u32, lg: u32) -> u32
    requires { (b ≤ 81600) × (den ≤ 353) × (lg ≤ 60) }
    ensures { result ≡ with_offset n den lg b }
{
    raised_of(base_of(b, n, den, lg), den, lg)
}

// The fine bits that x, bits with the offset, asks for.
fn wanted_of(x: u32, den: u32) -> u32
    requires { (1 ≤ den) × (den ≤ 353) }
    ensures { (result ≡ (x - 17 * den) / den / 8) × (result ≤ 536870911) }
{
    saturating_sub(x, 17 * den) / den / 8
}

// At most what b bits pay for, and at most 8.
fn fine_of(c: u32, b: u32, e: u32) -> u32
    requires { (1 ≤ c) × (c ≤ 2) × (e ≤ 536870911) }
    ensures { (result ≡ min 8 (cond (ltb (b / 8) (c * e)) (b / (8 * c)) e)) × (result ≤ 8) }
{
    if b / 8 < c * e {
        min32(8, b / (8 * c))
    } else {
        min32(8, e)
    }
}

// 1 where e fine bits are x, bits with the offset, rounded up.
fn prio_of(x: u32, den: u32, e: u32) -> u32
    requires { (e ≤ 8) × (den ≤ 353) }
    ensures { (result ≡ cond (leb x (8 * den * e + 21 * den)) 1 0) × (result ≤ 1) }
{
    u32::from(x <= 8 * den * e + 21 * den)
}

// How many further fine bits the excess over the cap buys.
fn extra_of(c: u32, fine: u32, excess: u32) -> u32
    requires { (1 ≤ c) × (c ≤ 2) × (fine ≤ 8) }
    ensures { (result ≡ extra c fine excess) × (result ≤ 8) × (8 * c * result ≤ excess) }
{
    min32(excess / (8 * c), 8 - fine)
}

// The excess over the cap spent on further fine bits, and the rest handed on.
fn spill_of(c: u32, pulses: u32, fine: u32, prio: u32, excess: u32, balance: u32) -> BandSplit
    requires { (1 ≤ c) × (c ≤ 2) × (fine ≤ 8) × (prio ≤ 1) × (balance ≤ 81600) }
    ensures { (as_band result ≡ spill c pulses fine prio excess balance) × (result.prio ≤ 1) }
{
    if excess == 0 {
        return BandSplit {
            pulses: pulses,
            fine: fine,
            prio: prio,
            balance: 0,
        };
    }
    let f = extra_of(c, fine, excess);
    let used = 8 * c * f;
    if excess <= used + balance {
        BandSplit {
            pulses: pulses,
            fine: fine + f,
            prio: 1,
            balance: excess - used,
        }
    } else {
        BandSplit {
            pulses: pulses,
            fine: fine + f,
            prio: 0,
            balance: excess - used,
        }
    }
}

// A band of more than one coefficient, of b bits up to its cap.
fn wide_of(c: u32, n: u32, den: u32, lg: u32, b: u32, excess: u32, balance: u32) -> BandSplit
    requires { Sized c den lg × (b ≤ 81600) × (balance ≤ 81600) }
    ensures { (as_band result ≡ spill c (b - 8 * c * fine_of c n den lg b) (fine_of c n den lg b) (prio_of c n den lg b) excess balance) × (result.prio ≤ 1) }
{
    let x = with_offset(b, n, den, lg);
    let e = fine_of(c, b, wanted_of(x, den));
    let p = prio_of(x, den, e);
    spill_of(c, b - 8 * c * e, e, p, excess, balance)
}

// x bits, of them `balance` from the band below.
pub fn split_of(c: u32, n: u32, den: u32, lg: u32, cap: u32, x: u32, balance: u32) -> BandSplit
    requires { Sized c den lg × (x ≤ 81600) × (balance ≤ 81600) }
    ensures { (as_band result ≡ split_of c n den lg cap x balance) × (result.prio ≤ 1) }
{
    if 1 < n {
        wide_of(
            c,
            n,
            den,
            lg,
            min32(x, cap),
            saturating_sub(x, cap),
            balance,
        )
    } else {
        spill_of(c, min32(x, 8 * c), 0, 1, saturating_sub(x, 8 * c), balance)
    }
}
