// The two lookups in a row of the pulse cache. Callers know them by pulses_for and bits_for alone, not by the search.
// The table is taken once for each call and lent, so that it is not made in each function.
ghost use Rattle.std.specs.Prelude.{◌≡◌, ◌+◌, ◌≤◌, ◌<◌, pos};
ghost use Rattle.modes.specs.CacheBits.{cache_bits, CacheRow};
ghost use Rattle.rate_cache.specs.Rows.{pulses_for, bits_for};

use crate::packed;

// What an index of pulses costs, from the table lent.
fn cost_in(t: &[u8], start: usize, i: usize) -> u32
    requires { (t.now ≡ cache_bits) × (start + i < 392) }
    ensures { (result ≡ bits_for start i) × (result ≤ 256) }
{
    if i == 0 {
        return 0;
    }
    modes::cache_bits::entry_in(t, start, i) + 1
}

// The index nearest to the bits, from the table lent: six halvings bring two indices together, then the nearer of them is taken.
// Not by the library's search, which gives any of equal entries: `low` names one.
fn nearest_in(t: &[u8], start: usize, bits: u32) -> usize
    requires { (t.now ≡ cache_bits) × CacheRow start × (bits ≤ 81600) }
    ensures { (result ≡ pulses_for start (pos bits)) × (result ≤ 40) }
{
    let mut lo: usize = 0;
    let mut hi = modes::cache_bits::length_in(t, start);
    for _ in 0..6u32 {
        let mid = (lo + hi + 1) / 2;
        let m = modes::cache_bits::entry_in(t, start, mid) + 1;
        if m < bits {
            lo = mid;
        } else {
            hi = mid;
        }
    }
    let a = cost_in(t, start, lo);
    let b = cost_in(t, start, hi);
    if 2 * bits <= a + b { lo } else { hi }
}

// bits2pulses in a row. Bits below 0 are nearest to index 0, as 0 bits are.
pub fn pulses_for(start: usize, bits: u32) -> u32
    requires { CacheRow start × (bits ≤ 81600) }
    ensures { result ≡ pulses_for start (pos bits) }
{
    let t = modes::cache_bits::table();
    nearest_in(&t, start, bits) as u32
}

// pulses2bits in a row.
pub fn bits_for(start: usize, pulses: usize) -> u32
    requires { start + pulses < 392 }
    ensures { result ≡ bits_for start pulses }
{
    if pulses == 0 {
        return 0;
    }
    let p = start + pulses;
    let w = packed::eight_entries(p / 8);
    ((w >> (8 * (p % 8))) % 256) as u32 + 1
}
