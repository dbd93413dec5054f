// All bands, the coded ones from below and then the skipped ones. The lists are the caller's: entries outside start..end-1 stay.
ghost use Rattle.std.specs.Prelude.{◌≡◌, ◌-◌, ◌≤◌, ◌<◌, pos, get_or, set};
ghost use Rattle.laws.specs.Lists.{fill};
ghost use Rattle.rate_spec.specs.Alloc.{skipped};
ghost use Rattle.rate_bands.specs.Inputs.{bare, AllocCountsOk};
ghost use Rattle.rate_split.specs.Splits.{as_band};
ghost use Rattle.rate_split.specs.Bands.{coded_at, carried_at, band_at, SplitIn};
ghost use Rattle.rate_split.specs.Lent.{SameLists};

use crate::shares::{part_of, share_of};
use crate::{BandSplit, Lists};
use modes::edges::edge_of;
use rate_bands::AllocCounts;
use rate_bands::band::floor_of;

// A count as the lists hold it.
pub fn signed(n: u32) -> i32
    requires { n ≤ 2147483647 }
    ensures { result ≡ pos n }
{
    n as i32
}

impl Lists<'_> {
    // A band's part goes into the lists.
    fn store(&mut self, p: BandSplit, j: usize)
        requires { (p.pulses ≤ 2147483647) × (p.fine ≤ 2147483647) × (p.prio ≤ 2147483647) × (j < 21) }
        ensures stored { (self.new.pulses.now ≡ set self.old.pulses.now j (pos p.pulses)) × (self.new.fine.now ≡ set self.old.fine.now j (pos p.fine))
            × (self.new.priorities.now ≡ set self.old.priorities.now j (pos p.prio)) }
        ensures same { SameLists self.old self.new }
    {
        self.pulses[j] = signed(p.pulses);
        self.fine[j] = signed(p.fine);
        self.priorities[j] = signed(p.prio);
    }
}

// The coded bands: each is split with its share and what the band below handed on. It gives what the last one hands on.
fn split_coded(
    f: AllocCounts,
    caps: &[u32; 21],
    bits: &[u32; 21],
    coded: usize,
    left: u32,
    intensity: usize,
    dual: bool,
    lists: &mut Lists,
) -> u32
    requires { SplitIn f bits.now coded left }
    ensures filled { (result ≡ carried_at f caps.now bits.now coded left intensity dual (coded - f.start))
        × (lists.new.pulses.now
        ≡ fill (λ j. pos (coded_at f caps.now bits.now coded left intensity dual j).pulses) f.start (coded - f.start)
        lists.old.pulses.now)
        × (lists.new.fine.now
        ≡ fill (λ j. pos (coded_at f caps.now bits.now coded left intensity dual j).fine) f.start (coded - f.start)
        lists.old.fine.now)
        × (lists.new.priorities.now
        ≡ fill (λ j. pos (coded_at f caps.now bits.now coded left intensity dual j).prio) f.start (coded - f.start)
        lists.old.priorities.now) }
    ensures same { SameLists lists.old lists.new }
{
    let start = f.start;
    let g = share_of(start, coded, left);
    let mut lo = g.first;
    let mut balance: u32 = 0;
    for j in start..coded {
        let hi = edge_of(j + 1);
        let p = part_of(f, g, caps[j], bits[j], lo, hi, j, intensity, dual, balance);
        lists.store(p, j);
        balance = p.balance;
        lo = hi;
    }
    balance
}

// A skipped band has no pulses, and what it kept is for fine energy.
fn skipped_of(f: AllocCounts, kept: u32) -> BandSplit
    requires { AllocCountsOk f }
    ensures { (as_band result ≡ skipped (bare f) kept) × (result.pulses ≡ 0) × (result.fine ≤ 2147483647) × (result.prio ≤ 1) }
{
    let floor = floor_of(f);
    let e = kept / floor;
    BandSplit {
        pulses: 0,
        fine: e,
        prio: u32::from(e < 1),
        balance: 0,
    }
}

// The skipped bands.
fn split_skipped(f: AllocCounts, coded: usize, kept: &[u32; 21], lists: &mut Lists)
    requires { AllocCountsOk f × (coded ≤ f.end) }
    ensures filled { (lists.new.pulses.now ≡ fill (λ j. pos (skipped (bare f) (get_or kept.now j 0)).pulses) coded (f.end - coded) lists.old.pulses.now)
        × (lists.new.fine.now ≡ fill (λ j. pos (skipped (bare f) (get_or kept.now j 0)).fine) coded (f.end - coded) lists.old.fine.now)
        × (lists.new.priorities.now ≡ fill (λ j. pos (skipped (bare f) (get_or kept.now j 0)).prio) coded (f.end - coded) lists.old.priorities.now) }
    ensures same { SameLists lists.old lists.new }
{
    for j in coded..f.end {
        let p = skipped_of(f, kept[j]);
        lists.store(p, j);
    }
}

// All bands start..end-1, of which those below `coded` are coded. It gives what the last coded band hands on. Put into its callers: as a call it would
// look up the three lists for each band anew.
#[inline(always)]
pub fn split_bands(
    f: AllocCounts,
    caps: &[u32; 21],
    bits: &[u32; 21],
    kept: &[u32; 21],
    coded: usize,
    left: u32,
    intensity: usize,
    dual: bool,
    lists: &mut Lists,
) -> u32
    requires { SplitIn f bits.now coded left }
    ensures filled { (result ≡ carried_at f caps.now bits.now coded left intensity dual (coded - f.start))
        × (lists.new.pulses.now
        ≡ fill (λ j. pos (band_at f caps.now bits.now coded left intensity dual kept.now j).pulses) f.start
        (f.end - f.start) lists.old.pulses.now)
        × (lists.new.fine.now
        ≡ fill (λ j. pos (band_at f caps.now bits.now coded left intensity dual kept.now j).fine) f.start
        (f.end - f.start) lists.old.fine.now)
        × (lists.new.priorities.now
        ≡ fill (λ j. pos (band_at f caps.now bits.now coded left intensity dual kept.now j).prio) f.start
        (f.end - f.start) lists.old.priorities.now) }
    ensures same { SameLists lists.old lists.new }
{
    let balance = split_coded(f, caps, bits, coded, left, intensity, dual, lists);
    split_skipped(f, coded, kept, lists);
    balance
}
