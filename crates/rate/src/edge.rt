// From i32, as a call is handed it, to counts, as the work has it, and back.
ghost use Rattle.std.specs.Prelude.{◌≡◌, map, ◌≤◌, length};
ghost use Rattle.laws.specs.Signs.{clip};
ghost use Rattle.rate.specs.Question.{alloc_counts, wished_of};
ghost use Rattle.rate.specs.Answer.{numbers};

use super::work::Worked;
use super::{AllocNumbers, Allocation, Wishes};
use laws::clipped;
use rate_bands::AllocCounts;
use rate_skip::choice::Wished;
use rate_split::bands::signed;

// The numbers as counts. No From: each number is clipped, and what was below 0 is lost, as `alloc_counts` of the definition says.
pub fn alloc_counts(q: AllocNumbers) -> AllocCounts
    ensures { result ≡ alloc_counts q }
{
    let c = clipped(q.c);
    let lm = clipped(q.lm);
    let start = clipped(q.start) as usize;
    let end = clipped(q.end) as usize;
    let trim = clipped(q.trim);
    let total = clipped(q.total);
    AllocCounts {
        c,
        lm,
        start,
        end,
        trim,
        total,
    }
}

// A list's entries as counts.
pub fn counts_of(l: &[i32]) -> [u32; 21]
    requires { length l.now ≡ 21 }
    ensures { result ≡ map clip l.now }
{
    let mut out = [0u32; 21];
    for (i, v) in out.iter_mut().enumerate() {
        *v = clipped(l[i]);
    }
    out
}

// An encoder's wishes in the work's numbers: its intensity as a count, and its dual stereo as a flag.
impl From<Wishes> for Wished {
    ghost from_gives = { λ h w. w ≡ wished_of h };

    fn from(h: Wishes) -> Wished {
        Wished {
            intensity: clipped(h.intensity) as usize,
            dual: 0 < h.dual,
            previous: h.previous,
            bandwidth: h.bandwidth,
        }
    }
}

// The numbers of an allocation as the answer has them, with the coder after it.
pub fn figures<C>(y: Worked, next: C) -> Allocation<C>
    requires { (y.coded ≤ 21) × (y.balance ≤ 81600) × (y.intensity ≤ 21) }
    ensures { result ≡ numbers y.coded y.balance y.intensity y.dual next }
{
    Allocation {
        coded: signed(y.coded as u32),
        balance: signed(y.balance),
        intensity: signed(y.intensity as u32),
        dual: i32::from(y.dual),
        next,
    }
}
