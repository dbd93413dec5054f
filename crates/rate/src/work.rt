// The whole allocation, behind the gate: bits before skipping, skipping, the two stereo symbols, what is left, the split of every band. It tests
// nothing; the public calls do.
ghost use Rattle.std.specs.Prelude.{◌≡◌, ◌≤◌};
ghost use Rattle.rate_spec.specs.Alloc.{alloc};
ghost use Rattle.rate_bands.specs.Inputs.{alloc_in, AllocCountsOk, AllocListsOk};
ghost use Rattle.rate_split.specs.Lent.{SameLists};
ghost use Rattle.rate.specs.Question.{lists};
ghost use Rattle.rate.specs.Answer.{lists_of, worked_of};

use crate::begin::begin;
use rate_bands::AllocCounts;
use rate_skip::figures::left_of;
use rate_skip::side::Side;
use rate_skip::walk;
use rate_split::Lists;
use rate_split::bands::split_bands;

// The numbers of an allocation as counts: how many bands are coded, what the last of them hands on, the first band whose channels are coded as one,
// and whether the bands below it have theirs apart.
#[derive(Clone, Copy)]
pub struct Worked {
    pub coded: usize,
    pub balance: u32,
    pub intensity: usize,
    pub dual: bool,
}

// An allocation whose questions the side answers.
pub fn allocate<S: Side>(
    f: AllocCounts,
    offsets: &[u32; 21],
    caps: &[u32; 21],
    side: &mut S,
    lent: &mut Lists,
) -> Worked
    requires { AllocCountsOk f × AllocListsOk offsets.now caps.now × S.ready 22 side.old }
    ensures numbers { (result, S.state side.new) ≡ worked_of (alloc (alloc_in f offsets.now caps.now) (S.ask side.old f) (S.state side.old)) }
    ensures within { (result.coded ≤ 21) × (result.balance ≤ 81600) × (result.intensity ≤ 21) }
    ensures filled { lists lent.new.pulses.now lent.new.fine.now lent.new.priorities.now
        ≡ lists_of (alloc_in f offsets.now caps.now)
        (alloc (alloc_in f offsets.now caps.now) (S.ask side.old f) (S.state side.old)).0
        (lists lent.old.pulses.now lent.old.fine.now lent.old.priorities.now) }
    ensures same { S.alike side.old side.new × SameLists lent.old lent.new }
{
    let mut bits = [0u32; 21];
    let mut kept = [0u32; 21];
    let b = begin(f, offsets, caps, &mut bits);
    let k = b.reserves;
    let skipped = walk::skip(f, &bits, b.low, b.left, k.intensity, side, &mut kept);
    let coded = skipped.coded;
    let intensity = walk::intensity(f, coded, skipped.reserve, side);
    let dual = walk::dual(f, k.dual, intensity, side);
    let left = left_of(f, k, skipped.left, skipped.stopped, intensity);
    let balance = split_bands(f, caps, &bits, &kept, coded, left, intensity, dual, lent);
    Worked {
        coded,
        balance,
        intensity,
        dual,
    }
}
