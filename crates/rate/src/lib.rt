// The bit allocation as a call, reading and writing: rate.rs, clt_compute_allocation; RFC 6716, section 4.3.3.
#![tactic(auto)]

pub mod begin;
pub mod edge;
pub mod gate;
pub mod work;

ghost use Rattle.std.specs.Prelude.{◌≡◌};
ghost use Rattle.entenc.specs.Write.{wr};
ghost use Rattle.rate.specs.Question.{lists};
ghost use Rattle.rate.specs.Answer.{after_read, after_write, reading, writing};

use entcode::Refusal;
use entdec::Reader;
use entenc::Writer;
use rate_bands::Reserves;
use rate_skip::choice::Wished;
use rate_skip::reading::Decoder;
use rate_skip::writing::Encoder;
use rate_split::Lists;

// The numbers of a call as they are handed in: channels, frame size, the bands start..end-1, the trim, and the total in eighth bits.
#[derive(Clone, Copy)]
pub struct AllocNumbers {
    pub c: i32,
    pub lm: i32,
    pub start: i32,
    pub end: i32,
    pub trim: i32,
    pub total: i32,
}

// What an encoder wishes: the first band whose channels it wants coded as one, whether the bands below it are coded apart (1), and what its choice
// of skip flags depends on: the band count of the frame before and the signal's bandwidth.
#[derive(Clone, Copy)]
pub struct Wishes {
    pub intensity: i32,
    pub dual: i32,
    pub previous: i32,
    pub bandwidth: i32,
}

// What an allocation gives beside the lists: how many bands are coded, what the last of them hands on, the first band whose channels are coded as
// one, whether the bands below it have theirs apart (1), and the coder after the call.
#[derive(Clone, Copy)]
pub struct Allocation<C> {
    pub coded: i32,
    pub balance: i32,
    pub intensity: i32,
    pub dual: i32,
    pub next: C,
}

// What reading gives, with the reader after the call.
pub type ReadAllocation = Allocation<Reader>;

// What writing gives, with the writer after the call.
pub type WrittenAllocation = Allocation<Writer>;

// What is reserved, what no band has yet, and the highest band that is not skipped.
#[derive(Clone, Copy)]
pub struct Begun {
    pub reserves: Reserves,
    pub left: u32,
    pub low: usize,
}

// Reading and writing stay two calls, which README, the theorems and the exports name; what is behind their gates is one, `work::allocate`.

// Reads an allocation from the packet s: pulses, fine bits and priorities go into the lists, the rest is answered.
pub fn clt_compute_allocation_read(
    d: Reader,
    s: &[u8],
    q: AllocNumbers,
    offsets: &[i32],
    caps: &[i32],
    pulses: &mut [i32],
    fine: &mut [i32],
    priorities: &mut [i32],
) -> Result<ReadAllocation, Refusal>
    ensures { after_read result (lists pulses.new fine.new priorities.new)
        ≡ reading q offsets.now caps.now s.now d
        (lists pulses.old fine.old priorities.old) }
{
    gate::refusal_read(
        d,
        s.len(),
        q,
        offsets,
        caps,
        pulses.len(),
        fine.len(),
        priorities.len(),
    )?;
    let f = edge::alloc_counts(q);
    let offset_counts = edge::counts_of(offsets);
    let cap_counts = edge::counts_of(caps);
    let mut side = Decoder { s, at: d };
    let mut lent = Lists {
        pulses,
        fine,
        priorities,
    };
    let y = work::allocate(f, &offset_counts, &cap_counts, &mut side, &mut lent);
    Ok(edge::figures(y, side.at))
}

// Writes an allocation: the encoder's intensity and dual stereo are written where they are coded, intensity no more than the coded bands.
pub fn clt_compute_allocation_write(
    w: Writer,
    buf: &mut [u8],
    q: AllocNumbers,
    h: Wishes,
    offsets: &[i32],
    caps: &[i32],
    pulses: &mut [i32],
    fine: &mut [i32],
    priorities: &mut [i32],
) -> Result<WrittenAllocation, Refusal>
    ensures { after_write result (lists pulses.new fine.new priorities.new) buf.new
        ≡ writing q h offsets.now caps.now
        (wr w buf.old) (lists pulses.old fine.old priorities.old) }
{
    gate::refusal_write(
        w,
        buf.len(),
        q,
        h,
        offsets,
        caps,
        pulses.len(),
        fine.len(),
        priorities.len(),
    )?;
    let f = edge::alloc_counts(q);
    let offset_counts = edge::counts_of(offsets);
    let cap_counts = edge::counts_of(caps);
    let mut side = Encoder {
        bytes: buf,
        at: w,
        wished: Wished::from(h),
    };
    let mut lent = Lists {
        pulses,
        fine,
        priorities,
    };
    let y = work::allocate(f, &offset_counts, &cap_counts, &mut side, &mut lent);
    Ok(edge::figures(y, side.at))
}
