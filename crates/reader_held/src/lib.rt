// A reader that holds the packet's bytes and its place in them, over the calls that take a state by value.
// Document 01, "Use these forms in these places". The names are the crate's; each function changes the reader that it is lent, and a refusal
// leaves it. `plain` is for callers that hold no reader. Each call stays by its own name, which docs/contracts and the theorems of `decided` have.
#![tactic(auto)]

ghost use Rattle.std.specs.Prelude.{◌≡◌};
ghost use Rattle.entcode.specs.Said.{said};
ghost use Rattle.entcode.specs.Sym.Shape.{bit, table, uint, raw};
ghost use Rattle.rate.specs.Question.{lists};
ghost use Rattle.reader_held.specs.Held.{moved, no_reader, said_opening, opened_of, read_held, lap_held, alloc_held, coarse_held};

use entcode::Refusal;
use entdec::Reader;
use rate::AllocNumbers;

pub mod plain;

// A reader: the packet, and its numbers.
#[derive(Clone, Copy)]
pub struct EcDec<'a> {
    pub buf: &'a [u8],
    pub num: Reader,
}

// A reader, and whether its packet was refused. No Result: `opened_of` promises of a refused packet too what the reader holds, so that every call
// refuses it.
#[derive(Clone, Copy)]
pub struct Opened<'a> {
    pub dec: EcDec<'a>,
    pub answer: Result<(), Refusal>,
}

// What a call answers, and the numbers after it, which a refusal leaves.
#[derive(Clone, Copy)]
pub struct Step<T> {
    pub answer: Result<T, Refusal>,
    pub next: Reader,
}

// An allocation: how many bands are coded, what the last of them hands on, the first band whose channels are coded as one, and whether the bands
// below it have theirs apart (1).
#[derive(Clone, Copy)]
pub struct Allocation {
    pub coded: i32,
    pub balance: i32,
    pub intensity: i32,
    pub dual: i32,
}

// The numbers of a reader whose packet was refused.
fn none() -> Reader
    ensures { result ≡ no_reader }
{
    Reader {
        storage: 0,
        offs: 0,
        ends: 0,
        window: 0,
        waiting: 0,
        total: 0,
        rng: 0,
        val: 0,
        ext: 0,
        rem: 0,
        error: true,
    }
}

// A reader of a packet, section 4.1.1. Refused as 1: more than 1,275 bytes.
pub fn ec_dec_init<'a>(buf: &'a [u8]) -> Opened<'a>
    ensures { said_opening result ≡ opened_of buf.entry }
{
    match Reader::new(buf) {
        Ok(num) => Opened {
            dec: EcDec { buf, num },
            answer: Ok(()),
        },
        Err(why) => Opened {
            dec: EcDec { buf, num: none() },
            answer: Err(why),
        },
    }
}

// One bit that is 1 with a probability of 1 in 2^logp, section 4.1.3.2.
pub fn ec_dec_bit_logp<'s, 'a>(d: &'s mut EcDec<'a>, logp: u32) -> Result<u32, Refusal>
    ensures { (said result ≡ (read_held (bit logp) d.old).said)
        × (d.new ≡ moved d.old (read_held (bit logp) d.old).next) }
{
    let y = d.num.bit_logp(d.buf, logp)?;
    d.num = y.next;
    Ok(y.value)
}

// A number below ft, all alike, section 4.1.5.
pub fn ec_dec_uint<'s, 'a>(d: &'s mut EcDec<'a>, ft: u32) -> Result<u32, Refusal>
    ensures { (said result ≡ (read_held (uint ft) d.old).said)
        × (d.new ≡ moved d.old (read_held (uint ft) d.old).next) }
{
    let y = d.num.uint(d.buf, ft)?;
    d.num = y.next;
    Ok(y.value)
}

// A symbol of a table of 2^ftb places, section 4.1.3.3.
pub fn ec_dec_icdf<'s, 'a, 't>(d: &'s mut EcDec<'a>, t: &'t [u8], ftb: u32) -> Result<u32, Refusal>
    ensures { (said result ≡ (read_held (table t.now ftb) d.old).said)
        × (d.new ≡ moved d.old (read_held (table t.now ftb) d.old).next) }
{
    let y = d.num.icdf(d.buf, t, ftb)?;
    d.num = y.next;
    Ok(y.value)
}

// n raw bits from the end of the packet, section 4.1.4.
pub fn ec_dec_bits<'s, 'a>(d: &'s mut EcDec<'a>, n: u32) -> Result<u32, Refusal>
    ensures { (said result ≡ (read_held (raw n) d.old).said)
        × (d.new ≡ moved d.old (read_held (raw n) d.old).next) }
{
    let y = d.num.bits(d.buf, n)?;
    d.num = y.next;
    Ok(y.value)
}

// A Laplace value of the pair fs and decay, section 4.3.2.1.
pub fn ec_laplace_decode<'s, 'a>(d: &'s mut EcDec<'a>, fs: u32, decay: u32) -> Result<i32, Refusal>
    ensures { (said result ≡ (lap_held fs decay d.old).said)
        × (d.new ≡ moved d.old (lap_held fs decay d.old).next) }
{
    let y = laplace::ec_laplace_decode(d.num, d.buf, fs, decay)?;
    d.num = y.next;
    Ok(y.value)
}

// The bit allocation, section 4.3.3: pulses, fine bits and priorities go into the lists.
pub fn clt_compute_allocation<'s, 'a, 'o, 'c, 'p, 'f, 'r>(
    d: &'s mut EcDec<'a>,
    q: AllocNumbers,
    offsets: &'o [i32],
    caps: &'c [i32],
    pulses: &'p mut [i32],
    fine: &'f mut [i32],
    priorities: &'r mut [i32],
) -> Result<Allocation, Refusal>
    ensures { (said result ≡ (alloc_held q offsets.now caps.now
        (lists pulses.old fine.old priorities.old) d.old).step.said)
        × (d.new ≡ moved d.old (alloc_held q offsets.now caps.now
        (lists pulses.old fine.old priorities.old) d.old).step.next)
        × (lists pulses.new fine.new priorities.new ≡ (alloc_held q offsets.now
        caps.now (lists pulses.old fine.old priorities.old) d.old).lent) }
{
    let y = rate::clt_compute_allocation_read(
        d.num, d.buf, q, offsets, caps, pulses, fine, priorities,
    )?;
    d.num = y.next;
    Ok(Allocation {
        coded: y.coded,
        balance: y.balance,
        intensity: y.intensity,
        dual: y.dual,
    })
}

// The coarse energies of the bands start..end-1, section 4.3.2.1, in place.
pub fn unquant_coarse_energy<'s, 'a, 'e>(
    d: &'s mut EcDec<'a>,
    energies: &'e mut [f32],
    c: i32,
    lm: i32,
    start: i32,
    end: i32,
    intra: i32,
) -> Result<(), Refusal>
    ensures { (said result ≡ (coarse_held c lm start end intra energies.old d.old).step.said)
        × (d.new ≡ moved d.old (coarse_held c lm start end intra energies.old d.old).step.next)
        × (energies.new ≡ (coarse_held c lm start end intra energies.old d.old).lent) }
{
    d.num = quant_bands::unquant_coarse_energy(d.num, d.buf, energies, c, lm, start, end, intra)?;
    Ok(())
}
