// For callers that hold no reader: each makes one of a packet and its numbers, reads, and hands the answer and the next numbers back.
// They stay by their names, as the calls that they stand for.
ghost use Rattle.std.specs.Prelude.{◌≡◌};
ghost use Rattle.entcode.specs.Sym.Shape.{bit, table, uint, raw};
ghost use Rattle.entdec.specs.Answer.{start_of};
ghost use Rattle.laplace.specs.Answer.{reading};
ghost use Rattle.quant_bands.specs.Answer.{coarse_reading};
ghost use Rattle.rate.specs.Answer.{reading as allocating};
ghost use Rattle.rate.specs.Question.{lists};
ghost use Rattle.reader_held.specs.Held.{begun_of, lap_of, said_step, symbol_step, alloc_after, alloc_of, coarse_after, coarse_of};

use crate::{Allocation, EcDec, Step};
use entdec::Reader;
use rate::AllocNumbers;

// A new reader's numbers.
pub fn begin(buf: &[u8]) -> Step<()>
    ensures { said_step result ≡ begun_of (start_of buf.now) }
{
    let out = crate::ec_dec_init(buf);
    Step {
        answer: out.answer,
        next: out.dec.num,
    }
}

// One bit.
pub fn bit_logp(num: Reader, buf: &[u8], logp: u32) -> Step<u32>
    ensures { said_step result ≡ symbol_step (bit logp) buf.now num }
{
    let mut d = EcDec { buf, num };
    let answer = crate::ec_dec_bit_logp(&mut d, logp);
    Step {
        answer,
        next: d.num,
    }
}

// A number below ft.
pub fn uint(num: Reader, buf: &[u8], ft: u32) -> Step<u32>
    ensures { said_step result ≡ symbol_step (uint ft) buf.now num }
{
    let mut d = EcDec { buf, num };
    let answer = crate::ec_dec_uint(&mut d, ft);
    Step {
        answer,
        next: d.num,
    }
}

// A symbol of a table.
pub fn icdf(num: Reader, buf: &[u8], t: &[u8], ftb: u32) -> Step<u32>
    ensures { said_step result ≡ symbol_step (table t.now ftb) buf.now num }
{
    let mut d = EcDec { buf, num };
    let answer = crate::ec_dec_icdf(&mut d, t, ftb);
    Step {
        answer,
        next: d.num,
    }
}

// n raw bits.
pub fn bits(num: Reader, buf: &[u8], n: u32) -> Step<u32>
    ensures { said_step result ≡ symbol_step (raw n) buf.now num }
{
    let mut d = EcDec { buf, num };
    let answer = crate::ec_dec_bits(&mut d, n);
    Step {
        answer,
        next: d.num,
    }
}

// A Laplace value.
pub fn laplace(num: Reader, buf: &[u8], fs: u32, decay: u32) -> Step<i32>
    ensures { said_step result ≡ lap_of num (reading fs decay buf.now num) }
{
    let mut d = EcDec { buf, num };
    let answer = crate::ec_laplace_decode(&mut d, fs, decay);
    Step {
        answer,
        next: d.num,
    }
}

// An allocation.
pub fn allocation(
    num: Reader,
    buf: &[u8],
    q: AllocNumbers,
    offsets: &[i32],
    caps: &[i32],
    pulses: &mut [i32],
    fine: &mut [i32],
    priorities: &mut [i32],
) -> Step<Allocation>
    ensures { alloc_after result (lists pulses.new fine.new priorities.new)
        ≡ alloc_of num (allocating q offsets.now caps.now buf.now num
        (lists pulses.old fine.old priorities.old)) }
{
    let mut d = EcDec { buf, num };
    let answer = crate::clt_compute_allocation(&mut d, q, offsets, caps, pulses, fine, priorities);
    Step {
        answer,
        next: d.num,
    }
}

// Coarse energies.
pub fn coarse(
    num: Reader,
    buf: &[u8],
    energies: &mut [f32],
    c: i32,
    lm: i32,
    start: i32,
    end: i32,
    intra: i32,
) -> Step<()>
    ensures { coarse_after result energies.new
        ≡ coarse_of num (coarse_reading c lm start end intra buf.now num energies.old) }
{
    let mut d = EcDec { buf, num };
    let answer = crate::unquant_coarse_energy(&mut d, energies, c, lm, start, end, intra);
    Step {
        answer,
        next: d.num,
    }
}
