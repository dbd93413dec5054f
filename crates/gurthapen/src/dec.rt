// Reading symbols: the calls of entdec.
ghost use Rattle.std.specs.Prelude.{◌≡◌};
ghost use Rattle.entcode.specs.Sym.Shape.{bit, table, uint, raw};
ghost use Rattle.gurthapen_answer.specs.Result as answer;
ghost use Rattle.gurthapen.specs.Dec.{starts, reads, tells, tells_frac};

use entdec::Reader;
use gurthapen_answer::coder::{leave_coded, leave_coder};
use gurthapen_answer::numbers::leave_number;
use gurthapen_state::coder::{Coder, is_stored};

// A new reader of the packet s.
pub fn gurthapen_dec_new(state: &mut [i64], s: &[u8]) -> u32
    ensures { answer.result result state.new ≡ starts s.now state.old }
{
    if state.len() == 12 {
        let a = Reader::new(s);
        return leave_coder(a, state);
    }
    2
}

// One bit that is 1 with a probability of 1 in 2^logp.
pub fn gurthapen_dec_bit_logp(state: &mut [i64], s: &[u8], logp: u32, value: &mut [u32]) -> u32
    ensures { answer.result result (state.new, value.new) ≡ reads (bit logp) s.now state.old value.old }
{
    if is_stored(state) & (value.len() == 1) {
        let d = Reader::load(state);
        let a = d.bit_logp(s, logp);
        return leave_coded(a, state, value);
    }
    2
}

// A symbol of a table of 2^ftb places.
pub fn gurthapen_dec_icdf(state: &mut [i64], s: &[u8], t: &[u8], ftb: u32, value: &mut [u32]) -> u32
    ensures { answer.result result (state.new, value.new) ≡ reads (table t.now ftb) s.now state.old value.old }
{
    if is_stored(state) & (value.len() == 1) {
        let d = Reader::load(state);
        let a = d.icdf(s, t, ftb);
        return leave_coded(a, state, value);
    }
    2
}

// A number below ft, all alike.
pub fn gurthapen_dec_uint(state: &mut [i64], s: &[u8], ft: u32, value: &mut [u32]) -> u32
    ensures { answer.result result (state.new, value.new) ≡ reads (uint ft) s.now state.old value.old }
{
    if is_stored(state) & (value.len() == 1) {
        let d = Reader::load(state);
        let a = d.uint(s, ft);
        return leave_coded(a, state, value);
    }
    2
}

// n raw bits from the end of the packet.
pub fn gurthapen_dec_bits(state: &mut [i64], s: &[u8], n: u32, value: &mut [u32]) -> u32
    ensures { answer.result result (state.new, value.new) ≡ reads (raw n) s.now state.old value.old }
{
    if is_stored(state) & (value.len() == 1) {
        let d = Reader::load(state);
        let a = d.bits(s, n);
        return leave_coded(a, state, value);
    }
    2
}

// How many bits are used.
pub fn gurthapen_dec_tell(state: &[i64], value: &mut [u32]) -> u32
    ensures { answer.result result value.new ≡ tells state.now value.old }
{
    if (state.len() == 12) & (value.len() == 1) {
        let d = Reader::load(state);
        let t = d.tell();
        return leave_number(t, value);
    }
    2
}

// How many eighths of a bit are used.
pub fn gurthapen_dec_tell_frac(state: &[i64], value: &mut [u32]) -> u32
    ensures { answer.result result value.new ≡ tells_frac state.now value.old }
{
    if (state.len() == 12) & (value.len() == 1) {
        let d = Reader::load(state);
        let t = d.tell_frac();
        return leave_number(t, value);
    }
    2
}
