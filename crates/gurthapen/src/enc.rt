// Writing symbols: the calls of entenc.
ghost use Rattle.std.specs.Prelude.{◌≡◌};
ghost use Rattle.entcode.specs.Sym.Shape.{bit, table, uint, raw};
ghost use Rattle.gurthapen_answer.specs.Result as answer;
ghost use Rattle.gurthapen.specs.Enc.{starts, writes, closes, tells, tells_frac};

use entenc::Writer;
use gurthapen_answer::coder::leave_coder;
use gurthapen_answer::numbers::leave_number;
use gurthapen_state::coder::{Coder, is_stored};

// A new writer over the bytes buf.
pub fn gurthapen_enc_new(state: &mut [i64], buf: &[u8]) -> u32
    ensures { answer.result result state.new ≡ starts buf.now state.old }
{
    if state.len() == 12 {
        let a = Writer::new(buf);
        return leave_coder(a, state);
    }
    2
}

// One bit, which is 1 in one of 2^logp places.
pub fn gurthapen_enc_bit_logp(state: &mut [i64], buf: &mut [u8], value: u32, logp: u32) -> u32
    ensures { answer.result result (state.new, buf.new) ≡ writes (bit logp) value state.old buf.old }
{
    if is_stored(state) {
        let w = Writer::load(state);
        let a = w.bit_logp(buf, value, logp);
        return leave_coder(a, state);
    }
    2
}

// The symbol s of a table of 2^ftb places.
pub fn gurthapen_enc_icdf(state: &mut [i64], buf: &mut [u8], s: u32, t: &[u8], ftb: u32) -> u32
    ensures { answer.result result (state.new, buf.new) ≡ writes (table t.now ftb) s state.old buf.old }
{
    if is_stored(state) {
        let w = Writer::load(state);
        let a = w.icdf(buf, s, t, ftb);
        return leave_coder(a, state);
    }
    2
}

// A number fl below ft.
pub fn gurthapen_enc_uint(state: &mut [i64], buf: &mut [u8], fl: u32, ft: u32) -> u32
    ensures { answer.result result (state.new, buf.new) ≡ writes (uint ft) fl state.old buf.old }
{
    if is_stored(state) {
        let w = Writer::load(state);
        let a = w.uint(buf, fl, ft);
        return leave_coder(a, state);
    }
    2
}

// n raw bits of v.
pub fn gurthapen_enc_bits(state: &mut [i64], buf: &mut [u8], v: u32, n: u32) -> u32
    ensures { answer.result result (state.new, buf.new) ≡ writes (raw n) v state.old buf.old }
{
    if is_stored(state) {
        let w = Writer::load(state);
        let a = w.bits(buf, v, n);
        return leave_coder(a, state);
    }
    2
}

// The last bytes; nothing may be written after it.
pub fn gurthapen_enc_close(state: &mut [i64], buf: &mut [u8]) -> u32
    ensures { answer.result result (state.new, buf.new) ≡ closes state.old buf.old }
{
    if is_stored(state) {
        let w = Writer::load(state);
        let a = w.close(buf);
        return leave_coder(a, state);
    }
    2
}

// How many bits are used.
pub fn gurthapen_enc_tell(state: &[i64], value: &mut [u32]) -> u32
    ensures { answer.result result value.new ≡ tells state.now value.old }
{
    if (state.len() == 12) & (value.len() == 1) {
        let w = Writer::load(state);
        let t = w.tell();
        return leave_number(t, value);
    }
    2
}

// How many eighths of a bit are used.
pub fn gurthapen_enc_tell_frac(state: &[i64], value: &mut [u32]) -> u32
    ensures { answer.result result value.new ≡ tells_frac state.now value.old }
{
    if (state.len() == 12) & (value.len() == 1) {
        let w = Writer::load(state);
        let t = w.tell_frac();
        return leave_number(t, value);
    }
    2
}
