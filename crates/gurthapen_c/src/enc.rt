// Writing symbols: the calls of entenc.
ghost use Rattle.std.specs.Prelude.{◌≡◌};
ghost use Rattle.entcode.specs.Sym.Shape.{bit, table, uint, raw};
ghost use Rattle.gurthapen_answer.specs.Result as answer;
ghost use Rattle.gurthapen.specs.Enc.{starts, writes, closes, tells, tells_frac};

// A new writer over the bytes buf.
#[unsafe(no_mangle)]
pub extern "C" fn gurthapen_enc_new(state: &mut [i64], buf: &[u8]) -> u32
    ensures { answer.result result state.new ≡ starts buf.now state.old }
{
    gurthapen::enc::gurthapen_enc_new(state, buf)
}

// One bit, which is 1 in one of 2^logp places.
#[unsafe(no_mangle)]
pub extern "C" fn gurthapen_enc_bit_logp(
    state: &mut [i64],
    buf: &mut [u8],
    value: u32,
    logp: u32,
) -> u32
    ensures { answer.result result (state.new, buf.new) ≡ writes (bit logp) value state.old buf.old }
{
    gurthapen::enc::gurthapen_enc_bit_logp(state, buf, value, logp)
}

// The symbol s of a table of 2^ftb places.
#[unsafe(no_mangle)]
pub extern "C" fn gurthapen_enc_icdf(
    state: &mut [i64],
    buf: &mut [u8],
    s: u32,
    t: &[u8],
    ftb: u32,
) -> u32
    ensures { answer.result result (state.new, buf.new) ≡ writes (table t.now ftb) s state.old buf.old }
{
    gurthapen::enc::gurthapen_enc_icdf(state, buf, s, t, ftb)
}

// A number fl below ft.
#[unsafe(no_mangle)]
pub extern "C" fn gurthapen_enc_uint(state: &mut [i64], buf: &mut [u8], fl: u32, ft: u32) -> u32
    ensures { answer.result result (state.new, buf.new) ≡ writes (uint ft) fl state.old buf.old }
{
    gurthapen::enc::gurthapen_enc_uint(state, buf, fl, ft)
}

// n raw bits of v.
#[unsafe(no_mangle)]
pub extern "C" fn gurthapen_enc_bits(state: &mut [i64], buf: &mut [u8], v: u32, n: u32) -> u32
    ensures { answer.result result (state.new, buf.new) ≡ writes (raw n) v state.old buf.old }
{
    gurthapen::enc::gurthapen_enc_bits(state, buf, v, n)
}

// The last bytes; nothing may be written after it.
#[unsafe(no_mangle)]
pub extern "C" fn gurthapen_enc_close(state: &mut [i64], buf: &mut [u8]) -> u32
    ensures { answer.result result (state.new, buf.new) ≡ closes state.old buf.old }
{
    gurthapen::enc::gurthapen_enc_close(state, buf)
}

// How many bits are used.
#[unsafe(no_mangle)]
pub extern "C" fn gurthapen_enc_tell(state: &[i64], value: &mut [u32]) -> u32
    ensures { answer.result result value.new ≡ tells state.now value.old }
{
    gurthapen::enc::gurthapen_enc_tell(state, value)
}

// How many eighths of a bit are used.
#[unsafe(no_mangle)]
pub extern "C" fn gurthapen_enc_tell_frac(state: &[i64], value: &mut [u32]) -> u32
    ensures { answer.result result value.new ≡ tells_frac state.now value.old }
{
    gurthapen::enc::gurthapen_enc_tell_frac(state, value)
}
