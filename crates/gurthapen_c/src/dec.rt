// Reading symbols: the calls of entdec.
ghost use Rattle.std.specs.Prelude.{◌≡◌};
ghost use Rattle.entcode.specs.Sym.Shape.{bit, table, uint, raw};
ghost use Rattle.gurthapen_answer.specs.Result as answer;
ghost use Rattle.gurthapen.specs.Dec.{starts, reads, tells, tells_frac};

// A new reader of the packet s.
#[unsafe(no_mangle)]
pub extern "C" fn gurthapen_dec_new(state: &mut [i64], s: &[u8]) -> u32
    ensures { answer.result result state.new ≡ starts s.now state.old }
{
    gurthapen::dec::gurthapen_dec_new(state, s)
}

// One bit that is 1 with a probability of 1 in 2^logp.
#[unsafe(no_mangle)]
pub extern "C" fn gurthapen_dec_bit_logp(
    state: &mut [i64],
    s: &[u8],
    logp: u32,
    value: &mut [u32],
) -> u32
    ensures { answer.result result (state.new, value.new) ≡ reads (bit logp) s.now state.old value.old }
{
    gurthapen::dec::gurthapen_dec_bit_logp(state, s, logp, value)
}

// A symbol of a table of 2^ftb places.
#[unsafe(no_mangle)]
pub extern "C" fn gurthapen_dec_icdf(
    state: &mut [i64],
    s: &[u8],
    t: &[u8],
    ftb: u32,
    value: &mut [u32],
) -> u32
    ensures { answer.result result (state.new, value.new) ≡ reads (table t.now ftb) s.now state.old value.old }
{
    gurthapen::dec::gurthapen_dec_icdf(state, s, t, ftb, value)
}

// A number below ft, all alike.
#[unsafe(no_mangle)]
pub extern "C" fn gurthapen_dec_uint(state: &mut [i64], s: &[u8], ft: u32, value: &mut [u32]) -> u32
    ensures { answer.result result (state.new, value.new) ≡ reads (uint ft) s.now state.old value.old }
{
    gurthapen::dec::gurthapen_dec_uint(state, s, ft, value)
}

// n raw bits from the end of the packet.
#[unsafe(no_mangle)]
pub extern "C" fn gurthapen_dec_bits(state: &mut [i64], s: &[u8], n: u32, value: &mut [u32]) -> u32
    ensures { answer.result result (state.new, value.new) ≡ reads (raw n) s.now state.old value.old }
{
    gurthapen::dec::gurthapen_dec_bits(state, s, n, value)
}

// How many bits are used.
#[unsafe(no_mangle)]
pub extern "C" fn gurthapen_dec_tell(state: &[i64], value: &mut [u32]) -> u32
    ensures { answer.result result value.new ≡ tells state.now value.old }
{
    gurthapen::dec::gurthapen_dec_tell(state, value)
}

// How many eighths of a bit are used.
#[unsafe(no_mangle)]
pub extern "C" fn gurthapen_dec_tell_frac(state: &[i64], value: &mut [u32]) -> u32
    ensures { answer.result result value.new ≡ tells_frac state.now value.old }
{
    gurthapen::dec::gurthapen_dec_tell_frac(state, value)
}
