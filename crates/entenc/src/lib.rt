// The range encoder of RFC 6716, section 5.1: a state by value, its bytes lent beside it.
#![tactic(auto)]

ghost use Rattle.std.specs.Prelude.{◌≡◌, length};
ghost use Rattle.entcode.specs.Said.{said};
ghost use Rattle.entcode.specs.Tell.{tell_of, tell_frac_of};
ghost use Rattle.entcode.specs.Counts.{tell_said};
ghost use Rattle.entcode.specs.Sym.Shape.{bit, table, uint, raw};
ghost use Rattle.entenc.specs.Write.{wr};
ghost use Rattle.entenc.specs.Rule.{writer_ok};
ghost use Rattle.entenc.specs.Answer.{after, start_of, writing, closing};

use entcode::Refusal;
use entenc_sink::Sink;

pub mod gate;
pub mod raw;
pub mod tail;
pub mod work;

// A writer: the sink, the held byte (256: none) and its run of 255s, the low end and the size of the range, the bit count, the raw bits
// that wait and how many they are, and whether it is closed. No held byte is 256, no Option: the definition and document 01 have a number.
#[derive(Clone, Copy)]
pub struct Writer {
    pub sink: Sink,
    pub rem: u32,
    pub ext: u32,
    pub val: u32,
    pub rng: u32,
    pub total: u32,
    pub window: u32,
    pub waiting: u32,
    pub closed: bool,
}

// Each symbol has a call of its own, as tell and tell_frac have: README, the theorems and the exports name them. Each is its gate and one worker.
impl Writer {
    // A new writer over the lent bytes, RFC 6716, section 5.1.
    pub fn new(buf: &[u8]) -> Result<Writer, Refusal>
        ensures { said result ≡ start_of (length buf.now) }
    {
        let n = buf.len();
        if n <= 1275 {
            let s = Sink {
                storage: n as u32,
                offs: 0,
                ends: 0,
                error: false,
            };
            let w = Writer {
                sink: s,
                rem: 256,
                ext: 0,
                val: 0,
                rng: 2147483648,
                total: 33,
                window: 0,
                waiting: 0,
                closed: false,
            };
            Ok(w)
        } else {
            Err(Refusal::Number)
        }
    }

    // How many bits are used, RFC 6716, section 4.1.6.1.
    pub fn tell(self) -> Result<u32, Refusal>
        ensures { said result ≡ tell_said (writer_ok self) (tell_of self.total self.rng) }
    {
        if self.sound() {
            Ok(entcode::tell_of(self.total, self.rng))
        } else {
            Err(Refusal::Number)
        }
    }

    // How many eighths of a bit are used, RFC 6716, section 4.1.6.2.
    pub fn tell_frac(self) -> Result<u32, Refusal>
        ensures { said result ≡ tell_said (writer_ok self) (tell_frac_of self.total self.rng) }
    {
        if self.sound() {
            Ok(entcode::tell_frac_of(self.total, self.rng))
        } else {
            Err(Refusal::Number)
        }
    }

    // One bit, which is 1 in one of 2^logp places, RFC 6716, section 5.1.2.2.
    pub fn bit_logp(self, buf: &mut [u8], value: u32, logp: u32) -> Result<Writer, Refusal>
        ensures { after result buf.new ≡ writing (bit logp) value (wr self buf.old) }
    {
        let ok = (1 <= logp) & (logp <= 15) & (value <= 1);
        self.refusal(buf.len(), true, ok, true, Ok(()))?;
        Ok(self.put_bit(buf, value, logp))
    }

    // The symbol s of a table for 2^ftb places, RFC 6716, section 5.1.2.3.
    pub fn icdf(self, buf: &mut [u8], s: u32, t: &[u8], ftb: u32) -> Result<Writer, Refusal>
        ensures { after result buf.new ≡ writing (table t.now ftb) s (wr self buf.old) }
    {
        self.refusal_table(buf.len(), s, t, ftb)?;
        Ok(self.put_icdf(buf, s, t, ftb))
    }

    // A number fl below ft, RFC 6716, section 5.1.4.
    pub fn uint(self, buf: &mut [u8], fl: u32, ft: u32) -> Result<Writer, Refusal>
        ensures { after result buf.new ≡ writing (uint ft) fl (wr self buf.old) }
    {
        let ok = (2 <= ft) & (ft <= 4294967295) & (fl < ft);
        self.refusal(buf.len(), true, ok, true, Ok(()))?;
        Ok(self.put_uint(buf, fl, ft))
    }

    // n raw bits of v, RFC 6716, section 5.1.3.
    pub fn bits(self, buf: &mut [u8], v: u32, n: u32) -> Result<Writer, Refusal>
        ensures { after result buf.new ≡ writing (raw n) v (wr self buf.old) }
    {
        let ok = (1 <= n) & (n <= 25) & gate::below_pow2(v, n);
        self.refusal(buf.len(), true, ok, true, Ok(()))?;
        Ok(self.put_bits(buf, v, n))
    }

    // The last bytes, RFC 6716, section 5.1.5; nothing may be written after it.
    pub fn close(self, buf: &mut [u8]) -> Result<Writer, Refusal>
        ensures { after result buf.new ≡ closing (wr self buf.old) }
    {
        self.refusal_close(buf.len())?;
        Ok(self.done(buf))
    }
}
