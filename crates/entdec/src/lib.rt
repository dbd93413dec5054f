// The range decoder of RFC 6716, section 4.1: a state by value, its bytes lent beside it.
#![tactic(auto)]

ghost use Rattle.std.specs.Prelude.{◌≡◌};
ghost use Rattle.entcode.specs.Counts.{tell_said};
ghost use Rattle.entcode.specs.Said.{said, answer};
ghost use Rattle.entcode.specs.Sym.Shape.{bit, table, uint, raw};
ghost use Rattle.entcode.specs.Tell.{tell_of, tell_frac_of};
ghost use Rattle.entdec.specs.Answer.{start_of};
ghost use Rattle.entdec.specs.Rule.{reader_ok, refusal_r};
ghost use Rattle.entdec.specs.Symbols.{read_sym};

use entcode::{Coded, Refusal};

mod bytes;
pub mod gate;
pub mod work;

// A reader: the lent length, the next place at the front, how many bytes are taken at the end, the raw bits that wait and how many they
// are, the bit count, the size of the range, the distance from its top, the quotient kept by the last division, the last byte, the mark.
#[derive(Clone, Copy)]
pub struct Reader {
    pub storage: u32,
    pub offs: u32,
    pub ends: u32,
    pub window: u32,
    pub waiting: u32,
    pub total: u32,
    pub rng: u32,
    pub val: u32,
    pub ext: u32,
    pub rem: u32,
    pub error: bool,
}

// A value read, and the state after it.
pub type ReadSymbol = Coded<u32, Reader>;

// Each symbol has a call of its own, as tell and tell_frac have: README, the theorems and the exports name them. Each is its gate and one worker.
impl Reader {
    // A reader of a packet, section 4.1.1.
    pub fn new(s: &[u8]) -> Result<Reader, Refusal>
        ensures { said result ≡ start_of s.now }
    {
        let n = s.len();
        if n <= 1275 {
            let b = laws::byte_at(s, 0);
            let at = bytes::advanced(0, n);
            let d = Reader {
                storage: n as u32,
                offs: at,
                ends: 0,
                window: 0,
                waiting: 0,
                total: 9,
                rng: 128,
                val: 127 - b / 2,
                ext: 0,
                rem: b,
                error: false,
            };
            Ok(d.normalize(s))
        } else {
            Err(Refusal::Number)
        }
    }

    // One bit that is 1 with a probability of 1 in 2^logp, section 4.1.3.2.
    pub fn bit_logp(self, s: &[u8], logp: u32) -> Result<ReadSymbol, Refusal>
        ensures { said result ≡ answer (refusal_r (bit logp) s.now self) (read_sym (bit logp) s.now self) }
    {
        self.refusal(s.len(), true, (1 <= logp) & (logp <= 15), true, Ok(()))?;
        Ok(self.bit(s, logp))
    }

    // A symbol of a table of 2^ftb places, section 4.1.3.3.
    pub fn icdf(self, s: &[u8], t: &[u8], ftb: u32) -> Result<ReadSymbol, Refusal>
        ensures { said result ≡ answer (refusal_r (table t.now ftb) s.now self) (read_sym (table t.now ftb) s.now self) }
    {
        self.refusal_table(s.len(), t, ftb)?;
        Ok(self.symbol(s, t, ftb))
    }

    // A number below ft, all alike, section 4.1.5.
    pub fn uint(self, s: &[u8], ft: u32) -> Result<ReadSymbol, Refusal>
        ensures { said result ≡ answer (refusal_r (uint ft) s.now self) (read_sym (uint ft) s.now self) }
    {
        self.refusal(s.len(), true, (2 <= ft) & (ft <= 4294967295), true, Ok(()))?;
        Ok(self.uniform(s, ft))
    }

    // n raw bits from the end of the packet, section 4.1.4.
    pub fn bits(self, s: &[u8], n: u32) -> Result<ReadSymbol, Refusal>
        ensures { said result ≡ answer (refusal_r (raw n) s.now self) (read_sym (raw n) s.now self) }
    {
        self.refusal(s.len(), true, (1 <= n) & (n <= 25), true, Ok(()))?;
        Ok(self.raw(s, n))
    }

    // How many bits are used, section 4.1.6.1.
    pub fn tell(self) -> Result<u32, Refusal>
        ensures { said result ≡ tell_said (reader_ok self) (tell_of self.total self.rng) }
    {
        if self.sound() {
            Ok(entcode::tell_of(self.total, self.rng))
        } else {
            Err(Refusal::Number)
        }
    }

    // How many eighths of a bit are used, section 4.1.6.2.
    pub fn tell_frac(self) -> Result<u32, Refusal>
        ensures { said result ≡ tell_said (reader_ok self) (tell_frac_of self.total self.rng) }
    {
        if self.sound() {
            Ok(entcode::tell_frac_of(self.total, self.rng))
        } else {
            Err(Refusal::Number)
        }
    }
}
