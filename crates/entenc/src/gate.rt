// What a write or a close is refused with: document 01, "When the answer is no".
ghost use Rattle.std.specs.Prelude.{◌≡◌, true, ◌&&◌, ◌^◌, ltb, leb, eqb, length};
ghost use Rattle.entcode.specs.Refusal.{refusal};
ghost use Rattle.entcode.specs.Said.{verdict};
ghost use Rattle.entcode.specs.Sym.{falls};
ghost use Rattle.entenc.specs.Rule.{writer_ok, is_open, write_refusal};

use super::Writer;
use entcode::{Refusal, Verdict};

impl Writer {
    // Does the state keep the rule of a writer? Any numbers are answered.
    pub fn sound(self) -> bool
        ensures { result ≡ writer_ok self }
    {
        let s = self.sink;
        let places = (s.offs as u64) + (s.ends as u64);
        let top = (self.val as u64) + (self.rng as u64);
        entcode::counts_ok(s.storage, self.rng, self.waiting, self.total)
            & (places <= (s.storage as u64))
            & (top < 4294967296)
            & (self.rem <= 256)
            & (self.ext <= 65535)
    }

    // Are n lent bytes as many as the state has, and the call's other lengths right? Asked before an entry of a list is read.
    pub fn sized(self, n: usize, lengths: bool) -> bool
        ensures { result ≡ (eqb self.sink.storage n && lengths) }
    {
        let s = self.sink;
        (s.storage as usize == n) & lengths
    }

    // The refusal of a call that can write symbols. n bytes are lent; lengths, numbers, lists and special are what the call found.
    pub fn refusal<V: Verdict>(
        self,
        n: usize,
        lengths: bool,
        numbers: bool,
        lists: bool,
        special: V,
    ) -> V
        ensures { V.number result ≡ write_refusal n self lengths numbers lists (V.number special) }
    {
        let s = self.sink;
        let unclosed = !self.closed;
        let fits = entcode::tell_ok(s.storage, self.total, self.rng);
        let sound = self.sound();
        let sized = self.sized(n, lengths);
        entcode::refusal_of(sized, sound & numbers, lists, special, unclosed, fits)
    }

    // The refusal of writing the symbol s of a table. The table is read once every length is right.
    pub fn refusal_table(self, n: usize, s: u32, t: &[u8], ftb: u32) -> Result<(), Refusal>
        ensures { verdict result ≡ write_refusal n self (ltb 0 (length t.now)) (leb 1 ftb && leb ftb 8 && ltb s (length t.now))
            (falls (2 ^ ftb) t.now) 0 }
    {
        let some = 0 < t.len();
        if self.sized(n, some) {
            let ok = (1 <= ftb) & (ftb <= 8) & ((s as usize) < t.len());
            let falls = entcode::table::table_ok(t, ftb);
            return self.refusal(n, some, ok, falls, Ok(()));
        }
        Err(Refusal::Length)
    }

    // The refusal of a close.
    pub fn refusal_close(self, n: usize) -> Result<(), Refusal>
        ensures { verdict result ≡ refusal (eqb self.sink.storage n) (writer_ok self) true 0 (is_open self) true }
    {
        let s = self.sink;
        let storage = s.storage as usize;
        let unclosed = !self.closed;
        let sound = self.sound();
        entcode::refusal_of(storage == n, sound, true, Ok(()), unclosed, true)
    }
}

// Is v below 2^n? Every number of 32 bits is, from n 32 on.
pub fn below_pow2(v: u32, n: u32) -> bool
    ensures { result ≡ ltb v (2 ^ n) }
{
    if n < 32 { v < (1 << n) } else { true }
}
