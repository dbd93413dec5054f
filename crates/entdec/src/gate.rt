// What a read is refused with: document 01, "When the answer is no".
ghost use Rattle.std.specs.Prelude.{◌≡◌, ◌&&◌, ◌^◌, ltb, leb, eqb, length};
ghost use Rattle.entcode.specs.Said.{verdict};
ghost use Rattle.entcode.specs.Sym.{falls};
ghost use Rattle.entdec.specs.Rule.{reader_ok, read_refusal};

use super::Reader;
use entcode::{Refusal, Verdict};

impl Reader {
    // Does the state meet its rule?
    pub fn sound(self) -> bool
        ensures { result ≡ reader_ok self }
    {
        entcode::counts_ok(self.storage, self.rng, self.waiting, self.total)
            & (self.val < self.rng)
            & (self.offs <= self.storage)
            & (self.ends <= self.storage)
            & (self.rem <= 255)
    }

    // Are n lent bytes as many as the state has, and the call's other lengths right? Asked before an entry of a list is read.
    pub fn sized(self, n: usize, lengths: bool) -> bool
        ensures { result ≡ (eqb self.storage n && lengths) }
    {
        (self.storage as usize == n) & lengths
    }

    // The refusal of a call that can read symbols. n bytes are lent; lengths, numbers, lists and special are what the call found.
    pub fn refusal<V: Verdict>(
        self,
        n: usize,
        lengths: bool,
        numbers: bool,
        lists: bool,
        special: V,
    ) -> V
        ensures { V.number result ≡ read_refusal n self lengths numbers lists (V.number special) }
    {
        let fits = entcode::tell_ok(self.storage, self.total, self.rng);
        let known = self.sound() & numbers;
        entcode::refusal_of(self.sized(n, lengths), known, lists, special, true, fits)
    }

    // The refusal of reading a table's symbol. The table is read once every length is right.
    pub fn refusal_table(self, n: usize, t: &[u8], ftb: u32) -> Result<(), Refusal>
        ensures { verdict result ≡ read_refusal n self (ltb 0 (length t.now)) (leb 1 ftb && leb ftb 8) (falls (2 ^ ftb) t.now) 0 }
    {
        let some = 0 < t.len();
        if self.sized(n, some) {
            let falls = entcode::table::table_ok(t, ftb);
            return self.refusal(n, some, (1 <= ftb) & (ftb <= 8), falls, Ok(()));
        }
        Err(Refusal::Length)
    }
}
