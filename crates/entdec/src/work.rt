// The reads of a state that is known to be good: RFC 6716, sections 4.1.2 to 4.1.5. They test nothing; the public calls do.
// `Ready` is of so many symbols to come, another count in each contract, so that it is no invariant of a reader, of which any numbers are handed in.
// Bounds on single numbers stand in each contract: a type for one would be made at each call and opened at each sum.
ghost use Rattle.std.specs.Prelude.{◌≡◌, true, ◌-◌, ◌/◌, ◌^◌, ◌≤◌, ◌<◌, length};
ghost use Rattle.entcode.specs.Range.{renorm_steps};
ghost use Rattle.entcode.specs.Sym.{falls, flat_model};
ghost use Rattle.entcode.specs.Sym.Shape.{bit, table, uint, raw};
ghost use Rattle.entdec.specs.Read.{with_range, with_raw, pull, pulls, decoded_place, update, fetch, fetches, shed};
ghost use Rattle.entdec.specs.Symbols.{read_one, read_long, read_sym};
ghost use Rattle.entdec.specs.Ready.{Ready, MidSymbol};

use super::{ReadSymbol, Reader, bytes};

impl Reader {
    // Section 4.1.2.1, one step of ec_dec_normalize: eight bits come in.
    fn pull(mut self, s: &[u8]) -> Self
        requires { (self.val < self.rng) × (self.rng ≤ 8388608) × (self.total < 4294967000) × (self.offs < 4294967295) }
        ensures { result ≡ pull s.now self }
    {
        let b = laws::byte_at(s, self.offs as usize);
        self.val = self.val * 256 + (255 - (self.rem % 2 * 128 + b / 2));
        self.rng = self.rng * 256;
        self.offs = bytes::advanced(self.offs, s.len());
        self.rem = b;
        self.total = self.total + 8;
        self
    }

    // Section 4.1.2.1: until the range is above 2^23.
    pub fn normalize(mut self, s: &[u8]) -> Self
        requires { MidSymbol self }
        ensures { result ≡ pulls (renorm_steps self.rng) s.now self }
    {
        while self.rng <= 8388608 {
            self = self.pull(s);
        }
        self
    }

    // The range and the value become those of the symbol that is read, and the range is brought above 2^23.
    fn narrow(mut self, s: &[u8], rng: u32, val: u32, ext: u32) -> Self
        requires { MidSymbol (with_range self self.offs rng val ext self.rem self.total) }
        ensures { result ≡ pulls (renorm_steps rng) s.now (with_range self self.offs rng val ext self.rem self.total) }
    {
        self.rng = rng;
        self.val = val;
        self.ext = ext;
        self.normalize(s)
    }

    // Section 4.1.2, first step: the place in 0..ft - 1 that the value shows.
    pub fn decoded_place(self, ft: u32) -> u32
        requires { (0 < ft) × (ft ≤ self.rng) × (self.val < self.rng) }
        ensures { (result ≡ decoded_place ft self) × (result < ft) }
    {
        let k = self.val / (self.rng / ft) + 1;
        ft - k.min(ft)
    }

    // Section 4.1.2, second step: the symbol of the places fl up to fh of ft is taken, among which the value shows one.
    pub fn update(self, s: &[u8], fl: u32, fh: u32, ft: u32, ext: u32) -> Self
        requires ready { Ready 1 self }
        requires fl_lt_fh { (fl < fh) × (fh ≤ ft) × (ft ≤ 32768) × (fl ≤ decoded_place ft self) × (decoded_place ft self < fh) }
        ensures { result ≡ update fl fh ft ext s.now self }
    {
        let q = self.rng / ft;
        let low = q * (ft - fh);
        if fl == 0 {
            self.narrow(s, self.rng - low, self.val - low, ext)
        } else {
            self.narrow(s, q * (fh - fl), self.val - low, ext)
        }
    }

    // Section 4.1.3.2: a bit that is 1 in one of 2^logp places.
    pub fn bit(self, s: &[u8], logp: u32) -> ReadSymbol
        requires ready { Ready 1 self }
        requires le_logp { (1 ≤ logp) × (logp ≤ 15) }
        ensures { result ≡ read_sym (bit logp) s.now self }
    {
        let q = self.rng >> logp;
        let ext = self.ext;
        if self.val < q {
            ReadSymbol {
                value: 1,
                next: self.narrow(s, q, self.val, ext),
            }
        } else {
            ReadSymbol {
                value: 0,
                next: self.narrow(s, self.rng - q, self.val - q, ext),
            }
        }
    }

    // Section 4.1.3.3: a symbol of a table, whose entries say how many of the 2^ftb places are above each symbol.
    pub fn symbol(self, s: &[u8], t: &[u8], ftb: u32) -> ReadSymbol
        requires ready { Ready 1 self }
        requires le_ftb { (1 ≤ ftb) × (ftb ≤ 8) }
        requires t_nonzero { (0 < length t.now) × (falls (2 ^ ftb) t.now ≡ true) }
        ensures { result ≡ read_sym (table t.now ftb) s.now self }
    {
        let q = self.rng >> ftb;
        let v = self.val;
        let mut k = 0;
        let mut hi = self.rng;
        let mut lo = q * laws::wide(t[0]);
        // The last entry is 0, so the walk needs no test of its index, which a `for` over the table would make, and no answer after its end.
        while v < lo {
            hi = lo;
            k += 1;
            lo = q * laws::wide(t[k]);
        }
        ReadSymbol {
            value: k as u32,
            next: self.narrow(s, hi - lo, v - lo, self.ext),
        }
    }

    // Section 4.1.4: a byte from the end goes above the bits that wait.
    fn fetch(mut self, s: &[u8]) -> Self
        requires { (self.waiting ≤ 24) × (self.ends < 4294967295) }
        ensures { result ≡ fetch s.now self }
    {
        let b = bytes::byte_back(s, self.ends as usize);
        self.ends = bytes::advanced(self.ends, s.len());
        self.window = self.window | (b << self.waiting);
        self.waiting = self.waiting + 8;
        self
    }

    // Bytes as long as the window of 32 bits has room.
    fn fill(mut self, s: &[u8]) -> Self
        requires { self.ends ≤ 1048576 }
        ensures { result ≡ fetches ((32 - self.waiting) / 8) s.now self }
    {
        while self.waiting <= 24 {
            self = self.fetch(s);
        }
        self
    }

    // The lowest n bits of the window.
    fn shed(mut self, n: u32) -> ReadSymbol
        requires { (n ≤ 25) × (n ≤ self.waiting) × (self.total ≤ 1048576) }
        ensures { result ≡ shed n self }
    {
        let value = self.window % (1 << n);
        self.window = self.window >> n;
        self.waiting = self.waiting - n;
        self.total = self.total + n;
        ReadSymbol { value, next: self }
    }

    // Section 4.1.4: n raw bits.
    pub fn raw(self, s: &[u8], n: u32) -> ReadSymbol
        requires { (n ≤ 25) × (self.ends ≤ 1048576) × (self.total ≤ 1048576) }
        ensures { result ≡ read_sym (raw n) s.now self }
    {
        if self.waiting < n {
            self.fill(s).shed(n)
        } else {
            self.shed(n)
        }
    }

    // Section 4.1.5, at most eight bits: one of ft places. The quotient is kept.
    fn flat(self, s: &[u8], ft: u32) -> ReadSymbol
        requires ready { Ready 1 self }
        requires le_ft { (2 ≤ ft) × (ft ≤ 256) }
        ensures { result ≡ read_one (flat_model ft) s.now self }
    {
        let f = self.decoded_place(ft);
        ReadSymbol {
            value: f,
            next: self.update(s, f, f + 1, ft, self.rng / ft),
        }
    }

    // The error mark is set.
    fn marked(mut self) -> Self
        ensures { result ≡ with_raw self self.ends self.window self.waiting self.total true }
    {
        self.error = true;
        self
    }

    // Section 4.1.5: a number up to m, the b lowest of its digits raw. A value past m is m, with the mark.
    fn long(self, s: &[u8], m: u32, b: u32) -> ReadSymbol
        requires ready { Ready 1 self }
        requires b_bound { (b ≤ 24) × (1 ≤ m / 2 ^ b) × (m / 2 ^ b < 256) }
        ensures { result ≡ read_long m b s.now self }
    {
        let y = self.flat(s, (m >> b) + 1);
        let top = y.value;
        let mid = y.next;
        let z = mid.raw(s, b);
        let next = z.next;
        let v = (top << b) + z.value;
        if v <= m {
            ReadSymbol { value: v, next }
        } else {
            ReadSymbol {
                value: m,
                next: next.marked(),
            }
        }
    }

    // Section 4.1.5: a number below ft.
    pub fn uniform(self, s: &[u8], ft: u32) -> ReadSymbol
        requires ready { Ready 1 self }
        requires le_ft { 2 ≤ ft }
        ensures { result ≡ read_sym (uint ft) s.now self }
    {
        let b = entcode::ilog(ft - 1);
        if b <= 8 {
            self.flat(s, ft)
        } else {
            self.long(s, ft - 1, b - 8)
        }
    }
}
