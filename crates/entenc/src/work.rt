// Symbols of the range, unchecked: RFC 6716, sections 5.1.1 to 5.1.4.
// `Ready` is of so many symbols to come and of the lent bytes, another count in each contract, so that it is no invariant of a writer.
ghost use Rattle.std.specs.Prelude.{◌≡◌, true, ◌+◌, ◌^◌, ◌<◌, ◌≤◌, length};
ghost use Rattle.entcode.specs.Range.{renorm_steps, cut_start, cut_width};
ghost use Rattle.entcode.specs.Sym.{falls};
ghost use Rattle.entcode.specs.Sym.Shape.{bit, table, uint};
ghost use Rattle.entenc.specs.Write.{wr, shift_w, shifts_w, narrowed, cut_w};
ghost use Rattle.entenc.specs.Symbols.{write_sym};
ghost use Rattle.entenc.specs.Ready.{Renormalizing, Ready};

use super::Writer;
use entenc_sink::Sink;
use entenc_sink::front::{carry, held_by, run_by};
use laws::{pow2, wide};

// Where the places from fl of ft begin in a range.
fn cut_start(rng: u32, fl: u32, ft: u32) -> u32
    requires { (fl < ft) × (ft ≤ rng) }
    ensures { result ≡ cut_start rng fl ft }
{
    if fl == 0 {
        0
    } else {
        rng - rng / ft * (ft - fl)
    }
}

// How much of a range the places fl up to fh of ft have.
fn cut_width(rng: u32, fl: u32, fh: u32, ft: u32) -> u32
    requires { (fl < fh) × (fh ≤ ft) × (ft ≤ rng) }
    ensures { result ≡ cut_width rng fl fh ft }
{
    if fl == 0 {
        rng - rng / ft * (ft - fh)
    } else {
        rng / ft * (fh - fl)
    }
}

impl Writer {
    // One step of ec_enc_normalize.
    pub fn shift(mut self, buf: &mut [u8]) -> Writer
        requires { Renormalizing 1 (wr self buf.old) × (self.rng ≤ 8388608) }
        ensures { wr result buf.new ≡ shift_w (wr self buf.old) }
    {
        let c = self.val / 8388608;
        let s = self.sink;
        let t = carry(s, buf, self.rem, self.ext, c);
        let fresh = Sink {
            storage: t.storage,
            offs: t.offs,
            ends: t.ends,
            error: t.error,
        };
        self.sink = fresh;
        self.rem = held_by(self.rem, c);
        self.ext = run_by(self.ext, c);
        self.val = self.val % 8388608 * 256;
        self.rng = self.rng * 256;
        self.total = self.total + 8;
        self
    }

    // Turns until the range is above 2^23.
    fn normalize(self, buf: &mut [u8]) -> Writer
        requires { Renormalizing 3 (wr self buf.old) }
        ensures { wr result buf.new ≡ shifts_w (renorm_steps self.rng) (wr self buf.old) }
    {
        let mut w = self;
        while w.rng <= 8388608 {
            w = w.shift(buf);
        }
        w
    }

    // The range narrowed to rng, its low end raised by add.
    fn narrow(mut self, buf: &mut [u8], add: u32, rng: u32) -> Writer
        requires { Ready 1 (wr self buf.old) × (0 < rng) × (add + rng ≤ self.rng) }
        ensures { wr result buf.new ≡ shifts_w (renorm_steps rng) (narrowed add rng (wr self buf.old)) }
    {
        self.val = self.val + add;
        self.rng = rng;
        self.normalize(buf)
    }

    // The places fl up to fh of ft.
    pub fn encode(self, buf: &mut [u8], fl: u32, fh: u32, ft: u32) -> Writer
        requires { Ready 1 (wr self buf.old) × (fl < fh) × (fh ≤ ft) × (ft ≤ 32768) }
        ensures { wr result buf.new ≡ cut_w fl fh ft (wr self buf.old) }
    {
        let add = cut_start(self.rng, fl, ft);
        let rng = cut_width(self.rng, fl, fh, ft);
        self.narrow(buf, add, rng)
    }

    // One bit, whose 1 has the upper one of 2^logp parts of the range. Put into its callers: as a call the state would go there and back through memory.
    #[inline(always)]
    pub fn put_bit(self, buf: &mut [u8], value: u32, logp: u32) -> Writer
        requires { Ready 1 (wr self buf.old) × (1 ≤ logp) × (logp ≤ 15) }
        ensures { wr result buf.new ≡ write_sym (bit logp) value (wr self buf.old) }
    {
        let s = self.rng >> logp;
        let r = self.rng - s;
        if value == 0 {
            self.narrow(buf, 0, r)
        } else {
            self.narrow(buf, r, s)
        }
    }

    // The symbol s of a table t, whose entries are places above each symbol, of 2^ftb.
    pub fn put_icdf(self, buf: &mut [u8], s: u32, t: &[u8], ftb: u32) -> Writer
        requires { Ready 1 (wr self buf.old) × (s < length t.now) × (falls (2 ^ ftb) t.now ≡ true) × (ftb ≤ 8) }
        ensures { wr result buf.new ≡ write_sym (table t.now ftb) s (wr self buf.old) }
    {
        let q = self.rng >> ftb;
        let at = s as usize;
        let x = wide(t[at]);
        if s == 0 {
            self.narrow(buf, 0, self.rng - q * x)
        } else {
            let y = wide(t[at - 1]);
            self.narrow(buf, self.rng - q * y, q * (y - x))
        }
    }

    // A number fl below ft, whose upper eight binary digits are a symbol and the others raw bits.
    pub fn put_uint(self, buf: &mut [u8], fl: u32, ft: u32) -> Writer
        requires { Ready 1 (wr self buf.old) × (2 ≤ ft) × (fl < ft) }
        ensures { wr result buf.new ≡ write_sym (uint ft) fl (wr self buf.old) }
    {
        let top = ft - 1;
        let n = entcode::ilog(top);
        if n <= 8 {
            self.encode(buf, fl, fl + 1, ft)
        } else {
            let b = n - 8;
            let u = pow2(b);
            let h = fl / u;
            let w = self.encode(buf, h, h + 1, top / u + 1);
            w.put_bits(buf, fl % u, b)
        }
    }
}
