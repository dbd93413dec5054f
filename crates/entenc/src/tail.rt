// Closing a writer: RFC 6716, section 5.1.5.
ghost use Rattle.std.specs.Prelude.{◌≡◌, ◌+◌, ◌^◌, ◌<◌, ◌≤◌};
ghost use Rattle.entenc.specs.Write.{wr, shifts_w};
ghost use Rattle.entenc.specs.Close.{rounded, tail_bits, tail_end, ending_at, rest_rem, close_w};
ghost use Rattle.entenc.specs.Ready.{Ready};

use super::Writer;
use entenc_sink::front::carry;
use entenc_sink::gap::finish;
use entenc_sink::raw::flush;
use laws::pow2;

// val rounded up to a multiple of 2^m.
fn round_up(val: u32, m: u32) -> u32
    requires { (m ≤ 31) × (val + 2 ^ m ≤ 4294967296) }
    ensures { result ≡ rounded m val }
{
    let u = pow2(m);
    (val + (u - 1)) / u * u
}

// The last number of a message, and how many of its bits count.
#[derive(Clone, Copy)]
pub struct Tail {
    pub bits: u32,
    pub end: u32,
}

// The shortest number of the range that all that may follow leaves in it.
fn last_of(val: u32, rng: u32) -> Tail
    requires { (8388608 < rng) × (val + rng < 4294967296) }
    ensures { (result.bits ≡ tail_bits val rng) × (result.end ≡ tail_end val rng) }
{
    let z = u32::leading_zeros(rng);
    let m = 31 - z;
    let e = round_up(val, m);
    let u = pow2(m);
    if val + rng - e < u {
        let h = round_up(val, m - 1);
        Tail {
            bits: z + 1,
            end: h,
        }
    } else {
        Tail { bits: z, end: e }
    }
}

// What is held once all is out: nothing came, or a zero.
fn rest_rem(rem: u32, ext: u32) -> u32
    ensures { result ≡ rest_rem rem ext }
{
    if (256 <= rem) & (ext <= 0) { rem } else { 0 }
}

impl Writer {
    // The bytes of the number end, k of them. The range plays no part.
    fn last_bytes(mut self, buf: &mut [u8], end: u32, k: u32) -> Writer
        requires { Ready 1 (wr self buf.old) × (end + 1 < 4294967296) × (k ≤ 2) }
        ensures { wr result buf.new ≡ shifts_w k (ending_at end 1 (wr self buf.old)) }
    {
        self.val = end;
        self.rng = 1;
        if k == 0 {
            self
        } else if k == 1 {
            self.shift(buf)
        } else {
            let w = self.shift(buf);
            w.shift(buf)
        }
    }

    // The last bytes, the gap cleared, the last raw bits.
    pub fn done(mut self, buf: &mut [u8]) -> Writer
        requires { Ready 1 (wr self buf.old) }
        ensures { wr result buf.new ≡ close_w (wr self buf.old) }
    {
        let t = last_of(self.val, self.rng);
        let bits = t.bits;
        let k = (bits + 7) / 8;
        let w = self.last_bytes(buf, t.end, k);
        let s = w.sink;
        let s2 = carry(s, buf, w.rem, w.ext, 0);
        let f = flush(s2, buf, self.window, self.waiting);
        let s3 = f.sink;
        let s4 = finish(s3, buf, f.window, f.waiting, 8 * k - bits);
        self.sink = s4;
        self.rem = rest_rem(w.rem, w.ext);
        self.ext = 0;
        self.closed = true;
        self
    }
}
