// Raw bits: RFC 6716, section 5.1.3.
ghost use Rattle.std.specs.Prelude.{◌≡◌, [], ◌+◌, ◌^◌, ◌<◌, ◌≤◌};
ghost use Rattle.entenc.specs.Write.{wr, topped_w, bits_w};
ghost use Rattle.entenc.specs.Ready.{Ready};

use super::Writer;
use entenc_sink::raw::flush;

impl Writer {
    // n bits of v on top of those that wait. No byte changes, so that any bytes do.
    fn topped(mut self, v: u32, n: u32) -> Writer
        requires { (self.waiting + n ≤ 32) × (1 ≤ n) × (v < 2 ^ n) × (self.total ≤ 1048576) }
        ensures { result ≡ (topped_w n v (wr self [])).st }
    {
        self.window = self.window | (v << self.waiting);
        self.waiting = self.waiting + n;
        self.total = self.total + n;
        self
    }

    // n raw bits of v.
    pub fn put_bits(mut self, buf: &mut [u8], v: u32, n: u32) -> Writer
        requires { Ready 0 (wr self buf.old) × (1 ≤ n) × (n ≤ 25) × (v < 2 ^ n) }
        ensures { wr result buf.new ≡ bits_w n v (wr self buf.old) }
    {
        if self.waiting + n <= 32 {
            return self.topped(v, n);
        }
        let s = self.sink;
        let f = flush(s, buf, self.window, self.waiting);
        let t = f.sink;
        self.sink = t;
        self.window = f.window;
        self.waiting = f.waiting;
        self.topped(v, n)
    }
}
