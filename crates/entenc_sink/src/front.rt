// Bytes at the front of the storage, and the carry that they wait for: RFC 6716, section 5.1.1.2.
// `Fit` is of a sink with its lent bytes, so that it is no invariant of a sink.
ghost use Rattle.std.specs.Prelude.{◌≡◌, ◌<◌, ◌≤◌, replicate};
ghost use Rattle.entenc_sink.specs.Out.{out, put_front, emit};
ghost use Rattle.entenc_sink.specs.Carry.{lead, settled, held_by, run_by};
ghost use Rattle.entenc_sink.specs.Fit.{Fit};

use super::Sink;

// One byte at the front; where the storage is full, the error mark. Sinks are made anew, field by field: a copy takes along the bytes after
// the mark, which keeps the whole sink in memory.
fn put_front(s: Sink, buf: &mut [u8], b: u8) -> Sink
    requires { Fit (out s buf.old) }
    ensures { out result buf.new ≡ put_front b (out s buf.old) }
{
    let at = s.offs as usize;
    if s.offs + s.ends < s.storage {
        buf[at] = b;
        Sink {
            storage: s.storage,
            offs: s.offs + 1,
            ends: s.ends,
            error: s.error,
        }
    } else {
        Sink {
            storage: s.storage,
            offs: s.offs,
            ends: s.ends,
            error: true,
        }
    }
}

// The byte b, n times.
fn put_run(s: Sink, buf: &mut [u8], b: u8, n: u32) -> Sink
    requires { Fit (out s buf.old) }
    ensures { out result buf.new ≡ emit (replicate n b) (out s buf.old) }
{
    let mut t = s;
    for _ in 0..n {
        t = put_front(t, buf, b);
    }
    t
}

// The held byte with the carry k, where one is held.
fn put_lead(s: Sink, buf: &mut [u8], rem: u32, k: u32) -> Sink
    requires { Fit (out s buf.old) × (rem ≤ 256) × (k < 2) }
    ensures { out result buf.new ≡ emit (lead rem k) (out s buf.old) }
{
    if rem < 256 {
        put_front(s, buf, ((rem + k) % 256) as u8)
    } else {
        s
    }
}

// The bytes that settle where c, the next byte with a carry at 256, comes after the held byte and its run.
pub fn carry(s: Sink, buf: &mut [u8], rem: u32, ext: u32, c: u32) -> Sink
    requires { Fit (out s buf.old) × (rem ≤ 256) × (c < 512) }
    ensures { out result buf.new ≡ emit (settled rem ext c) (out s buf.old) }
{
    if c == 255 {
        return s;
    }
    let k = c / 256;
    let t = put_lead(s, buf, rem, k);
    put_run(t, buf, ((255 + k) % 256) as u8, ext)
}

// The byte held after c.
pub fn held_by(rem: u32, c: u32) -> u32
    ensures { result ≡ held_by rem c }
{
    if c == 255 { rem } else { c % 256 }
}

// The run that waits after c.
pub fn run_by(ext: u32, c: u32) -> u32
    requires { ext < 1048576 }
    ensures { result ≡ run_by ext c }
{
    if c == 255 { ext + 1 } else { 0 }
}
