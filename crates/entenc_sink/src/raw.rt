// Raw bits, from the end of the storage backwards: RFC 6716, section 5.1.3.
ghost use Rattle.std.specs.Prelude.{◌≡◌, ◌/◌, ◌%◌};
ghost use Rattle.entenc_sink.specs.Out.{out, put_end, flushed, left_of};
ghost use Rattle.entenc_sink.specs.Fit.{Fit};

use super::Sink;

// One byte at the end; where the storage is full, the error mark.
fn put_end(s: Sink, buf: &mut [u8], b: u8) -> Sink
    requires { Fit (out s buf.old) }
    ensures { out result buf.new ≡ put_end b (out s buf.old) }
{
    if s.offs + s.ends < s.storage {
        let ends = s.ends + 1;
        let at = (s.storage - ends) as usize;
        buf[at] = b;
        Sink {
            storage: s.storage,
            offs: s.offs,
            ends,
            error: s.error,
        }
    } else {
        Sink {
            storage: s.storage,
            offs: s.offs,
            ends: s.ends,
            error: true,
        }
    }
}

// A sink, with what is left of a window and how many bits of it wait.
#[derive(Clone, Copy)]
pub struct Flushed {
    pub sink: Sink,
    pub window: u32,
    pub waiting: u32,
}

// The whole bytes of the window go out.
pub fn flush(s: Sink, buf: &mut [u8], window: u32, waiting: u32) -> Flushed
    requires { Fit (out s buf.old) }
    ensures { (out result.sink buf.new ≡ flushed (waiting / 8) window (out s buf.old))
        × (result.window ≡ left_of (waiting / 8) window)
        × (result.waiting ≡ waiting % 8) }
{
    let mut t = s;
    let mut w = window;
    for _ in 0..waiting / 8 {
        t = put_end(t, buf, (w % 256) as u8);
        w /= 256;
    }
    Flushed {
        sink: t,
        window: w,
        waiting: waiting % 8,
    }
}
