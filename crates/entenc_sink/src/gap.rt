// The gap between the two places, and the last raw bits, as a close leaves them: RFC 6716, section 5.1.5.
ghost use Rattle.std.specs.Prelude.{◌≡◌, ◌+◌, ◌<◌, ◌≤◌, length};
ghost use Rattle.entenc_sink.specs.Out.{out};
ghost use Rattle.entenc_sink.specs.Gap.{zeroed, merged_byte, busts, finished};
ghost use Rattle.entenc_sink.specs.Fit.{Fit};

use super::Sink;
use laws::pow2;

// n zeros from a on.
fn clear(buf: &mut [u8], a: usize, n: usize)
    requires { a + n ≤ length buf.old }
    ensures { buf.new ≡ zeroed n a buf.old }
{
    buf[a..a + n].fill(0);
}

// The bits of b set in the byte at a place.
fn join_at(buf: &mut [u8], at: usize, b: u8)
    requires { at < length buf.old }
    ensures { buf.new ≡ merged_byte at buf.old b }
{
    let old = buf[at];
    buf[at] = old | b;
}

// Do the range coder's bytes leave the raw bits no byte, and too few spare bits?
fn is_bust(s: Sink, used: u32, spare: u32) -> bool
    requires { s.offs + s.ends < 4294967296 }
    ensures { result ≡ busts s used spare }
{
    (s.storage <= s.offs + s.ends) & (spare < used)
}

// The gap cleared, and the last raw bits in the last free byte.
pub fn finish(s: Sink, buf: &mut [u8], window: u32, used: u32, spare: u32) -> Sink
    requires { Fit (out s buf.old) × (spare ≤ 31) }
    ensures { out result buf.new ≡ finished window used spare (out s buf.old) }
{
    if s.error {
        return s;
    }
    let a = s.offs as usize;
    let n = (s.storage - s.ends - s.offs) as usize;
    clear(buf, a, n);
    if used == 0 {
        return s;
    }
    let mut t = s;
    if s.storage <= s.ends {
        t.error = true;
        return t;
    }
    let at = (s.storage - s.ends - 1) as usize;
    if is_bust(s, used, spare) {
        join_at(buf, at, (window % pow2(spare) % 256) as u8);
        t.error = true;
        t
    } else {
        join_at(buf, at, (window % 256) as u8);
        t
    }
}
