// Laplace values of a state and a pair that are known to be good: RFC 6716, section 4.3.2.1. They test nothing; the public calls do.
// Reading and writing are two computations, of which one undoes the other.
ghost use Rattle.std.specs.Prelude.{◌≡◌, true};
ghost use Rattle.modes.specs.Laplace.{legal};
ghost use Rattle.entdec.specs.Ready.{Ready};
ghost use Rattle.entenc.specs.Ready.{Ready as Writable};
ghost use Rattle.entenc.specs.Write.{wr};
ghost use Rattle.laplace.specs.Answer.{read_lap, written_as, write_lap};

use super::{LapDone, LapSym, chain};
use entdec::Reader;
use entenc::Writer;

// The value that has the place shown, whose places are taken. The quotient is kept.
pub fn read(d: Reader, s: &[u8], fs: u32, decay: u32) -> LapSym
    requires ready { Ready 1 d }
    requires decay_value { legal fs decay ≡ true }
    ensures { result ≡ read_lap fs decay s.now d }
{
    let fm = d.decoded_place(32768);
    let r = chain::locate(fm, fs, decay);
    let next = d.update(s, r.fl, r.fh, 32768, d.rng / 32768);
    LapSym {
        value: laws::value_of(r.neg, r.mag),
        next,
    }
}

// The places of the value, or of the last one of its sign that has any. That one counts as written.
pub fn write(w: Writer, buf: &mut [u8], value: i32, fs: u32, decay: u32) -> LapDone
    requires writable { Writable 1 (wr w buf.old) }
    requires decay_value { legal fs decay ≡ true }
    ensures { (result.value ≡ written_as fs decay value)
        × (wr result.next buf.new ≡ write_lap fs decay value (wr w buf.old)) }
{
    let r = chain::span_of(value, fs, decay);
    let v = laws::value_of(r.neg, r.mag);
    let next = w.encode(buf, r.fl, r.fh, 32768);
    LapDone { value: v, next }
}
