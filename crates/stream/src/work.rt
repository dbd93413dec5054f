// A frame that is applied, behind the gate. It tests nothing; the public call does.
ghost use Rattle.std.specs.Prelude.{◌≡◌, ◌≤◌};
ghost use Rattle.entdec.specs.Ready.{Ready};
ghost use Rattle.stream.specs.Frame.{applied_counts, said_framed};

use crate::{Framed, Record};
use entdec::Reader;
use quant_bands::bands::Frame;
use quant_bands::work::coarse;

// One coarse decode, and the next number goes up by one.
pub fn apply(rec: Record, d: Reader, s: &[u8], f: Frame) -> Framed
    requires { (rec.next ≤ 4294967295) × Ready 42 d }
    ensures { said_framed result ≡ applied_counts rec d s.now f.bands.c f.lm f.intra f.bands.start f.bands.end }
{
    let mut e = rec.energies;
    let next = coarse(d, s, &mut e, f);
    Framed {
        answer: Ok(()),
        rec: Record {
            energies: e,
            next: rec.next + 1,
        },
        next,
    }
}
