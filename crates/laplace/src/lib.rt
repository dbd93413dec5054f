// Laplace values read and written: RFC 6716, section 4.3.2.1.
#![tactic(auto)]

ghost use Rattle.std.specs.Prelude.{◌≡◌};
ghost use Rattle.entcode.specs.Said.{said};
ghost use Rattle.entenc.specs.Write.{wr};
ghost use Rattle.laplace.specs.Answer.{reading, after, writing};

use entcode::{Coded, Refusal};
use entdec::Reader;
use entenc::Writer;

pub mod chain;
pub mod pairs;
pub mod work;

// A value read, and the state after it.
pub type LapSym = Coded<i32, Reader>;

// The value that counts as written, and the state after it.
pub type LapDone = Coded<i32, Writer>;

// A Laplace value of the pair fs and decay. Refused as 2, 1 (the state, the pair) and 4.
pub fn ec_laplace_decode(d: Reader, s: &[u8], fs: u32, decay: u32) -> Result<LapSym, Refusal>
    ensures { said result ≡ reading fs decay s.now d }
{
    let known = pairs::pair_known(fs, decay);
    d.refusal(s.len(), true, known, true, Ok(()))?;
    Ok(work::read(d, s, fs, decay))
}

// A Laplace value of the pair fs and decay, adjusted where it has no place. Refused as 2, 1 (the state, the pair, the value), 12 and 4.
pub fn ec_laplace_encode(
    w: Writer,
    buf: &mut [u8],
    value: i32,
    fs: u32,
    decay: u32,
) -> Result<LapDone, Refusal>
    ensures { after result buf.new ≡ writing fs decay value (wr w buf.old) }
{
    let ok = pairs::pair_known(fs, decay) & laws::in_range(value, -32768, 32767);
    w.refusal(buf.len(), true, ok, true, Ok(()))?;
    Ok(work::write(w, buf, value, fs, decay))
}
