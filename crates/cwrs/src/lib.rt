// Pulse words: RFC 6716, sections 4.3.4.2 and 5.3.8.2.
#![tactic(auto)]

ghost use Rattle.std.specs.Prelude.{◌≡◌};
ghost use Rattle.entenc.specs.Write.{wr};
ghost use Rattle.entenc.specs.Answer.{after};
ghost use Rattle.cwrs.specs.Answer.{after_read, reading, writing};

use entcode::Refusal;
use entdec::Reader;
use entenc::Writer;

pub mod gate;
pub mod work;

// No `Coded`: `found_of` and the theorems over it have its number as `energy`.
// What reading a vector finds beside it: its energy, and the reader after it.
#[derive(Clone, Copy)]
pub struct Found {
    pub energy: u32,
    pub next: Reader,
}

// Reads a vector of n places and k pulses into the first n of 176 places, section 4.3.4.2.
pub fn decode_pulses(d: Reader, s: &[u8], y: &mut [i32], n: u32, k: u32) -> Result<Found, Refusal>
    ensures { after_read result y.new ≡ reading n k s.now d y.old }
{
    gate::refusal_read(d, s.len(), y.len(), n, k)?;
    Ok(work::decode(d, s, y, n as usize, k as usize))
}

// Writes the vector of k pulses that stands in the first n of 176 places, section 5.3.8.2.
pub fn encode_pulses(
    w: Writer,
    buf: &mut [u8],
    y: &[i32],
    n: u32,
    k: u32,
) -> Result<Writer, Refusal>
    ensures { after result buf.new ≡ writing n k y.now (wr w buf.old) }
{
    gate::refusal_write(w, buf.len(), y, n, k)?;
    Ok(work::encode(w, buf, y, n as usize, k as usize))
}
