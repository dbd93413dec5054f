// Shapes of bands from their pulse words, without rotation: vq.rs; RFC 6716, section 4.3.4.
#![tactic(auto)]

ghost use Rattle.std.specs.Prelude.{◌≡◌};
ghost use Rattle.vq.specs.Answer.{shape_request, after, unquantised};

use entcode::Refusal;
use entdec::Reader;

pub mod gate;
pub mod root;
pub mod work;

// No `Coded`: the definitions have its number as `mask`.
// What reading a shape gives beside it: which parts of the band hold a pulse, and the reader after it.
#[derive(Clone, Copy)]
pub struct ReadShape {
    pub mask: u32,
    pub next: Reader,
}

// Reads a vector of n places and k pulses from the packet s; its shape with that gain goes into the lent one.
pub fn alg_unquant(
    d: Reader,
    s: &[u8],
    shape: &mut [f32],
    n: i32,
    k: i32,
    spread: i32,
    b: i32,
    gain: f32,
) -> Result<ReadShape, Refusal>
    ensures { after result shape.new ≡ unquantised (shape_request n k spread b gain) s.now d shape.old }
{
    gate::refusal_shape(d, s.len(), shape.len(), n, k, spread, b, gain)?;
    let places = laws::clipped(n) as usize;
    let pulses = laws::clipped(k) as usize;
    let parts = laws::clipped(b) as usize;
    Ok(work::unquant(d, s, shape, places, pulses, parts, gain))
}
