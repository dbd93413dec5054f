// The energies of the bands, decoded: quant_bands.rs, unquant_coarse_energy and unquant_energy_finalise; RFC 6716, section 4.3.2.
#![tactic(auto)]

pub mod bands;
pub mod coarse_band;
pub mod edge;
pub mod gate;
pub mod last_bits;
pub mod prediction;
pub mod steps;
pub mod work;

ghost use Rattle.std.specs.Prelude.{◌≡◌};
ghost use Rattle.quant_bands.specs.Answer.{after, coarse_reading, finalise_reading};

use bands::{Bands, Frame};
use entcode::Refusal;
use entdec::Reader;
use laws::clipped;

// Decodes the coarse energies of the bands start..end-1 from the packet s, in place. Refused as 2 (bytes, 42 energies), 1 (the state, C, LM,
// the bands, intra), 3 (an energy that is not finite) and 4.
pub fn unquant_coarse_energy(
    d: Reader,
    s: &[u8],
    energies: &mut [f32],
    c: i32,
    lm: i32,
    start: i32,
    end: i32,
    intra: i32,
) -> Result<Reader, Refusal>
    ensures { after result energies.new ≡ coarse_reading c lm start end intra s.now d energies.old }
{
    gate::refusal_coarse(d, s.len(), energies, c, lm, start, end, intra)?;
    let f = Frame::of(c, lm, start, end, intra);
    Ok(work::coarse(d, s, energies, f))
}

// Spends the bits left over on the energies of the bands start..end-1, in place: priority 0 first, one raw bit for each channel. Refused as
// 2 (bytes, 42 energies, two lists of 21), 1 (the state, C, the bands), 3 (an energy that is not finite, fine bits, priorities) and 4.
pub fn unquant_energy_finalise(
    d: Reader,
    s: &[u8],
    energies: &mut [f32],
    c: i32,
    start: i32,
    end: i32,
    fine: &[i32],
    priorities: &[i32],
    left: i32,
) -> Result<Reader, Refusal>
    ensures { after result energies.new
        ≡ finalise_reading c start end fine.now priorities.now left s.now d energies.old }
{
    gate::refusal_finalise(d, s.len(), energies, c, start, end, fine, priorities)?;
    let b = Bands::of(c, start, end);
    let bits = clipped(left);
    Ok(work::finalise(d, s, energies, b, fine, priorities, bits))
}
