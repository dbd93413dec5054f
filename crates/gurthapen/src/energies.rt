// The energies of the bands: the calls of quant_bands.
ghost use Rattle.std.specs.Prelude.{◌≡◌};
ghost use Rattle.gurthapen_answer.specs.Result as answer;
ghost use Rattle.gurthapen.specs.Energies.{coarse_call, finalise_call};

use entdec::Reader;
use gurthapen_answer::coder::leave_coder;
use gurthapen_state::coder::{Coder, is_stored};

// The coarse energies of the bands start..end-1, in place.
pub fn gurthapen_unquant_coarse_energy(
    state: &mut [i64],
    s: &[u8],
    energies: &mut [f32],
    c: i32,
    lm: i32,
    start: i32,
    end: i32,
    intra: i32,
) -> u32
    ensures { answer.result result (state.new, energies.new)
        ≡ coarse_call c lm start end intra s.now state.old energies.old }
{
    if is_stored(state) {
        let d = Reader::load(state);
        let a = quant_bands::unquant_coarse_energy(d, s, energies, c, lm, start, end, intra);
        return leave_coder(a, state);
    }
    2
}

// The bits left over, spent on the energies of the bands start..end-1, in place.
pub fn gurthapen_unquant_energy_finalise(
    state: &mut [i64],
    s: &[u8],
    energies: &mut [f32],
    c: i32,
    start: i32,
    end: i32,
    fine: &[i32],
    priorities: &[i32],
    left: i32,
) -> u32
    ensures { answer.result result (state.new, energies.new)
        ≡ finalise_call c start end fine.now priorities.now left s.now state.old energies.old }
{
    if is_stored(state) {
        let d = Reader::load(state);
        let a = quant_bands::unquant_energy_finalise(
            d, s, energies, c, start, end, fine, priorities, left,
        );
        return leave_coder(a, state);
    }
    2
}
