// The bands start..end-1, one after the other, behind the gate. They test nothing; the public calls do.
// Energies, fine bits and priorities are lent slices, as the public calls have them: their lengths stand in each contract.
ghost use Rattle.std.specs.Prelude.{◌≡◌, ◌-◌, length};
ghost use Rattle.laws.specs.Places.{over_places};
ghost use Rattle.modes.specs.EnergyModel.{energy_model};
ghost use Rattle.entdec.specs.Ready.{Ready};
ghost use Rattle.quant_bands.specs.Coarse.{coarse_start, coarse, coarse_band, energies_after, coarse_state};
ghost use Rattle.quant_bands.specs.Finalise.{finalise, spending, spend_pass};
ghost use Rattle.quant_bands.specs.Question.{count_at};

use crate::bands::{Bands, Frame};
use crate::coarse_band::{Hands, coarse_band};
use crate::last_bits::{LeftOver, spend_band};
use entdec::Reader;

// The coarse energies, with the model lent.
fn coarse_bands(d: Reader, s: &[u8], energies: &mut [f32], t: &[u8], f: Frame) -> Hands
    requires lent { (length energies.old ≡ 42) × (t.now ≡ energy_model) }
    requires ready { Ready 42 d }
    ensures { coarse_state energies.new result.first result.second result.next
        ≡ over_places (coarse_band f.bands.c f.lm f.intra s.now) f.bands.start (f.bands.end - f.bands.start) (coarse_start d energies.old) }
{
    let mut g = Hands {
        first: 0.0,
        second: 0.0,
        next: d,
    };
    for i in f.bands.start..f.bands.end {
        g = coarse_band(energies, t, f, i, s, g);
    }
    g
}

// The coarse energies of a frame, in place. The reader after them is answered.
pub fn coarse(d: Reader, s: &[u8], energies: &mut [f32], f: Frame) -> Reader
    requires lent { length energies.old ≡ 42 }
    requires ready { Ready 42 d }
    ensures { energies_after energies.new result ≡ coarse f.bands.c f.lm f.intra f.bands.start f.bands.end s.now d energies.old }
{
    let t = modes::energy_model::table();
    let g = coarse_bands(d, s, energies, &t, f);
    g.next
}

// The last bits, in the pass of a priority. Where too few bits are left for a band's channels, no later band takes one.
fn spend_pass(
    g: LeftOver,
    s: &[u8],
    energies: &mut [f32],
    pass: u32,
    b: Bands,
    fine: &[i32],
    priorities: &[i32],
) -> LeftOver
    requires lent { (length energies.old ≡ 42) × (length fine.now ≡ 21) × (length priorities.now ≡ 21) }
    requires ready { Ready 42 g.next }
    ensures { spending energies.new result.left result.next
        ≡ spend_pass b.c pass (count_at fine.now) (count_at priorities.now) b.start b.end s.now
        (spending energies.old g.left g.next) }
{
    let mut y = g;
    for i in b.start..b.end {
        if y.left < b.c {
            break;
        }
        y = spend_band(energies, fine, priorities, pass, b.c, i, s, y);
    }
    y
}

// The last bits of a frame, in place: one call, in a loop over the priorities, so that a pass is inlined. The reader after them is answered.
pub fn finalise(
    d: Reader,
    s: &[u8],
    energies: &mut [f32],
    b: Bands,
    fine: &[i32],
    priorities: &[i32],
    left: u32,
) -> Reader
    requires lent { (length energies.old ≡ 42) × (length fine.now ≡ 21) × (length priorities.now ≡ 21) }
    requires ready { Ready 84 d }
    ensures { energies_after energies.new result
        ≡ finalise b.c (count_at fine.now) (count_at priorities.now) b.start b.end left s.now d energies.old }
{
    let mut y = LeftOver { left, next: d };
    for pass in 0..2 {
        y = spend_pass(y, s, energies, pass, b, fine, priorities);
    }
    y.next
}
