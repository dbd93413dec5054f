// One band of the last bits: quant_bands.rs, unquant_energy_finalise, the inner loops.
ghost use Rattle.std.specs.Prelude.{◌≡◌, ◌≤◌, ◌<◌, length};
ghost use Rattle.entdec.specs.Ready.{Ready};
ghost use Rattle.quant_bands.specs.Finalise.{offset_of, spending, spend_at, spend_band};
ghost use Rattle.quant_bands.specs.Question.{count_at};

use entdec::Reader;
use laws::clipped;

// No `Coded`: what it counts is its name, which the definitions have.
// The bits that are left over, and the reader.
#[derive(Clone, Copy)]
pub struct LeftOver {
    pub left: u32,
    pub next: Reader,
}

// What a bit adds to an energy that has so many fine bits.
fn offset(bit: u32, fine: u32) -> f32
    requires { (bit < 2) × (fine < 8) }
    ensures { result ≡ offset_of bit fine }
{
    (bit as f32 - 0.5) * ((1u32 << (13 - fine)) as f32) * (1.0f32 / 16384.0f32)
}

// The energy at place k takes one raw bit.
fn spend(e: &mut [f32], k: usize, fine: u32, s: &[u8], g: LeftOver) -> LeftOver
    requires k_in_bounds { (k < length e.old) × (fine < 8) × (1 ≤ g.left) }
    requires ready { Ready 1 g.next }
    ensures { spending e.new result.left result.next ≡ spend_at fine s.now k (spending e.old g.left g.next) }
{
    let d = g.next;
    let y = d.raw(s, 1);
    let next = y.next;
    let old = e[k];
    e[k] = old + offset(y.value, fine);
    LeftOver {
        left: g.left - 1,
        next,
    }
}

// Band i of c channels, in the pass of a priority.
pub fn spend_band(
    e: &mut [f32],
    fine: &[i32],
    priorities: &[i32],
    pass: u32,
    c: u32,
    i: usize,
    s: &[u8],
    g: LeftOver,
) -> LeftOver
    requires e_len { (length e.old ≡ 42) × (length fine.now ≡ 21) × (length priorities.now ≡ 21) × (i < 21) × (1 ≤ c) }
    requires ready { Ready 2 g.next }
    ensures { spending e.new result.left result.next
        ≡ spend_band c pass (count_at fine.now) (count_at priorities.now) s.now i
        (spending e.old g.left g.next) }
{
    let f = clipped(fine[i]);
    let p = clipped(priorities[i]);
    if (f < 8) & (p == pass) & (c <= g.left) {
        let y = spend(e, i, f, s, g);
        if c < 2 {
            return y;
        }
        return spend(e, i + 21, f, s, y);
    }
    g
}
