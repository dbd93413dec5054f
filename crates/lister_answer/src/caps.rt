// The lister's caps.
ghost use Rattle.std.specs.Prelude.{◌≡◌, ◌≤◌, ◌<◌, pos};
ghost use Rattle.rate_spec.specs.Caps.{cap_of};
ghost use Rattle.lister_answer.specs.Caps.{caps_of};

use laws::pow2;
use modes::caps::cap_of;
use modes::edges::width_of;

// Band j's cap.
fn cap(c: u32, lm: u32, j: usize) -> i32
    requires { (1 ≤ c) × (c ≤ 2) × (lm ≤ 3) × (j < 21) }
    ensures { result ≡ pos (cap_of c lm j) }
{
    let entry = cap_of(c as usize, lm as usize, j);
    let n = width_of(j) * pow2(lm);
    ((entry + 64) * c * n / 4) as i32
}

// The caps of the 21 bands.
pub fn caps(c: u32, lm: u32) -> [i32; 21]
    requires { (1 ≤ c) × (c ≤ 2) × (lm ≤ 3) }
    ensures { result ≡ caps_of c lm }
{
    let mut out = [0i32; 21];
    for j in 0..21 {
        out[j] = cap(c, lm, j);
    }
    out
}
