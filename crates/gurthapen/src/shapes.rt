// Shapes of bands: the call of vq.
ghost use Rattle.std.specs.Prelude.{◌≡◌};
ghost use Rattle.vq.specs.Answer.{shape_request};
ghost use Rattle.gurthapen_answer.specs.Result as answer;
ghost use Rattle.gurthapen.specs.Shapes.{unquants};

use entdec::Reader;
use gurthapen_answer::shapes::leave_shape;
use gurthapen_state::coder::{Coder, is_stored};

// A shape of n places and k pulses with that gain; its collapse mask goes into mask.
pub fn gurthapen_alg_unquant(
    state: &mut [i64],
    s: &[u8],
    shape: &mut [f32],
    n: i32,
    k: i32,
    spread: i32,
    b: i32,
    gain: f32,
    mask: &mut [u32],
) -> u32
    ensures { answer.result result ((state.new, mask.new), shape.new)
        ≡ unquants (shape_request n k spread b gain) s.now state.old mask.old shape.old }
{
    if is_stored(state) & (mask.len() == 1) {
        let d = Reader::load(state);
        let a = vq::alg_unquant(d, s, shape, n, k, spread, b, gain);
        return leave_shape(a, state, mask);
    }
    2
}
