// Shapes of bands: the call of vq.
ghost use Rattle.std.specs.Prelude.{◌≡◌};
ghost use Rattle.vq.specs.Answer.{shape_request};
ghost use Rattle.gurthapen_answer.specs.Result as answer;
ghost use Rattle.gurthapen.specs.Shapes.{unquants};

// A shape of n places and k pulses with that gain; its collapse mask goes into mask.
#[unsafe(no_mangle)]
pub extern "C" fn gurthapen_alg_unquant(
    state: &mut [i64],
    s: &[u8],
    shape: &mut [f32],
    n: i32,
    k: i32,
    spread: i32,
    b: i32,
    gain: f32,
    mask: &mut [u32],
) -> u32
    ensures { answer.result result ((state.new, mask.new), shape.new)
        ≡ unquants (shape_request n k spread b gain) s.now state.old mask.old shape.old }
{
    gurthapen::shapes::gurthapen_alg_unquant(state, s, shape, n, k, spread, b, gain, mask)
}
