// Answers of vq.
ghost use Rattle.std.specs.Prelude.{◌≡◌, length};
ghost use Rattle.entcode.specs.Said.{said};
ghost use Rattle.gurthapen_answer.specs.Result as answer;
ghost use Rattle.gurthapen_answer.specs.Shapes.{lists_mask};

use entcode::Refusal;
use gurthapen_state::coder::Coder;
use vq::ReadShape;

// What a read leaves beside the shape. Beside `leave_coded`: the number of a `ReadShape` has a public name, `mask`, which a `Coded` has not.
pub fn leave_shape(a: Result<ReadShape, Refusal>, state: &mut [i64], mask: &mut [u32]) -> u32
    requires { (length state.old ≡ 12) × (length mask.old ≡ 1) }
    ensures { answer.result result (state.new, mask.new) ≡ answer.result_of (lists_mask (said a)) (state.old, mask.old) }
{
    match a {
        Ok(y) => {
            y.next.store(state);
            mask[0] = y.mask;
            0
        }
        Err(why) => u32::from(why),
    }
}
