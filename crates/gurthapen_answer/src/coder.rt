// Answers that are a coder, or a value with one.
ghost use Rattle.std.specs.Prelude.{◌≡◌, length};
ghost use Rattle.entcode.specs.Said.{said};
ghost use Rattle.gurthapen_answer.specs.Result as answer;
ghost use Rattle.gurthapen_answer.specs.Coder.{lists_coder, lists_coded};

use entcode::{Coded, Refusal};
use gurthapen_state::coder::Coder;

// What a call that gives the coder after it, and nothing else, leaves beside what it writes itself.
pub fn leave_coder<C: Coder>(a: Result<C, Refusal>, state: &mut [i64]) -> u32
    requires { length state.old ≡ 12 }
    ensures { answer.result result state.new ≡ answer.result_of (lists_coder C.list (said a)) state.old }
{
    match a {
        Ok(x) => {
            x.store(state);
            0
        }
        Err(why) => u32::from(why),
    }
}

// What a call that gives a value and the coder after it leaves beside what it writes itself.
pub fn leave_coded<V: Copy, C: Coder>(
    a: Result<Coded<V, C>, Refusal>,
    state: &mut [i64],
    value: &mut [V],
) -> u32
    requires { (length state.old ≡ 12) × (length value.old ≡ 1) }
    ensures { answer.result result (state.new, value.new) ≡ answer.result_of (lists_coded C.list (said a)) (state.old, value.old) }
{
    match a {
        Ok(y) => {
            y.next.store(state);
            value[0] = y.value;
            0
        }
        Err(why) => u32::from(why),
    }
}
