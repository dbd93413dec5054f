// Answers of rate.
ghost use Rattle.std.specs.Prelude.{◌≡◌, length};
ghost use Rattle.entcode.specs.Said.{said};
ghost use Rattle.gurthapen_answer.specs.Result as answer;
ghost use Rattle.gurthapen_answer.specs.Allocation.{four, lists_allocation};

use entcode::Refusal;
use gurthapen_state::coder::Coder;
use rate::Allocation;

// The four numbers of an allocation into a list.
fn put_four(shown: &mut [i32], coded: i32, balance: i32, intensity: i32, dual: i32)
    requires { length shown.old ≡ 4 }
    ensures { shown.new ≡ four coded balance intensity dual }
{
    shown[0] = coded;
    shown[1] = balance;
    shown[2] = intensity;
    shown[3] = dual;
}

// What an allocation leaves beside the lists of the bands, and the bytes where it is written.
pub fn leave_allocation<C: Coder>(
    a: Result<Allocation<C>, Refusal>,
    state: &mut [i64],
    shown: &mut [i32],
) -> u32
    requires { (length state.old ≡ 12) × (length shown.old ≡ 4) }
    ensures { answer.result result (state.new, shown.new) ≡ answer.result_of (lists_allocation C.list (said a)) (state.old, shown.old) }
{
    match a {
        Ok(y) => {
            y.next.store(state);
            put_four(shown, y.coded, y.balance, y.intensity, y.dual);
            0
        }
        Err(why) => u32::from(why),
    }
}
