// Answers of cwrs.
ghost use Rattle.std.specs.Prelude.{◌≡◌, length};
ghost use Rattle.entcode.specs.Said.{said};
ghost use Rattle.gurthapen_answer.specs.Result as answer;
ghost use Rattle.gurthapen_answer.specs.Pulses.{lists_found};

use cwrs::Found;
use entcode::Refusal;
use gurthapen_state::coder::Coder;

// What a read leaves beside the places. Beside `leave_coded`: the number of a `Found` has a public name, `energy`, which a `Coded` has not.
pub fn leave_found(a: Result<Found, Refusal>, state: &mut [i64], energy: &mut [u32]) -> u32
    requires { (length state.old ≡ 12) × (length energy.old ≡ 1) }
    ensures { answer.result result (state.new, energy.new) ≡ answer.result_of (lists_found (said a)) (state.old, energy.old) }
{
    match a {
        Ok(f) => {
            f.next.store(state);
            energy[0] = f.energy;
            0
        }
        Err(why) => u32::from(why),
    }
}
