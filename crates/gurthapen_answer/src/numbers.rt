// Answers of one number, and of nothing, of any call.
ghost use Rattle.std.specs.Prelude.{◌≡◌, length};
ghost use Rattle.entcode.specs.Said.{said, verdict};
ghost use Rattle.gurthapen_answer.specs.Result as answer;

use entcode::Refusal;

// What a call that gives one number leaves beside what it writes itself.
pub fn leave_number<T: Copy>(a: Result<T, Refusal>, value: &mut [T]) -> u32
    requires { length value.old ≡ 1 }
    ensures { answer.result result value.new ≡ answer.result_of (answer.lists_number (said a)) value.old }
{
    match a {
        Ok(n) => {
            value[0] = n;
            0
        }
        Err(why) => u32::from(why),
    }
}

// What a call that gives nothing is answered with: 0, or the number of the refusal.
pub fn verdict(a: Result<(), Refusal>) -> u32
    ensures { result ≡ verdict a }
{
    match a {
        Ok(()) => 0,
        Err(why) => u32::from(why),
    }
}
