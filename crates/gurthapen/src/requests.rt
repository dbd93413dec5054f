// The lister's answers: the call of lister_answer.
ghost use Rattle.std.specs.Prelude.{◌≡◌};
ghost use Rattle.gurthapen_answer.specs.Result as answer;
ghost use Rattle.gurthapen.specs.Requests.{answers_line};

use gurthapen_answer::numbers::leave_number;

// The answer to a request line of this number, at the front of out.
pub fn gurthapen_list(line: &[u8], number: u32, out: &mut [u8], length: &mut [usize]) -> u32
    ensures { answer.result result (length.new, out.new) ≡ answers_line number line.now length.old out.old }
{
    if length.len() == 1 {
        let a = lister_answer::list(line, number, out);
        return leave_number(a, length);
    }
    2
}
