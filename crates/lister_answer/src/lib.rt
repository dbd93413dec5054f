// The lister's work, one request line at a time: document 01, "The lister".
#![tactic(auto)]

pub mod answer;
pub mod caps;
pub mod decide;
pub mod lines;
pub mod request;

ghost use Rattle.std.specs.Prelude.{◌≡◌};
ghost use Rattle.lister_answer.specs.Answer.{listing, after};

use entcode::Refusal;

// The bytes that a lent buffer has at least: no answer takes more.
pub const ROOM: usize = 1200;

// The answer to a line, at the start of `out`.
pub fn list(line: &[u8], number: u32, out: &mut [u8]) -> Result<usize, Refusal>
    ensures { after result out.new ≡ listing number line.now out.old }
{
    if out.len() < ROOM {
        return Err(Refusal::Length);
    }
    Ok(answer::write(line, number, out))
}
