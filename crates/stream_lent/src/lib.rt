// The stream record for callers that lend it and keep it where it is, over the frame call that takes it by value.
// Document 01, "Energies, shapes and the stream record". `plain` is for callers that lend nothing.
#![tactic(auto)]

ghost use Rattle.std.specs.Prelude.{◌≡◌, ℕ};
ghost use Rattle.stream.specs.Frame.{call, framed};
ghost use Rattle.entcode.specs.Said.{map_said, said};
ghost use Rattle.entcode.specs.Said.Said.{refused};
ghost use Rattle.stream_lent.specs.Lent.{step_of};

use entcode::Refusal;
use entdec::Reader;
use stream::Record;

pub mod plain;

// What a frame answers, the reader after it or the refusal; and the record after it, which a refusal leaves.
#[derive(Clone, Copy)]
pub struct AppliedStep {
    pub answer: Result<Reader, Refusal>,
    pub rec: Record,
}

// Frame `number`, on a record that is lent. Answer and record are those of the call by value; where it is refused, the record is as it was.
pub fn frame(
    rec: &mut Record,
    d: Reader,
    s: &[u8],
    number: u64,
    c: i32,
    lm: i32,
    start: i32,
    end: i32,
    intra: i32,
) -> Result<Reader, Refusal>
    ensures { (said result ≡ (step_of (framed rec.old (call d s.now number c lm start end intra))).said)
        × (rec.new ≡ (step_of (framed rec.old (call d s.now number c lm start end intra))).rec)
        × ((n : ℕ) → said result ≡ refused n → rec.new ≡ rec.old) }
{
    let y = rec.frame(d, s, number, c, lm, start, end, intra);
    *rec = y.rec;
    told(y.answer, y.next)
}

// What a frame says of a lent record: the reader after it, or the refusal.
fn told(a: Result<(), Refusal>, next: Reader) -> Result<Reader, Refusal>
    ensures { said result ≡ map_said (λ u. next) (said a) }
{
    match a {
        Ok(()) => Ok(next),
        Err(why) => Err(why),
    }
}
