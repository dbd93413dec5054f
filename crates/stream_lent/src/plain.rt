// For callers that lend nothing: the record is put into a local, lent, and handed back.
ghost use Rattle.std.specs.Prelude.{◌≡◌};
ghost use Rattle.stream.specs.Frame.{call, framed};
ghost use Rattle.stream_lent.specs.Lent.{said_step, step_of};

use crate::AppliedStep;
use entdec::Reader;
use stream::Record;

// A frame of a record that is handed in and back by value: what the call on a lent record says and leaves.
pub fn frame(
    rec: Record,
    d: Reader,
    s: &[u8],
    number: u64,
    c: i32,
    lm: i32,
    start: i32,
    end: i32,
    intra: i32,
) -> AppliedStep
    ensures { said_step result ≡ step_of (framed rec (call d s.now number c lm start end intra)) }
{
    let mut r = rec;
    let answer = crate::frame(&mut r, d, s, number, c, lm, start, end, intra);
    AppliedStep { answer, rec: r }
}
