// The writer's side of a trip, step by step; the last step hands over to the reader's side.
// The bytes are a lent slice of any length up to 1,275: the bound stands in each contract. Each step takes one thing more than the one before, so they are
// handed on one by one.
ghost use Rattle.std.specs.Prelude.{◌≡◌, cond, ◌≤◌, length};
ghost use Rattle.entcode.specs.Said.Said.{done};
ghost use Rattle.entenc.specs.Write.{wr};
ghost use Rattle.entenc.specs.Answer.{closing, start_of};
ghost use Rattle.rate.specs.Answer.{writing};
ghost use Rattle.rate.specs.Question.{lists, no_lists};
ghost use Rattle.trip_theorem.specs.Rows.{write_all};
ghost use Rattle.trip_call.specs.Given.{symbols_of};
ghost use Rattle.trip_call.specs.Outcome.{allot_outcome, close_outcome, ending, row_outcome};
ghost use Rattle.trip_call.specs.Outcome.Ending.{agreed, disagreed, not_closed};
ghost use Rattle.trip_call.specs.ReadBack.{agrees};

use super::shares::Shares;
use super::{Asked, Call, Outcome, back, rows};
use entenc::Writer;
use rate::Wishes;

// The packet s is closed with u; where that reported no error, it is read back.
fn ended(w: Writer, y: &Shares<Writer>, u: Writer, bytes: &[u8], s: &[u8], asked: Asked) -> Outcome
    requires { length bytes.now ≤ 1275 }
    ensures { ending result ≡ cond u.sink.error not_closed
        (cond (agrees asked.entry.q asked.entry.offsets.now asked.entry.caps.now
        (symbols_of asked.entry.symbols.now asked.entry.tables.now) w
        (write_all (symbols_of asked.entry.symbols.now asked.entry.tables.now) (wr w bytes.now)) y.now.figures
        (lists y.now.pulses y.now.fine y.now.priorities) s.now) agreed disagreed) }
{
    if u.sink.error {
        return Outcome::NotClosed;
    }
    if back::compare(w, y, bytes, s, asked) {
        return Outcome::Agreed;
    }
    Outcome::Disagreed
}

// Closes, after the allocation y.
fn shut(w: Writer, y: &Shares<Writer>, bytes: &[u8], buf: &mut [u8], asked: Asked) -> Outcome
    requires { length bytes.now ≤ 1275 }
    ensures { ending result ≡ close_outcome (agrees asked.entry.q asked.entry.offsets.now asked.entry.caps.now
        (symbols_of asked.entry.symbols.now asked.entry.tables.now) w
        (write_all (symbols_of asked.entry.symbols.now asked.entry.tables.now) (wr w bytes.now)) y.now.figures
        (lists y.now.pulses y.now.fine y.now.priorities))
        (closing (wr y.now.figures.next buf.old)).said (closing (wr y.now.figures.next buf.old)).bytes }
{
    match y.figures.next.close(buf) {
        Ok(u) => ended(w, y, u, bytes, buf, asked),
        Err(why) => Outcome::Refused(Call::Close, why),
    }
}

// Writes the allocation, after the symbols.
fn allot(w: Writer, v: Writer, bytes: &[u8], buf: &mut [u8], h: Wishes, asked: Asked) -> Outcome
    requires { length bytes.now ≤ 1275 }
    ensures { ending result ≡ allot_outcome (agrees asked.entry.q asked.entry.offsets.now asked.entry.caps.now
        (symbols_of asked.entry.symbols.now asked.entry.tables.now) w
        (write_all (symbols_of asked.entry.symbols.now asked.entry.tables.now) (wr w bytes.now)))
        (writing asked.entry.q h asked.entry.offsets.now asked.entry.caps.now (wr v buf.old) no_lists).said
        (writing asked.entry.q h asked.entry.offsets.now asked.entry.caps.now (wr v buf.old) no_lists).lent
        (writing asked.entry.q h asked.entry.offsets.now asked.entry.caps.now (wr v buf.old) no_lists).bytes }
{
    let mut pulses = [0i32; 21];
    let mut fine = [0i32; 21];
    let mut priorities = [0i32; 21];
    let answer = rate::clt_compute_allocation_write(
        v,
        buf,
        asked.q,
        h,
        asked.offsets,
        asked.caps,
        &mut pulses,
        &mut fine,
        &mut priorities,
    );
    match answer {
        Ok(figures) => shut(
            w,
            &Shares {
                figures,
                pulses,
                fine,
                priorities,
            },
            bytes,
            buf,
            asked,
        ),
        Err(why) => Outcome::Refused(Call::Allocation, why),
    }
}

// Writes the symbols over a copy of the bytes.
fn send(w: Writer, bytes: &[u8], buf: &mut [u8], h: Wishes, asked: Asked) -> Outcome
    requires { (length bytes.now ≤ 1275) × (length buf.old ≡ length bytes.now) }
    ensures { ending result ≡ row_outcome asked.entry.q asked.entry.offsets.now asked.entry.caps.now h
        (agrees asked.entry.q asked.entry.offsets.now asked.entry.caps.now (symbols_of asked.entry.symbols.now asked.entry.tables.now)) w
        (write_all (symbols_of asked.entry.symbols.now asked.entry.tables.now) (wr w bytes.now)) }
{
    buf.copy_from_slice(bytes);
    match rows::write_row(w, buf, asked.symbols, asked.tables) {
        Ok(v) => allot(w, v, bytes, buf, h, asked),
        Err(r) => Outcome::Refused(Call::Symbol(r.place), r.why),
    }
}

// As in `back::compare`: a function over both would take the next step as a closure with its whole contract.
// The bytes get room of their own.
pub fn begin(w: Writer, bytes: &[u8], h: Wishes, asked: Asked) -> Outcome
    requires { start_of (length bytes.now) ≡ done w }
    ensures { ending result ≡ row_outcome asked.entry.q asked.entry.offsets.now asked.entry.caps.now h
        (agrees asked.entry.q asked.entry.offsets.now asked.entry.caps.now (symbols_of asked.entry.symbols.now asked.entry.tables.now)) w
        (write_all (symbols_of asked.entry.symbols.now asked.entry.tables.now) (wr w bytes.now)) }
{
    let n = bytes.len();
    let mut room = [0u8; 1275];
    send(w, bytes, &mut room[..n], h, asked)
}
