// The stream record: the calls of stream and stream_saved.
ghost use Rattle.std.specs.Prelude.{◌≡◌};
ghost use Rattle.stream.specs.Frame.{ordered};
ghost use Rattle.gurthapen_answer.specs.Result as answer;
ghost use Rattle.gurthapen.specs.Record.{freshes, frames, saves, restores};

use entdec::Reader;
use gurthapen_answer::numbers::{leave_number, verdict};
use gurthapen_answer::record::{leave_frame, leave_restored};
use gurthapen_state::coder::{Coder, is_stored};
use gurthapen_state::record::{load_record, store_record};
use stream::Record;

// A record to which no frame was applied.
pub fn gurthapen_record_fresh(energies: &mut [f32], next: &mut [u64]) -> u32
    ensures { answer.result result (energies.new, next.new) ≡ freshes energies.old next.old }
{
    if (energies.len() == 42) & (next.len() == 1) {
        let rec = Record::fresh();
        store_record(energies, next, rec);
        return 0;
    }
    2
}

// A frame's number against the record's next, each in its domain.
pub fn gurthapen_record_order(next: u64, number: u64) -> u32
    ensures { result ≡ ordered next number }
{
    verdict(stream::order(next, number))
}

// Frame `number`, whose coarse energies the state stands before in the packet s. The record is read once every length is right.
pub fn gurthapen_record_frame(
    energies: &mut [f32],
    next: &mut [u64],
    state: &mut [i64],
    s: &[u8],
    number: u64,
    c: i32,
    lm: i32,
    start: i32,
    end: i32,
    intra: i32,
) -> u32
    ensures { answer.result result ((energies.new, next.new), state.new)
        ≡ frames s.now number c lm start end intra energies.old next.old state.old }
{
    if (energies.len() == 42) & (next.len() == 1) & is_stored(state) {
        let d = Reader::load(state);
        if d.sized(s.len(), true) {
            let rec = load_record(energies, next[0]);
            let y = rec.frame(d, s, number, c, lm, start, end, intra);
            return leave_frame(y, energies, next, state);
        }
        return 2;
    }
    2
}

// A record's line, without a line feed, at the front of buf. The record is read once every length is right.
pub fn gurthapen_record_save(
    energies: &[f32],
    next: u64,
    buf: &mut [u8],
    length: &mut [usize],
) -> u32
    ensures { answer.result result (length.new, buf.new) ≡ saves energies.now next length.old buf.old }
{
    if (energies.len() == 42) & (length.len() == 1) {
        if buf.len() < 390 {
            return 2;
        }
        let rec = load_record(energies, next);
        let a = stream_saved::save(rec, buf);
        return leave_number(a, length);
    }
    2
}

// The record that a line, without its line feed, stands for.
pub fn gurthapen_record_restore(line: &[u8], energies: &mut [f32], next: &mut [u64]) -> u32
    ensures { answer.result result (energies.new, next.new) ≡ restores line.now energies.old next.old }
{
    if (energies.len() == 42) & (next.len() == 1) {
        let a = stream_saved::restore(line);
        return leave_restored(a, energies, next);
    }
    2
}
