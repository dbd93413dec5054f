// Answers of stream, and of restoring.
ghost use Rattle.std.specs.Prelude.{◌≡◌, length};
ghost use Rattle.stream.specs.Frame.{said_framed};
ghost use Rattle.stream_saved.specs.Lines.{said_restored};
ghost use Rattle.gurthapen_answer.specs.Result as answer;
ghost use Rattle.gurthapen_answer.specs.Record.{lists_framed, lists_restored};

use gurthapen_state::coder::Coder;
use gurthapen_state::record::store_record;
use stream::Framed;
use stream_saved::Restored;

// What a frame leaves.
pub fn leave_frame(y: Framed, energies: &mut [f32], next: &mut [u64], state: &mut [i64]) -> u32
    requires { (length energies.old ≡ 42) × (length next.old ≡ 1) × (length state.old ≡ 12) }
    ensures { answer.result result ((energies.new, next.new), state.new)
        ≡ answer.result_of (lists_framed (said_framed y)) ((energies.old, next.old), state.old) }
{
    match y.answer {
        Ok(()) => {
            let rec = y.rec;
            store_record(energies, next, rec);
            y.next.store(state);
            0
        }
        Err(why) => u32::from(why),
    }
}

// What restoring leaves.
pub fn leave_restored(a: Restored, energies: &mut [f32], next: &mut [u64]) -> u32
    requires { (length energies.old ≡ 42) × (length next.old ≡ 1) }
    ensures { answer.result result (energies.new, next.new) ≡ answer.result_of (lists_restored (said_restored a)) (energies.old, next.old) }
{
    match a.answer {
        Ok(()) => {
            let rec = a.rec;
            store_record(energies, next, rec);
            0
        }
        Err(why) => u32::from(why),
    }
}
