// The bit allocation: the calls of rate.
ghost use Rattle.std.specs.Prelude.{◌≡◌};
ghost use Rattle.rate.specs.Question.{lists, alloc_numbers, wishes};
ghost use Rattle.gurthapen_answer.specs.Result as answer;
ghost use Rattle.gurthapen.specs.Allocation.{reads, writes};

use entdec::Reader;
use entenc::Writer;
use gurthapen_answer::allocation::leave_allocation;
use gurthapen_state::coder::{Coder, is_stored};
use rate::{AllocNumbers, Wishes};

// Reads an allocation: the bands go into three lists, coded bands, balance, intensity and dual stereo into shown.
pub fn gurthapen_compute_allocation_read(
    state: &mut [i64],
    s: &[u8],
    c: i32,
    lm: i32,
    start: i32,
    end: i32,
    trim: i32,
    total: i32,
    offsets: &[i32],
    caps: &[i32],
    pulses: &mut [i32],
    fine: &mut [i32],
    priorities: &mut [i32],
    shown: &mut [i32],
) -> u32
    ensures { answer.result result ((state.new, shown.new), lists pulses.new fine.new priorities.new)
        ≡ reads (alloc_numbers c lm start end trim total) offsets.now caps.now s.now state.old shown.old
        (lists pulses.old fine.old priorities.old) }
{
    if is_stored(state) & (shown.len() == 4) {
        let d = Reader::load(state);
        let q = AllocNumbers {
            c,
            lm,
            start,
            end,
            trim,
            total,
        };
        let a = rate::clt_compute_allocation_read(d, s, q, offsets, caps, pulses, fine, priorities);
        return leave_allocation(a, state, shown);
    }
    2
}

// Writes an allocation.
pub fn gurthapen_compute_allocation_write(
    state: &mut [i64],
    buf: &mut [u8],
    c: i32,
    lm: i32,
    start: i32,
    end: i32,
    trim: i32,
    total: i32,
    intensity: i32,
    dual: i32,
    previous: i32,
    bandwidth: i32,
    offsets: &[i32],
    caps: &[i32],
    pulses: &mut [i32],
    fine: &mut [i32],
    priorities: &mut [i32],
    shown: &mut [i32],
) -> u32
    ensures { answer.result result ((state.new, shown.new), (lists pulses.new fine.new priorities.new, buf.new))
        ≡ writes (alloc_numbers c lm start end trim total) (wishes intensity dual previous bandwidth) offsets.now caps.now
        state.old shown.old (lists pulses.old fine.old priorities.old) buf.old }
{
    if is_stored(state) & (shown.len() == 4) {
        let w = Writer::load(state);
        let q = AllocNumbers {
            c,
            lm,
            start,
            end,
            trim,
            total,
        };
        let h = Wishes {
            intensity,
            dual,
            previous,
            bandwidth,
        };
        let a = rate::clt_compute_allocation_write(
            w, buf, q, h, offsets, caps, pulses, fine, priorities,
        );
        return leave_allocation(a, state, shown);
    }
    2
}
