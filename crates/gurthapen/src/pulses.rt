// Pulse words: the calls of cwrs.
ghost use Rattle.std.specs.Prelude.{◌≡◌};
ghost use Rattle.gurthapen_answer.specs.Result as answer;
ghost use Rattle.gurthapen.specs.Pulses.{decodes, encodes};

use entdec::Reader;
use entenc::Writer;
use gurthapen_answer::coder::leave_coder;
use gurthapen_answer::pulses::leave_found;
use gurthapen_state::coder::{Coder, is_stored};

// A vector of n places and k pulses into the first n of 176 places.
pub fn gurthapen_decode_pulses(
    state: &mut [i64],
    s: &[u8],
    y: &mut [i32],
    n: u32,
    k: u32,
    energy: &mut [u32],
) -> u32
    ensures { answer.result result ((state.new, energy.new), y.new)
        ≡ decodes n k s.now state.old energy.old y.old }
{
    if is_stored(state) & (energy.len() == 1) {
        let d = Reader::load(state);
        let a = cwrs::decode_pulses(d, s, y, n, k);
        return leave_found(a, state, energy);
    }
    2
}

// The vector of k pulses that stands in the first n of 176 places.
pub fn gurthapen_encode_pulses(state: &mut [i64], buf: &mut [u8], y: &[i32], n: u32, k: u32) -> u32
    ensures { answer.result result (state.new, buf.new) ≡ encodes n k y.now state.old buf.old }
{
    if is_stored(state) {
        let w = Writer::load(state);
        let a = cwrs::encode_pulses(w, buf, y, n, k);
        return leave_coder(a, state);
    }
    2
}
