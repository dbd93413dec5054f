// Laplace values: the calls of laplace.
ghost use Rattle.std.specs.Prelude.{◌≡◌};
ghost use Rattle.gurthapen_answer.specs.Result as answer;
ghost use Rattle.gurthapen.specs.Lap.{decodes, encodes};

use entdec::Reader;
use entenc::Writer;
use gurthapen_answer::coder::leave_coded;
use gurthapen_state::coder::{Coder, is_stored};

// A Laplace value of the pair fs and decay.
pub fn gurthapen_laplace_decode(
    state: &mut [i64],
    s: &[u8],
    fs: u32,
    decay: u32,
    value: &mut [i32],
) -> u32
    ensures { answer.result result (state.new, value.new) ≡ decodes fs decay s.now state.old value.old }
{
    if is_stored(state) & (value.len() == 1) {
        let d = Reader::load(state);
        let a = laplace::ec_laplace_decode(d, s, fs, decay);
        return leave_coded(a, state, value);
    }
    2
}

// The Laplace value z of the pair fs and decay; what counts as written goes into value.
pub fn gurthapen_laplace_encode(
    state: &mut [i64],
    buf: &mut [u8],
    z: i32,
    fs: u32,
    decay: u32,
    value: &mut [i32],
) -> u32
    ensures { answer.result result ((state.new, value.new), buf.new)
        ≡ encodes fs decay z state.old value.old buf.old }
{
    if is_stored(state) & (value.len() == 1) {
        let w = Writer::load(state);
        let a = laplace::ec_laplace_encode(w, buf, z, fs, decay);
        return leave_coded(a, state, value);
    }
    2
}
