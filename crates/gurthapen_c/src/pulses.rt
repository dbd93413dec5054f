// Pulse words: the calls of cwrs.
ghost use Rattle.std.specs.Prelude.{◌≡◌};
ghost use Rattle.gurthapen_answer.specs.Result as answer;
ghost use Rattle.gurthapen.specs.Pulses.{decodes, encodes};

// A vector of n places and k pulses into the first n of 176 places.
#[unsafe(no_mangle)]
pub extern "C" fn gurthapen_decode_pulses(
    state: &mut [i64],
    s: &[u8],
    y: &mut [i32],
    n: u32,
    k: u32,
    energy: &mut [u32],
) -> u32
    ensures { answer.result result ((state.new, energy.new), y.new)
        ≡ decodes n k s.now state.old energy.old y.old }
{
    gurthapen::pulses::gurthapen_decode_pulses(state, s, y, n, k, energy)
}

// The vector of k pulses that stands in the first n of 176 places.
#[unsafe(no_mangle)]
pub extern "C" fn gurthapen_encode_pulses(
    state: &mut [i64],
    buf: &mut [u8],
    y: &[i32],
    n: u32,
    k: u32,
) -> u32
    ensures { answer.result result (state.new, buf.new) ≡ encodes n k y.now state.old buf.old }
{
    gurthapen::pulses::gurthapen_encode_pulses(state, buf, y, n, k)
}
