// Laplace values: the calls of laplace.
ghost use Rattle.std.specs.Prelude.{◌≡◌};
ghost use Rattle.gurthapen_answer.specs.Result as answer;
ghost use Rattle.gurthapen.specs.Lap.{decodes, encodes};

// A Laplace value of the pair fs and decay.
#[unsafe(no_mangle)]
pub extern "C" fn gurthapen_laplace_decode(
    state: &mut [i64],
    s: &[u8],
    fs: u32,
    decay: u32,
    value: &mut [i32],
) -> u32
    ensures { answer.result result (state.new, value.new) ≡ decodes fs decay s.now state.old value.old }
{
    gurthapen::lap::gurthapen_laplace_decode(state, s, fs, decay, value)
}

// The Laplace value z of the pair fs and decay; what counts as written goes into value.
#[unsafe(no_mangle)]
pub extern "C" fn gurthapen_laplace_encode(
    state: &mut [i64],
    buf: &mut [u8],
    z: i32,
    fs: u32,
    decay: u32,
    value: &mut [i32],
) -> u32
    ensures { answer.result result ((state.new, value.new), buf.new)
        ≡ encodes fs decay z state.old value.old buf.old }
{
    gurthapen::lap::gurthapen_laplace_encode(state, buf, z, fs, decay, value)
}
