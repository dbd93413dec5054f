// The stream record: the calls of stream and stream_saved.
ghost use Rattle.std.specs.Prelude.{◌≡◌};
ghost use Rattle.stream.specs.Frame.{ordered};
ghost use Rattle.gurthapen_answer.specs.Result as answer;
ghost use Rattle.gurthapen.specs.Record.{freshes, frames, saves, restores};

// A record to which no frame was applied.
#[unsafe(no_mangle)]
pub extern "C" fn gurthapen_record_fresh(energies: &mut [f32], next: &mut [u64]) -> u32
    ensures { answer.result result (energies.new, next.new) ≡ freshes energies.old next.old }
{
    gurthapen::record::gurthapen_record_fresh(energies, next)
}

// A frame's number against the record's next, each in its domain.
#[unsafe(no_mangle)]
pub extern "C" fn gurthapen_record_order(next: u64, number: u64) -> u32
    ensures { result ≡ ordered next number }
{
    gurthapen::record::gurthapen_record_order(next, number)
}

// Frame `number`, whose coarse energies the state stands before in the packet s. The record is read once every length is right.
#[unsafe(no_mangle)]
pub extern "C" fn gurthapen_record_frame(
    energies: &mut [f32],
    next: &mut [u64],
    state: &mut [i64],
    s: &[u8],
    number: u64,
    c: i32,
    lm: i32,
    start: i32,
    end: i32,
    intra: i32,
) -> u32
    ensures { answer.result result ((energies.new, next.new), state.new)
        ≡ frames s.now number c lm start end intra energies.old next.old state.old }
{
    gurthapen::record::gurthapen_record_frame(
        energies, next, state, s, number, c, lm, start, end, intra,
    )
}

// A record's line, without a line feed, at the front of buf. The record is read once every length is right.
#[unsafe(no_mangle)]
pub extern "C" fn gurthapen_record_save(
    energies: &[f32],
    next: u64,
    buf: &mut [u8],
    length: &mut [usize],
) -> u32
    ensures { answer.result result (length.new, buf.new) ≡ saves energies.now next length.old buf.old }
{
    gurthapen::record::gurthapen_record_save(energies, next, buf, length)
}

// The record that a line, without its line feed, stands for.
#[unsafe(no_mangle)]
pub extern "C" fn gurthapen_record_restore(
    line: &[u8],
    energies: &mut [f32],
    next: &mut [u64],
) -> u32
    ensures { answer.result result (energies.new, next.new) ≡ restores line.now energies.old next.old }
{
    gurthapen::record::gurthapen_record_restore(line, energies, next)
}
