// What is written is read back: the call of trip_call.
ghost use Rattle.std.specs.Prelude.{◌≡◌};
ghost use Rattle.rate.specs.Question.{alloc_numbers, wishes};
ghost use Rattle.gurthapen_answer.specs.Result as answer;
ghost use Rattle.gurthapen.specs.Trips.{trips};

// Symbols, five numbers each, and an allocation are written over the bytes, closed, read back and compared; how it ended goes into outcome. Symbols that
// are no list of symbols are refused.
#[unsafe(no_mangle)]
pub extern "C" fn gurthapen_round_trip(
    bytes: &[u8],
    symbols: &[u32],
    tables: &[u8],
    c: i32,
    lm: i32,
    start: i32,
    end: i32,
    trim: i32,
    total: i32,
    intensity: i32,
    dual: i32,
    previous: i32,
    bandwidth: i32,
    offsets: &[i32],
    caps: &[i32],
    outcome: &mut [u64],
) -> u32
    ensures { answer.result result outcome.new
        ≡ trips (alloc_numbers c lm start end trim total) (wishes intensity dual previous bandwidth) offsets.now caps.now
        bytes.now symbols.now tables.now outcome.old }
{
    gurthapen::trips::gurthapen_round_trip(
        bytes, symbols, tables, c, lm, start, end, trim, total, intensity, dual, previous,
        bandwidth, offsets, caps, outcome,
    )
}
