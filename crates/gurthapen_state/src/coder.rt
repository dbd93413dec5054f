// A coder's state as a list of twelve numbers: from a list, and to one.
// Lists are slices, as C lends them. A reader and a writer have other fields, from other numbers of the list, so each has a function of its own below.
ghost use Rattle.std.specs.Prelude.{◌≡◌, true, ◌<◌, length, take, cond, List, [], ◌∷◌, ℤ, pos};
ghost use Rattle.laws.specs.Lists.{every};
ghost use Rattle.gurthapen_state.specs.State.{
  is_count,
  count_of,
  mark_of,
  held_of,
  held_fits,
  list_held,
  entry,
  is_stored,
  reader_fits,
  writer_fits,
  reader_of,
  list_of_reader,
  writer_of,
  list_of_writer,
};

use entdec::Reader;
use entenc::Writer;
use entenc_sink::Sink;

// A coder that other languages hold as a list of twelve numbers.
pub trait Coder: Copy {
    // The coder that a list holds.
    ghost of_list: { List ℤ → Self };

    // And back.
    ghost list: { Self → List ℤ };

    // From a list.
    fn load(state: &[i64]) -> Self
        requires { length state.now ≡ 12 }
        ensures { result ≡ of_list state.now };

    // Into a list.
    fn store(self, state: &mut [i64])
        requires { length state.old ≡ 12 }
        ensures { state.new ≡ list self };
}

// Whether x fits a count.
fn is_count(x: i64) -> bool
    ensures { result ≡ is_count x }
{
    (0 <= x) & (x <= 4294967295)
}

// Whether the number at a place fits a count.
fn fits_at(state: &[i64], i: usize) -> bool
    requires { i < length state.now }
    ensures { result ≡ is_count (entry state.now i) }
{
    let x = state[i];
    is_count(x)
}

// Whether the first nine numbers fit. The tests are joined without a branch: every call of another language comes through here.
fn nine_fit(state: &[i64]) -> bool
    requires { length state.now ≡ 12 }
    ensures { result ≡ every is_count (take 9 state.now) }
{
    fits_at(state, 0)
        & fits_at(state, 1)
        & fits_at(state, 2)
        & fits_at(state, 3)
        & fits_at(state, 4)
        & fits_at(state, 5)
        & fits_at(state, 6)
        & fits_at(state, 7)
        & fits_at(state, 8)
}

// Whether a list can hold a state whose storage a lent length can equal. No number is read before the list's length is known.
pub fn is_stored(state: &[i64]) -> bool
    ensures { result ≡ is_stored state.now }
{
    if state.len() == 12 {
        return fits_at(state, 0);
    }
    false
}

// A number, at a place, as a count. Where the numbers are known to fit, none is tested.
fn count_at<const SOUND: bool>(state: &[i64], i: usize) -> u32
    requires i_in_bounds { i < length state.now }
    requires i_value { SOUND ≡ true → is_count (entry state.now i) ≡ true }
    ensures { result ≡ count_of (entry state.now i) }
{
    let x = state[i];
    if SOUND || is_count(x) {
        x as u32
    } else {
        4294967295
    }
}

// The number at a place as a mark.
fn mark_at(state: &[i64], i: usize) -> bool
    requires { i < length state.now }
    ensures { result ≡ mark_of (entry state.now i) }
{
    let x = state[i];
    (x < 0) | (0 < x)
}

// Whether the number of a writer's held byte is one.
fn held_fits(state: &[i64]) -> bool
    requires { length state.now ≡ 12 }
    ensures { result ≡ held_fits (entry state.now 9) }
{
    let x = state[9];
    (-1 <= x) & (x <= 255)
}

// A writer's held byte.
fn held_at(state: &[i64]) -> u32
    requires { length state.now ≡ 12 }
    ensures { result ≡ held_of (entry state.now 9) }
{
    let x = state[9];
    if (0 <= x) & (x <= 255) { x as u32 } else { 256 }
}

// Whether the numbers of a reader fit.
fn reader_fits(state: &[i64]) -> bool
    requires { length state.now ≡ 12 }
    ensures { result ≡ reader_fits state.now }
{
    nine_fit(state) & fits_at(state, 9)
}

// Whether the numbers of a writer fit.
fn writer_fits(state: &[i64]) -> bool
    requires { length state.now ≡ 12 }
    ensures { result ≡ writer_fits state.now }
{
    nine_fit(state) & held_fits(state)
}

// A reader by whether its numbers fit: where one does not, its range is 0.
fn reader_by<const SOUND: bool>(state: &[i64]) -> Reader
    requires state_len { length state.now ≡ 12 }
    requires state_value { reader_fits state.now ≡ SOUND }
    ensures { result ≡ reader_of state.now }
{
    Reader {
        storage: count_at::<SOUND>(state, 0),
        offs: count_at::<SOUND>(state, 5),
        ends: count_at::<SOUND>(state, 1),
        window: count_at::<SOUND>(state, 2),
        waiting: count_at::<SOUND>(state, 3),
        total: count_at::<SOUND>(state, 4),
        rng: if SOUND {
            count_at::<SOUND>(state, 6)
        } else {
            0
        },
        val: count_at::<SOUND>(state, 7),
        ext: count_at::<SOUND>(state, 8),
        rem: count_at::<SOUND>(state, 9),
        error: mark_at(state, 10),
    }
}

// A writer by whether its numbers fit: where one does not, its range is 0.
fn writer_by<const SOUND: bool>(state: &[i64]) -> Writer
    requires state_len { length state.now ≡ 12 }
    requires state_value { writer_fits state.now ≡ SOUND }
    ensures { result ≡ writer_of state.now }
{
    let sink = Sink {
        storage: count_at::<SOUND>(state, 0),
        offs: count_at::<SOUND>(state, 5),
        ends: count_at::<SOUND>(state, 1),
        error: mark_at(state, 10),
    };
    Writer {
        sink,
        rem: held_at(state),
        ext: count_at::<SOUND>(state, 8),
        val: count_at::<SOUND>(state, 7),
        rng: if SOUND {
            count_at::<SOUND>(state, 6)
        } else {
            0
        },
        total: count_at::<SOUND>(state, 4),
        window: count_at::<SOUND>(state, 2),
        waiting: count_at::<SOUND>(state, 3),
        closed: mark_at(state, 11),
    }
}

// A mark as a list has it: the number n, or 0.
fn flag(yes: bool, n: i64) -> i64
    ensures { result ≡ cond yes n (pos 0) }
{
    if yes { n } else { 0 }
}

// A writer's held byte as a list has it.
fn held(rem: u32) -> i64
    ensures { result ≡ list_held rem }
{
    if rem == 256 { -1 } else { rem as i64 }
}

// Twelve numbers into a list.
fn put(
    state: &mut [i64],
    storage: u32,
    ends: u32,
    window: u32,
    waiting: u32,
    total: u32,
    offs: u32,
    rng: u32,
    val: u32,
    ext: u32,
    rem: i64,
    error: i64,
    closed: i64,
)
    requires { length state.old ≡ 12 }
    ensures { state.new
        ≡ pos storage ∷ pos ends ∷ pos window ∷ pos waiting ∷ pos total ∷ pos offs ∷ pos rng ∷ pos val ∷ pos ext ∷ rem ∷ error ∷ closed ∷ [] }
{
    state[0] = storage as i64;
    state[1] = ends as i64;
    state[2] = window as i64;
    state[3] = waiting as i64;
    state[4] = total as i64;
    state[5] = offs as i64;
    state[6] = rng as i64;
    state[7] = val as i64;
    state[8] = ext as i64;
    state[9] = rem;
    state[10] = error;
    state[11] = closed;
}

impl Coder for Reader {
    ghost of_list = { reader_of };

    ghost list = { list_of_reader };

    fn load(state: &[i64]) -> Reader {
        if reader_fits(state) {
            return reader_by::<true>(state);
        }
        reader_by::<false>(state)
    }

    fn store(self, state: &mut [i64]) {
        let error = flag(self.error, 1);
        put(
            state,
            self.storage,
            self.ends,
            self.window,
            self.waiting,
            self.total,
            self.offs,
            self.rng,
            self.val,
            self.ext,
            self.rem as i64,
            error,
            0,
        );
    }
}

impl Coder for Writer {
    ghost of_list = { writer_of };

    ghost list = { list_of_writer };

    fn load(state: &[i64]) -> Writer {
        if writer_fits(state) {
            return writer_by::<true>(state);
        }
        writer_by::<false>(state)
    }

    fn store(self, state: &mut [i64]) {
        let s = self.sink;
        let rem = held(self.rem);
        let error = flag(s.error, -1);
        let closed = flag(self.closed, 1);
        put(
            state,
            s.storage,
            s.ends,
            self.window,
            self.waiting,
            self.total,
            s.offs,
            self.rng,
            self.val,
            self.ext,
            rem,
            error,
            closed,
        );
    }
}
