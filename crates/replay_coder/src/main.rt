// Replays requests of the range coder, of Laplace values and of pulse words, one a line, and answers with a line each that has an answer; tools/compare
// makes them and says their form. The numbers of a request stand in a list l.
#![tactic(auto)]

mod begin;
mod symbols;
mod values;
mod vectors;

use entdec::Reader;
use entenc::Writer;
use replay_io::list::word;
use replay_io::{input, list, reply};
use std::io::Stdout;

// Who works on the bytes.
#[derive(Clone, Copy)]
pub enum Coder {
    Idle,
    Writing(Writer),
    Reading(Reader),
}

// The program's state: how many bytes are lent, the table's symbols and their ftb, the pair of Laplace values, and the coder.
#[derive(Clone, Copy)]
pub struct State {
    pub lent: usize,
    pub symbols: usize,
    pub ftb: u32,
    pub fs: u32,
    pub decay: u32,
    pub coder: Coder,
}

// Before the first request.
fn fresh() -> State {
    State {
        lent: 0,
        symbols: 0,
        ftb: 0,
        fs: 0,
        decay: 0,
        coder: Coder::Idle,
    }
}

impl State {
    // S lends so many bytes; after any other request they stay.
    fn with_lent(mut self, letter: u8, l: &[i32], most: usize) -> State {
        if letter == b'S' {
            self.lent = list::length_at(l, 0, most);
        }
        self
    }

    // T: another table. Its ftb stands before its entries.
    fn with_table(mut self, count: usize, ftb: u32) -> State {
        if 0 < count {
            self.symbols = count - 1;
        }
        self.ftb = ftb;
        self
    }

    // P: another pair.
    fn with_pair(mut self, fs: u32, decay: u32) -> State {
        self.fs = fs;
        self.decay = decay;
        self
    }

    // A coder that a request left.
    fn with_coder(mut self, coder: Coder) -> State {
        self.coder = coder;
        self
    }
}

// A write or the close.
fn write_on(
    stdout: Stdout,
    letter: u8,
    l: &[i32],
    s: &mut [u8],
    t: &[u8],
    places: &[i32],
    state: State,
    w: Writer,
) -> Coder {
    match letter {
        b'L' => values::put(stdout, list::at(l, 0), s, state.fs, state.decay, w),
        b'W' => vectors::put(stdout, l, s, places, w),
        _ => symbols::write(stdout, letter, l, s, t, state.ftb, w),
    }
}

// A read.
fn read_on(
    stdout: Stdout,
    letter: u8,
    l: &[i32],
    s: &[u8],
    t: &[u8],
    places: &mut [i32],
    state: State,
    r: Reader,
) -> Coder {
    match letter {
        b'l' => values::get(stdout, s, state.fs, state.decay, r),
        b'w' => vectors::get(stdout, l, s, places, r),
        _ => symbols::read(stdout, letter, l, s, t, state.ftb, r),
    }
}

// A call of the writer or of the reader, whoever works.
fn call(
    stdout: Stdout,
    letter: u8,
    l: &[i32],
    s: &mut [u8],
    t: &[u8],
    places: &mut [i32],
    state: State,
) -> Coder {
    let coder = state.coder;
    match coder {
        Coder::Writing(w) => write_on(stdout, letter, l, s, t, places, state, w),
        Coder::Reading(r) => read_on(stdout, letter, l, s, t, places, state, r),
        Coder::Idle => {
            reply::malformed(stdout);
            Coder::Idle
        }
    }
}

// A request over the bytes that are lent and the table's symbols. A match on the letter, here and below: each call has parameters of its own.
fn act(
    stdout: Stdout,
    letter: u8,
    l: &[i32],
    s: &mut [u8],
    t: &[u8],
    places: &mut [i32],
    state: State,
) -> Coder {
    let coder = state.coder;
    match letter {
        b'S' | b'O' | b'K' | b'k' => begin::begin(stdout, letter, l, s, coder),
        b'D' => begin::damage(stdout, l, s, coder),
        _ => call(stdout, letter, l, s, t, places, state),
    }
}

// The same, over as many bytes as the requests up to it say.
fn lend(
    stdout: Stdout,
    letter: u8,
    l: &[i32],
    bytes: &mut [u8],
    table: &[u8],
    places: &mut [i32],
    state: State,
) -> State {
    let n = state.lent;
    if bytes.len() < n {
        return state;
    }
    let t = input::first(table, state.symbols);
    let coder = act(stdout, letter, l, &mut bytes[..n], t, places, state);
    state.with_coder(coder)
}

// A request by its letter and its numbers, of which there are so many.
fn ask(
    stdout: Stdout,
    letter: u8,
    l: &[i32],
    count: usize,
    bytes: &mut [u8],
    table: &mut [u8],
    places: &mut [i32],
    state: State,
) -> State {
    match letter {
        b'T' => {
            list::bytes_of(list::part(l, 1, 256), table);
            state.with_table(count, word(l, 0))
        }
        b'P' => state.with_pair(word(l, 0), word(l, 1)),
        b'Z' | b'A' => {
            vectors::lay(letter, l, places);
            state
        }
        _ => {
            let on = state.with_lent(letter, l, bytes.len());
            lend(stdout, letter, l, bytes, table, places, on)
        }
    }
}

// Answers a line; the state after it.
fn step(
    stdout: Stdout,
    request: &[u8],
    bytes: &mut [u8],
    table: &mut [u8],
    places: &mut [i32],
    state: State,
) -> State {
    let mut l = [0i32; 257];
    match list::read(request, 1, &mut l) {
        Some(count) => ask(
            stdout,
            input::byte(request, 0),
            &l,
            count,
            bytes,
            table,
            places,
            state,
        ),
        None => {
            reply::malformed(stdout);
            state
        }
    }
}

// The buffers, and the state that goes from line to line.
fn main(rt: HostRuntime) {
    let mut block = [0u8; 65536];
    let mut line = [0u8; 1200];
    let mut bytes = [0u8; 1300];
    let mut table = [0u8; 256];
    let mut places = [0i32; 176];
    let mut state = fresh();
    let stdout = rt.stdout();
    input::each(rt.stdin(), &mut block, &mut line, |request| {
        state = step(stdout, request, &mut bytes, &mut table, &mut places, state);
    });
}
