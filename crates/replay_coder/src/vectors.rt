// Pulse words as public calls.
use crate::Coder;
use entdec::Reader;
use entenc::Writer;
use replay_io::list::{at, word};
use replay_io::reply;
use replay_io::say::{list, numbers, text};
use std::io::Stdout;

// Z: every place becomes 0. A: one becomes a number.
pub fn lay(letter: u8, l: &[i32], places: &mut [i32]) {
    if letter == b'Z' {
        places.fill(0);
        return;
    }
    let i = word(l, 0) as usize;
    if i < places.len() {
        places[i] = at(l, 1);
    }
}

// W: the vector in the first places. Of the state total, rng and val are said.
pub fn put(stdout: Stdout, l: &[i32], s: &mut [u8], places: &[i32], w: Writer) -> Coder {
    match cwrs::encode_pulses(w, s, places, word(l, 0), word(l, 1)) {
        Ok(next) => {
            numbers(stdout, b"W", &[next.total, next.rng, next.val]);
            text(stdout, b"\n");
            Coder::Writing(next)
        }
        Err(why) => {
            reply::refused(stdout, why);
            Coder::Writing(w)
        }
    }
}

// A place and its value, where it is not 0.
fn say_place(stdout: Stdout, at: usize, value: i32) {
    if value == 0 {
        return;
    }
    if at < 65536 {
        numbers(stdout, b"", &[at as u32]);
        list(stdout, b"", &[value]);
    }
}

// All places that are not 0.
fn say_places(stdout: Stdout, places: &[i32]) {
    for (i, &value) in places.iter().enumerate() {
        say_place(stdout, i, value);
    }
}

// The line of a vector that was read: its energy, error, total, rng and val of the state, and the places.
fn say_found(stdout: Stdout, energy: u32, next: Reader, places: &[i32]) {
    numbers(
        stdout,
        b"w",
        &[
            energy,
            u32::from(next.error),
            next.total,
            next.rng,
            next.val,
        ],
    );
    say_places(stdout, places);
    text(stdout, b"\n");
}

// w: a vector, into the first places.
pub fn get(stdout: Stdout, l: &[i32], s: &[u8], places: &mut [i32], r: Reader) -> Coder {
    match cwrs::decode_pulses(r, s, places, word(l, 0), word(l, 1)) {
        Ok(f) => {
            say_found(stdout, f.energy, f.next, places);
            Coder::Reading(f.next)
        }
        Err(why) => {
            reply::refused(stdout, why);
            Coder::Reading(r)
        }
    }
}
