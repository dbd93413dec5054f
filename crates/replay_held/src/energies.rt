// Coarse energies.
use crate::reader;
use entcode::Refusal;
use entdec::Reader;
use replay_io::floats::floats_of;
use replay_io::list::{at, part};
use replay_io::reply;
use replay_io::say::{floats, numbers, text};
use std::io::Stdout;

// A letter, the number that is printed, which is 0 or a refusal's, and the reader after it.
fn say_energies(stdout: Stdout, letter: u8, code: u32, next: Reader) {
    numbers(stdout, &[letter], &[code]);
    reply::reader(stdout, next);
}

// Energies, and the end of the line.
pub fn ended(stdout: Stdout, x: &[f32]) {
    text(stdout, b" ");
    floats(stdout, x);
    text(stdout, b"\n");
}

// What a call by value answered to d.
pub fn say_next(stdout: Stdout, letter: u8, d: Reader, a: Result<Reader, Refusal>) {
    match a {
        Ok(next) => say_energies(stdout, letter, 0, next),
        Err(why) => say_energies(stdout, letter, u32::from(why), d),
    }
}

// By value.
fn read(stdout: Stdout, l: &[i32], s: &[u8]) {
    let d = reader(l);
    let mut x = [0.0f32; 42];
    floats_of(part(l, 20, 42), &mut x);
    let a = quant_bands::unquant_coarse_energy(
        d,
        s,
        &mut x,
        at(l, 0),
        at(l, 1),
        at(l, 2),
        at(l, 3),
        at(l, 4),
    );
    say_next(stdout, b'E', d, a);
    ended(stdout, &x);
}

// By a held reader.
fn read_held(stdout: Stdout, l: &[i32], s: &[u8]) {
    let mut x = [0.0f32; 42];
    floats_of(part(l, 20, 42), &mut x);
    let y = reader_held::plain::coarse(
        reader(l),
        s,
        &mut x,
        at(l, 0),
        at(l, 1),
        at(l, 2),
        at(l, 3),
        at(l, 4),
    );
    say_next(stdout, b'E', y.next, y.answer.map(|_| y.next));
    ended(stdout, &x);
}

// E: coarse energies, which are listed as they were.
pub fn ask(stdout: Stdout, l: &[i32], s: &[u8]) {
    read(stdout, l, s);
    read_held(stdout, l, s);
}
