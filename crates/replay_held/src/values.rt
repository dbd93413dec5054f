// Laplace values.
use crate::{reader, valued};
use entcode::Refusal;
use entdec::Reader;
use laplace::LapSym;
use replay_io::list::word;
use replay_io::reply;
use replay_io::say::{list, text};
use std::io::Stdout;

// The line of a value.
fn line(stdout: Stdout, value: i32, next: Reader) {
    list(stdout, b"l", &[value]);
    reply::reader(stdout, next);
    text(stdout, b"\n");
}

// What a call answered.
fn say(stdout: Stdout, a: Result<LapSym, Refusal>) {
    match a {
        Ok(y) => line(stdout, y.value, y.next),
        Err(why) => reply::refused(stdout, why),
    }
}

// l: a Laplace value.
pub fn ask(stdout: Stdout, l: &[i32], s: &[u8]) {
    let d = reader(l);
    let fs = word(l, 0);
    let decay = word(l, 1);
    say(stdout, laplace::ec_laplace_decode(d, s, fs, decay));
    say(stdout, valued(reader_held::plain::laplace(d, s, fs, decay)));
}
