// Frames on a record.
use crate::energies::{ended, say_next};
use crate::reader;
use replay_io::floats::floats_of;
use replay_io::list::{at, part, word};
use replay_io::say::numbers;
use std::io::Stdout;
use stream::{Framed, Record};
use stream_lent::AppliedStep;

// The record of a request: its next number, and the energies that are listed.
fn record(l: &[i32]) -> Record {
    let mut energies = [0.0f32; 42];
    floats_of(part(l, 20, 42), &mut energies);
    Record {
        energies,
        next: u64::from(word(l, 6)),
    }
}

// A record's next number and its energies, and the end of the line.
fn recorded(stdout: Stdout, r: Record) {
    let x = r.energies;
    numbers(stdout, b"", &[(r.next % 4294967296) as u32]);
    ended(stdout, &x);
}

// What the frame by value gave.
fn framed(stdout: Stdout, y: Framed) {
    say_next(stdout, b'F', y.next, y.answer.map(|_| y.next));
    recorded(stdout, y.rec);
}

// What the frame on a lent record answered, and the record then.
fn applied(stdout: Stdout, l: &[i32], y: AppliedStep) {
    say_next(stdout, b'F', reader(l), y.answer);
    recorded(stdout, y.rec);
}

// By value.
fn apply(l: &[i32], s: &[u8]) -> Framed {
    record(l).frame(
        reader(l),
        s,
        u64::from(word(l, 5)),
        at(l, 0),
        at(l, 1),
        at(l, 2),
        at(l, 3),
        at(l, 4),
    )
}

// On a lent record.
fn apply_lent(l: &[i32], s: &[u8]) -> AppliedStep {
    stream_lent::plain::frame(
        record(l),
        reader(l),
        s,
        u64::from(word(l, 5)),
        at(l, 0),
        at(l, 1),
        at(l, 2),
        at(l, 3),
        at(l, 4),
    )
}

// F: a frame on a record.
pub fn ask(stdout: Stdout, l: &[i32], s: &[u8]) {
    framed(stdout, apply(l, s));
    applied(stdout, l, apply_lent(l, s));
}
