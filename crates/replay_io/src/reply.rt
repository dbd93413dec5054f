// Answers as text: a state is its numbers in the order of the port, then tell and tell_frac.
use crate::say::{hex, numbers, text};
use entcode::Refusal;
use entdec::Reader;
use entenc::Writer;
use std::io::Stdout;

// What tell or tell_frac says; X before the number of a refusal.
fn say_tell(stdout: Stdout, t: Result<u32, Refusal>) {
    match t {
        Ok(v) => numbers(stdout, b"", &[v]),
        Err(why) => numbers(stdout, b" X", &[u32::from(why)]),
    }
}

// A writer's state.
pub fn writer(stdout: Stdout, w: Writer) {
    let s = w.sink;
    numbers(
        stdout,
        b"",
        &[
            s.storage,
            s.offs,
            s.ends,
            w.window,
            w.waiting,
            w.total,
            w.rng,
            w.val,
            w.ext,
            w.rem,
            u32::from(s.error),
            u32::from(w.closed),
        ],
    );
    say_tell(stdout, w.tell());
    say_tell(stdout, w.tell_frac());
}

// A reader's state.
pub fn reader(stdout: Stdout, r: Reader) {
    numbers(
        stdout,
        b"",
        &[
            r.storage,
            r.offs,
            r.ends,
            r.window,
            r.waiting,
            r.total,
            r.rng,
            r.val,
            r.ext,
            r.rem,
            u32::from(r.error),
        ],
    );
    say_tell(stdout, r.tell());
    say_tell(stdout, r.tell_frac());
}

// The bytes after a close, and up to 60 of them after any write.
pub fn bytes(stdout: Stdout, s: &[u8], closed: bool) {
    if s.len() == 0 {
        return;
    }
    if closed | (s.len() <= 60) {
        text(stdout, b" ");
        hex(stdout, s);
    }
}

// The line of a new reader.
pub fn opened(stdout: Stdout, letter: u8, r: Reader) {
    text(stdout, &[letter]);
    reader(stdout, r);
    text(stdout, b"\n");
}

// The line of a read that was taken.
pub fn read(stdout: Stdout, letter: u8, value: u32, r: Reader) {
    numbers(stdout, &[letter], &[value]);
    reader(stdout, r);
    text(stdout, b"\n");
}

// A refusal.
pub fn refusal(stdout: Stdout, why: Refusal) {
    numbers(stdout, b"X", &[u32::from(why)]);
}

// The line of a call that was refused, by a refusal or by its number.
pub fn refused<N: Into<u32>>(stdout: Stdout, why: N) {
    numbers(stdout, b"X", &[why.into()]);
    text(stdout, b"\n");
}

// The line of a letter that names no call.
pub fn unknown(stdout: Stdout) {
    refused(stdout, 0u32);
}

// The line of a request that has no meaning.
pub fn malformed(stdout: Stdout) {
    text(stdout, b"?\n");
}
