// Laplace values as public calls.
use crate::Coder;
use entdec::Reader;
use entenc::Writer;
use replay_io::reply;
use replay_io::say::{list, text};
use std::io::Stdout;

// The line of a value that was written: the value that counts, and the state.
fn say_written(stdout: Stdout, value: i32, next: Writer, s: &[u8]) {
    list(stdout, b"L", &[value]);
    reply::writer(stdout, next);
    reply::bytes(stdout, s, false);
    text(stdout, b"\n");
}

// L: a value of the pair.
pub fn put(stdout: Stdout, value: i32, s: &mut [u8], fs: u32, decay: u32, w: Writer) -> Coder {
    match laplace::ec_laplace_encode(w, s, value, fs, decay) {
        Ok(done) => {
            say_written(stdout, done.value, done.next, s);
            Coder::Writing(done.next)
        }
        Err(why) => {
            reply::refused(stdout, why);
            Coder::Writing(w)
        }
    }
}

// The line of a value that was read.
fn say_read(stdout: Stdout, value: i32, next: Reader) {
    list(stdout, b"l", &[value]);
    reply::reader(stdout, next);
    text(stdout, b"\n");
}

// l: a value of the pair.
pub fn get(stdout: Stdout, s: &[u8], fs: u32, decay: u32, r: Reader) -> Coder {
    match laplace::ec_laplace_decode(r, s, fs, decay) {
        Ok(got) => {
            say_read(stdout, got.value, got.next);
            Coder::Reading(got.next)
        }
        Err(why) => {
            reply::refused(stdout, why);
            Coder::Reading(r)
        }
    }
}
