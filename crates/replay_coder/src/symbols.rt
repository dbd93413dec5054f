// Symbols and the close, as public calls of the reader and the writer.
use crate::Coder;
use crate::begin::wrote;
use entcode::Refusal;
use entdec::{ReadSymbol, Reader};
use entenc::Writer;
use replay_io::list::word;
use replay_io::reply;
use std::io::Stdout;

// What a write or the close answers; none for a letter that is none of them.
fn put(
    letter: u8,
    l: &[i32],
    s: &mut [u8],
    t: &[u8],
    ftb: u32,
    w: Writer,
) -> Option<Result<Writer, Refusal>> {
    match letter {
        b'B' => Some(w.bit_logp(s, word(l, 0), word(l, 1))),
        b'I' => Some(w.icdf(s, word(l, 0), t, ftb)),
        b'U' => Some(w.uint(s, word(l, 0), word(l, 1))),
        b'R' => Some(w.bits(s, word(l, 0), word(l, 1))),
        b'C' => Some(w.close(s)),
        _ => None,
    }
}

// The same, and its line.
pub fn write(
    stdout: Stdout,
    letter: u8,
    l: &[i32],
    s: &mut [u8],
    t: &[u8],
    ftb: u32,
    w: Writer,
) -> Coder {
    match put(letter, l, s, t, ftb, w) {
        Some(a) => wrote(stdout, letter, a, s, Coder::Writing(w)),
        None => {
            reply::unknown(stdout);
            Coder::Writing(w)
        }
    }
}

// What a read answers; none for a letter that is none.
fn get(
    letter: u8,
    l: &[i32],
    s: &[u8],
    t: &[u8],
    ftb: u32,
    r: Reader,
) -> Option<Result<ReadSymbol, Refusal>> {
    match letter {
        b'b' => Some(r.bit_logp(s, word(l, 0))),
        b'i' => Some(r.icdf(s, t, ftb)),
        b'u' => Some(r.uint(s, word(l, 0))),
        b'r' => Some(r.bits(s, word(l, 0))),
        _ => None,
    }
}

// The same, and its line.
pub fn read(
    stdout: Stdout,
    letter: u8,
    l: &[i32],
    s: &[u8],
    t: &[u8],
    ftb: u32,
    r: Reader,
) -> Coder {
    match get(letter, l, s, t, ftb, r) {
        Some(Ok(g)) => {
            reply::read(stdout, letter, g.value, g.next);
            return Coder::Reading(g.next);
        }
        Some(Err(why)) => reply::refused(stdout, why),
        None => reply::unknown(stdout),
    }
    Coder::Reading(r)
}
