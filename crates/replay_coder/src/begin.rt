// What begins a coder over the bytes, and what changes a byte.
use crate::Coder;
use entcode::Refusal;
use entdec::Reader;
use entenc::Writer;
use replay_io::list::word;
use replay_io::reply;
use replay_io::say::text;
use std::io::Stdout;

// A writer's answer and its line; a refusal leaves the coder as it was.
pub fn wrote(
    stdout: Stdout,
    letter: u8,
    a: Result<Writer, Refusal>,
    s: &[u8],
    old: Coder,
) -> Coder {
    match a {
        Ok(w) => {
            text(stdout, &[letter]);
            reply::writer(stdout, w);
            reply::bytes(stdout, s, w.closed);
            text(stdout, b"\n");
            Coder::Writing(w)
        }
        Err(why) => {
            reply::refused(stdout, why);
            old
        }
    }
}

// A new reader and its line.
fn opened(stdout: Stdout, letter: u8, a: Result<Reader, Refusal>, old: Coder) -> Coder {
    match a {
        Ok(r) => {
            reply::opened(stdout, letter, r);
            Coder::Reading(r)
        }
        Err(why) => {
            reply::refused(stdout, why);
            old
        }
    }
}

// S: a new writer, over bytes that all are one number.
fn start(stdout: Stdout, l: &[i32], s: &mut [u8], old: Coder) -> Coder {
    s.fill((word(l, 1) % 256) as u8);
    wrote(stdout, b'S', Writer::new(s), s, old)
}

// S, O, K and k begin a coder over the bytes: K and k with all its numbers.
pub fn begin(stdout: Stdout, letter: u8, l: &[i32], s: &mut [u8], old: Coder) -> Coder {
    match letter {
        b'S' => start(stdout, l, s, old),
        b'O' => opened(stdout, b'O', Reader::new(s), old),
        b'K' => wrote(stdout, b'K', Ok(replay_io::state::writer_of(l)), s, old),
        _ => opened(stdout, b'k', Ok(replay_io::state::reader_of(l)), old),
    }
}

// D: a byte is changed.
pub fn damage(stdout: Stdout, l: &[i32], s: &mut [u8], old: Coder) -> Coder {
    let at = word(l, 0) as usize;
    if at < s.len() {
        s[at] = (word(l, 1) % 256) as u8;
        return old;
    }
    reply::malformed(stdout);
    old
}
