// Symbols and a new reader.
use crate::{reader, valued};
use entcode::Refusal;
use entdec::{ReadSymbol, Reader};
use reader_held::{Step, plain};
use replay_io::list::word;
use replay_io::{list, reply};
use std::io::Stdout;

// What a call answered.
fn say(stdout: Stdout, letter: u8, a: Result<ReadSymbol, Refusal>) {
    match a {
        Ok(y) => reply::read(stdout, letter, y.value, y.next),
        Err(why) => reply::refused(stdout, why),
    }
}

// A bit, a number or raw bits, by value.
fn asked(letter: u8, d: Reader, s: &[u8], p: u32) -> Result<ReadSymbol, Refusal> {
    match letter {
        b'b' => d.bit_logp(s, p),
        b'u' => d.uint(s, p),
        _ => d.bits(s, p),
    }
}

// The same of a held reader.
fn asked_held(letter: u8, d: Reader, s: &[u8], p: u32) -> Step<u32> {
    match letter {
        b'b' => plain::bit_logp(d, s, p),
        b'u' => plain::uint(d, s, p),
        _ => plain::bits(d, s, p),
    }
}

// b, u, r: a bit, a number below ft, raw bits.
pub fn ask(stdout: Stdout, letter: u8, l: &[i32], s: &[u8]) {
    let d = reader(l);
    let p = word(l, 0);
    say(stdout, letter, asked(letter, d, s, p));
    say(stdout, letter, valued(asked_held(letter, d, s, p)));
}

// A symbol of a table, which goes into t.
fn table_in(stdout: Stdout, l: &[i32], t: &mut [u8], s: &[u8]) {
    list::bytes_of(list::part(l, 20, t.len()), t);
    let d = reader(l);
    let ftb = word(l, 0);
    say(stdout, b'i', d.icdf(s, t, ftb));
    say(stdout, b'i', valued(plain::icdf(d, s, t, ftb)));
}

// i: a symbol of a table.
pub fn table(stdout: Stdout, l: &[i32], s: &[u8]) {
    let m = list::length_at(l, 1, 42);
    let mut t = [0u8; 42];
    table_in(stdout, l, &mut t[..m], s);
}

// A new reader.
fn started(stdout: Stdout, a: Result<Reader, Refusal>) {
    match a {
        Ok(d) => reply::opened(stdout, b'O', d),
        Err(why) => reply::refused(stdout, why),
    }
}

// O: a new reader of the packet.
pub fn open(stdout: Stdout, s: &[u8]) {
    started(stdout, Reader::new(s));
    let y = plain::begin(s);
    started(stdout, y.answer.map(|_| y.next));
}
