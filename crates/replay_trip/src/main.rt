// Runs round trips, one a line of the input, and answers each with a line; tools/compare --record trip makes the trips and the answers. A line is a
// letter and numbers, each after a blank: the storage, the byte that fills it, ten whole numbers (C, LM, start, end, trim, total, intensity, dual
// stereo, previous band count, bandwidth), 21 boosts and 21 caps, the number of table entries and the entries, then five numbers for each
// symbol. Whole numbers are counted: 0, -1, 1, -2, 2, .. as 0, 1, 2, 3, 4, ..
#![tactic(auto)]

mod numbers;
mod say;

use entcode::Refusal;
use numbers::signed;
use rate::{AllocNumbers, Wishes};
use replay_io::list::{part, word};
use replay_io::{input, list};
use std::io::Stdout;
use trip_call::Outcome;

// The allocation's numbers, at the places and in the form that this program's lines have them.
fn asked(l: &[i32]) -> AllocNumbers {
    AllocNumbers {
        c: signed(l, 2),
        lm: signed(l, 3),
        start: signed(l, 4),
        end: signed(l, 5),
        trim: signed(l, 6),
        total: signed(l, 7),
    }
}

// The encoder's wishes, in the same way.
fn wished(l: &[i32]) -> Wishes {
    Wishes {
        intensity: signed(l, 8),
        dual: signed(l, 9),
        previous: signed(l, 10),
        bandwidth: signed(l, 11),
    }
}

// The trip of a line's numbers, over these bytes, tables and symbols.
fn trip(l: &[i32], bytes: &[u8], tables: &[u8], symbols: &[u32]) -> Result<Outcome, Refusal> {
    let mut offsets = [0i32; 21];
    let mut caps = [0i32; 21];
    numbers::whole(numbers::after(l, 12), &mut offsets);
    numbers::whole(numbers::after(l, 33), &mut caps);
    trip_call::round_trip(bytes, symbols, tables, asked(l), wished(l), &offsets, &caps)
}

// The same, over so many bytes, as many table entries as the line says, and the symbols after them.
fn over(l: &[i32], storage: u32, entries: u32) -> Result<Outcome, Refusal> {
    let k = entries as usize;
    let bytes = [(word(l, 1) % 256) as u8; 1300];
    let mut tables = [0u8; 300];
    let mut symbols = [0u32; 1024];
    let rest = numbers::after(l, 55 + k);
    list::bytes_of(numbers::after(l, 55), &mut tables);
    numbers::words(rest, &mut symbols);
    trip(
        l,
        input::first(&bytes, storage as usize),
        input::first(&tables, k),
        input::first(&symbols, rest.len()),
    )
}

// The numbers of a line.
fn answer(stdout: Stdout, l: &[i32]) {
    let storage = word(l, 0);
    let entries = word(l, 54);
    if (1300 < storage) | (300 < entries) {
        return say::malformed(stdout);
    }
    say::trip(stdout, over(l, storage, entries))
}

// Answers a line.
fn step(stdout: Stdout, request: &[u8]) {
    let mut l = [0i32; 1024];
    match list::read(request, 1, &mut l) {
        Some(count) => answer(stdout, part(&l, 0, count)),
        None => say::malformed(stdout),
    }
}

fn main(rt: HostRuntime) {
    let mut block = [0u8; 65536];
    let mut line = [0u8; 12000];
    let stdout = rt.stdout();
    input::each(
        rt.stdin(),
        &mut block,
        &mut line,
        |request| step(stdout, request),
    );
}
