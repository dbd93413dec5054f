// Recorded calls answered twice, by the calls by value and by the reader that holds its packet or the record that is lent: one request a line,
// and two lines for each, which must be alike. tools/compare --record held makes the requests and the answers, and says their form. The numbers of a
// request stand in a list l: its own at places 0 to 7, the reader at 8 to 18, the packet's length at 19, a list at 20 to 61, and the packet.
// Each call stands twice, by value and held: both are public calls, and a closure for either would have all its parameters.
#![tactic(auto)]

mod allocations;
mod energies;
mod frames;
mod symbols;
mod values;

use entcode::{Coded, Refusal};
use entdec::Reader;
use reader_held::Step;
use replay_io::{input, list, reply};
use std::io::Stdout;

// The reader of a request.
pub fn reader(l: &[i32]) -> Reader {
    replay_io::state::reader_of(list::part(l, 8, 11))
}

// What a held reader answered, in the form of the call by value.
pub fn valued<T>(y: Step<T>) -> Result<Coded<T, Reader>, Refusal> {
    y.answer.map(|value| Coded {
        value,
        next: y.next,
    })
}

// The call that a request's letter names, by value and then held: a match, since each has parameters of its own.
fn call(stdout: Stdout, letter: u8, l: &[i32], s: &[u8]) {
    match letter {
        b'A' => allocations::ask(stdout, l, s),
        b'E' => energies::ask(stdout, l, s),
        b'F' => frames::ask(stdout, l, s),
        b'O' => symbols::open(stdout, s),
        b'i' => symbols::table(stdout, l, s),
        b'l' => values::ask(stdout, l, s),
        _ => symbols::ask(stdout, letter, l, s),
    }
}

// The same, its packet in s.
fn over(stdout: Stdout, letter: u8, l: &[i32], s: &mut [u8]) {
    list::bytes_of(list::part(l, 62, s.len()), s);
    call(stdout, letter, l, s);
}

// A request by its letter and its numbers.
fn ask(stdout: Stdout, letter: u8, l: &[i32]) {
    let k = list::length_at(l, 19, 1276);
    let mut s = [0u8; 1276];
    over(stdout, letter, l, &mut s[..k]);
}

// Answers a line.
fn step(stdout: Stdout, request: &[u8]) {
    let mut l = [0i32; 1338];
    match list::read(request, 1, &mut l) {
        Some(_) => ask(stdout, input::byte(request, 0), &l),
        None => reply::malformed(stdout),
    }
}

fn main(rt: HostRuntime) {
    let mut block = [0u8; 65536];
    let mut line = [0u8; 16384];
    let stdout = rt.stdout();
    input::each(
        rt.stdin(),
        &mut block,
        &mut line,
        |request| step(stdout, request),
    );
}
