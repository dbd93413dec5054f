// Replays requests that stand for themselves, one a line, and answers each with a line: the allocation's lookups, whole allocations, energies and
// shapes; tools/compare makes them and says their form. The numbers of a request stand in a list l.
#![tactic(auto)]

mod allocations;
mod energies;
mod lookups;
mod shapes;

use replay_io::{input, list, reply};
use std::io::Stdout;

// A request by its letter and its numbers. A match, as in the other programs: each letter names a call with parameters of its own.
fn ask(stdout: Stdout, letter: u8, l: &[i32]) {
    match letter {
        b'R' | b'W' => allocations::ask(stdout, letter, l),
        b'E' | b'F' => energies::ask(stdout, letter, l),
        b'U' => shapes::ask(stdout, l),
        b'G' | b'B' | b'b' => lookups::ask(stdout, letter, l),
        _ => reply::malformed(stdout),
    }
}

// Answers a line.
fn step(stdout: Stdout, request: &[u8]) {
    let mut l = [0i32; 1384];
    match list::read(request, 1, &mut l) {
        Some(_) => ask(stdout, input::byte(request, 0), &l),
        None => reply::malformed(stdout),
    }
}

fn main(rt: HostRuntime) {
    let mut block = [0u8; 65536];
    let mut line = [0u8; 8192];
    let stdout = rt.stdout();
    input::each(
        rt.stdin(),
        &mut block,
        &mut line,
        |request| step(stdout, request),
    );
}
