// Allocations.
use crate::reader;
use entcode::Refusal;
use rate::{AllocNumbers, ReadAllocation};
use reader_held::{Allocation, Step};
use replay_io::list::{at, part};
use replay_io::reply;
use replay_io::say::{list, text};
use std::io::Stdout;

// What the call by value answered.
fn by_value(stdout: Stdout, a: Result<ReadAllocation, Refusal>) {
    match a {
        Ok(y) => {
            list(stdout, b"A", &[y.coded, y.balance, y.intensity, y.dual]);
            reply::reader(stdout, y.next);
        }
        Err(why) => reply::refusal(stdout, why),
    }
}

// What the held reader answered.
fn by_held(stdout: Stdout, y: Step<Allocation>) {
    match y.answer {
        Ok(a) => {
            list(stdout, b"A", &[a.coded, a.balance, a.intensity, a.dual]);
            reply::reader(stdout, y.next);
        }
        Err(why) => reply::refusal(stdout, why),
    }
}

// The lists, and the end of the line.
fn lists(stdout: Stdout, pulses: &[i32], fine: &[i32], priorities: &[i32]) {
    list(stdout, b" |", pulses);
    list(stdout, b" |", fine);
    list(stdout, b" |", priorities);
    text(stdout, b"\n");
}

// The allocation's numbers, at the places that this program's requests have them.
fn asked(l: &[i32]) -> AllocNumbers {
    AllocNumbers {
        c: at(l, 0),
        lm: at(l, 1),
        start: at(l, 2),
        end: at(l, 3),
        trim: at(l, 4),
        total: at(l, 5),
    }
}

// By value.
fn read(stdout: Stdout, l: &[i32], s: &[u8]) {
    let mut pulses = [0i32; 21];
    let mut fine = [0i32; 21];
    let mut priorities = [0i32; 21];
    let a = rate::clt_compute_allocation_read(
        reader(l),
        s,
        asked(l),
        part(l, 20, 21),
        part(l, 41, 21),
        &mut pulses,
        &mut fine,
        &mut priorities,
    );
    by_value(stdout, a);
    lists(stdout, &pulses, &fine, &priorities);
}

// By a held reader.
fn read_held(stdout: Stdout, l: &[i32], s: &[u8]) {
    let mut pulses = [0i32; 21];
    let mut fine = [0i32; 21];
    let mut priorities = [0i32; 21];
    let y = reader_held::plain::allocation(
        reader(l),
        s,
        asked(l),
        part(l, 20, 21),
        part(l, 41, 21),
        &mut pulses,
        &mut fine,
        &mut priorities,
    );
    by_held(stdout, y);
    lists(stdout, &pulses, &fine, &priorities);
}

// A: an allocation, whose offsets and caps are listed.
pub fn ask(stdout: Stdout, l: &[i32], s: &[u8]) {
    read(stdout, l, s);
    read_held(stdout, l, s);
}
