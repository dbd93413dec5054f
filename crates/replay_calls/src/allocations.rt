// Whole allocations as public calls: from place 28 on stand the offsets, the caps and the bytes.
use entcode::Refusal;
use rate::{AllocNumbers, ReadAllocation, Wishes, WrittenAllocation};
use replay_io::list::{at, bytes_of, length_at, part};
use replay_io::reply;
use replay_io::say::{hex, list, text};
use std::io::Stdout;

// What was read beside the lists. A reader has other numbers to print than a writer, below.
fn say_read(stdout: Stdout, answer: Result<ReadAllocation, Refusal>) {
    match answer {
        Ok(y) => {
            text(stdout, b"R");
            reply::reader(stdout, y.next);
            list(stdout, b" |", &[y.coded, y.balance, y.intensity, y.dual]);
        }
        Err(why) => reply::refusal(stdout, why),
    }
}

// What was written beside lists and bytes.
fn say_written(stdout: Stdout, answer: Result<WrittenAllocation, Refusal>) {
    match answer {
        Ok(y) => {
            text(stdout, b"W");
            reply::writer(stdout, y.next);
            list(stdout, b" |", &[y.coded, y.balance, y.intensity, y.dual]);
        }
        Err(why) => reply::refusal(stdout, why),
    }
}

// The allocation's numbers. Each program has them at other places of its requests, and makes the struct by its fields.
fn asked(l: &[i32]) -> AllocNumbers {
    AllocNumbers {
        c: at(l, 12),
        lm: at(l, 13),
        start: at(l, 14),
        end: at(l, 15),
        trim: at(l, 16),
        total: at(l, 17),
    }
}

// The encoder's wishes.
fn wished(l: &[i32]) -> Wishes {
    Wishes {
        intensity: at(l, 18),
        dual: at(l, 19),
        previous: at(l, 20),
        bandwidth: at(l, 21),
    }
}

// R: an allocation is read.
fn read(
    stdout: Stdout,
    l: &[i32],
    offsets: &[i32],
    caps: &[i32],
    s: &[u8],
    pulses: &mut [i32],
    fine: &mut [i32],
    priorities: &mut [i32],
) {
    let answer = rate::clt_compute_allocation_read(
        replay_io::state::reader_of(l),
        s,
        asked(l),
        offsets,
        caps,
        pulses,
        fine,
        priorities,
    );
    say_read(stdout, answer);
}

// W: an allocation is written.
fn write(
    stdout: Stdout,
    l: &[i32],
    offsets: &[i32],
    caps: &[i32],
    s: &mut [u8],
    pulses: &mut [i32],
    fine: &mut [i32],
    priorities: &mut [i32],
) {
    let answer = rate::clt_compute_allocation_write(
        replay_io::state::writer_of(l),
        s,
        asked(l),
        wished(l),
        offsets,
        caps,
        pulses,
        fine,
        priorities,
    );
    say_written(stdout, answer);
}

// The call that a request's letter names.
fn call(
    stdout: Stdout,
    letter: u8,
    l: &[i32],
    s: &mut [u8],
    pulses: &mut [i32],
    fine: &mut [i32],
    priorities: &mut [i32],
) {
    let m = length_at(l, 22, 22);
    let offsets = part(l, 28, m);
    let caps = part(l, 28 + m, length_at(l, 23, 22));
    if letter == b'R' {
        return read(stdout, l, offsets, caps, s, pulses, fine, priorities);
    }
    write(stdout, l, offsets, caps, s, pulses, fine, priorities)
}

// The lists and the bytes that were lent, and the end of the line.
fn say_lists(stdout: Stdout, s: &[u8], pulses: &[i32], fine: &[i32], priorities: &[i32]) {
    list(stdout, b" |", pulses);
    list(stdout, b" |", fine);
    list(stdout, b" |", priorities);
    text(stdout, b" | ");
    hex(stdout, s);
    text(stdout, b"\n");
}

// The call and its line, over lists for the answer.
fn over(
    stdout: Stdout,
    letter: u8,
    l: &[i32],
    s: &mut [u8],
    pulses: &mut [i32],
    fine: &mut [i32],
    priorities: &mut [i32],
) {
    call(stdout, letter, l, s, pulses, fine, priorities);
    say_lists(stdout, s, pulses, fine, priorities);
}

// The same, over lists as long as the request says. The bytes go into s.
fn lend(stdout: Stdout, letter: u8, l: &[i32], s: &mut [u8]) {
    let from = 28 + length_at(l, 22, 22) + length_at(l, 23, 22);
    bytes_of(part(l, from, s.len()), s);
    let p = length_at(l, 24, 22);
    let f = length_at(l, 25, 22);
    let q = length_at(l, 26, 22);
    let mut pulses = [-1i32; 22];
    let mut fine = [-2i32; 22];
    let mut priorities = [-3i32; 22];
    over(
        stdout,
        letter,
        l,
        s,
        &mut pulses[..p],
        &mut fine[..f],
        &mut priorities[..q],
    );
}

// A request, over as many bytes as it says.
pub fn ask(stdout: Stdout, letter: u8, l: &[i32]) {
    let k = length_at(l, 27, 1276);
    let mut s = [0u8; 1276];
    lend(stdout, letter, l, &mut s[..k]);
}
