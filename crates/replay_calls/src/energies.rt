// Coarse energies and last bits as public calls: from place 21 on stand the energies, the fine bits, the priorities and the bytes.
use entcode::Refusal;
use entdec::Reader;
use replay_io::floats::floats_of;
use replay_io::list::{at, bytes_of, length_at, part};
use replay_io::reply;
use replay_io::say::{floats, text};
use replay_io::state::reader_of;
use std::io::Stdout;

// E: coarse energies are decoded.
fn coarse(l: &[i32], s: &[u8], energies: &mut [f32]) -> Result<Reader, Refusal> {
    quant_bands::unquant_coarse_energy(
        reader_of(l),
        s,
        energies,
        at(l, 11),
        at(l, 12),
        at(l, 13),
        at(l, 14),
        at(l, 15),
    )
}

// F: the last bits are spent.
fn finalise(
    l: &[i32],
    fine: &[i32],
    priorities: &[i32],
    s: &[u8],
    energies: &mut [f32],
) -> Result<Reader, Refusal> {
    quant_bands::unquant_energy_finalise(
        reader_of(l),
        s,
        energies,
        at(l, 11),
        at(l, 13),
        at(l, 14),
        fine,
        priorities,
        at(l, 16),
    )
}

// The call that a request's letter names.
fn call(letter: u8, l: &[i32], s: &[u8], energies: &mut [f32]) -> Result<Reader, Refusal> {
    if letter == b'E' {
        return coarse(l, s, energies);
    }
    let f = length_at(l, 18, 22);
    let p = length_at(l, 19, 22);
    let m = length_at(l, 17, 43);
    finalise(l, part(l, 21 + m, f), part(l, 21 + m + f, p), s, energies)
}

// What a call says beside the energies.
fn say_answer(stdout: Stdout, letter: u8, answer: Result<Reader, Refusal>) {
    match answer {
        Ok(next) => {
            text(stdout, &[letter]);
            reply::reader(stdout, next);
        }
        Err(why) => reply::refusal(stdout, why),
    }
}

// The energies and the bytes of a request go into x and s.
fn fill(l: &[i32], x: &mut [f32], s: &mut [u8]) {
    floats_of(part(l, 21, x.len()), x);
    let m = length_at(l, 17, 43);
    let f = length_at(l, 18, 22);
    let p = length_at(l, 19, 22);
    bytes_of(part(l, 21 + m + f + p, s.len()), s);
}

// The call and its line: what it answers, then the energies that were lent.
fn over(stdout: Stdout, letter: u8, l: &[i32], x: &mut [f32], s: &mut [u8]) {
    fill(l, x, s);
    let answer = call(letter, l, s, x);
    say_answer(stdout, letter, answer);
    text(stdout, b" | ");
    floats(stdout, x);
    text(stdout, b"\n");
}

// A request, over as many energies and bytes as it says.
pub fn ask(stdout: Stdout, letter: u8, l: &[i32]) {
    let m = length_at(l, 17, 43);
    let k = length_at(l, 20, 1276);
    let mut x = [0.0f32; 43];
    let mut s = [0u8; 1276];
    over(stdout, letter, l, &mut x[..m], &mut s[..k]);
}
