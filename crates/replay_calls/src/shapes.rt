// Shapes as public calls: from place 18 on stand the bytes.
use entcode::Refusal;
use replay_io::floats::float_of;
use replay_io::list::{at, bytes_of, length_at, part, word};
use replay_io::reply;
use replay_io::say::{floats, numbers, text};
use std::io::Stdout;
use vq::ReadShape;

// What the call says beside the shape.
fn say_answer(stdout: Stdout, answer: Result<ReadShape, Refusal>) {
    match answer {
        Ok(r) => {
            numbers(stdout, b"U", &[r.mask]);
            reply::reader(stdout, r.next);
        }
        Err(why) => reply::refusal(stdout, why),
    }
}

// The call over these bytes and places, and its line.
fn call(stdout: Stdout, l: &[i32], s: &[u8], shape: &mut [f32]) {
    let answer = vq::alg_unquant(
        replay_io::state::reader_of(l),
        s,
        shape,
        at(l, 11),
        at(l, 12),
        at(l, 13),
        at(l, 14),
        float_of(word(l, 15)),
    );
    say_answer(stdout, answer);
    text(stdout, b" | ");
    floats(stdout, shape);
    text(stdout, b"\n");
}

// The same, its bytes in s.
fn over(stdout: Stdout, l: &[i32], s: &mut [u8], shape: &mut [f32]) {
    bytes_of(part(l, 18, s.len()), s);
    call(stdout, l, s, shape);
}

// U: a shape, over as many bytes and places as the request says.
pub fn ask(stdout: Stdout, l: &[i32]) {
    let n = length_at(l, 16, 200);
    let k = length_at(l, 17, 1276);
    let mut shape = [0.5f32; 200];
    let mut s = [0u8; 1276];
    over(stdout, l, &mut s[..k], &mut shape[..n]);
}
