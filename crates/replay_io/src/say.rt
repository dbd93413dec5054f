// Pieces of an answer on standard output, each made in bytes of its own, as many as it may need, and written at once.
ghost use Rattle.std.specs.Prelude.{◌≤◌};

use super::floats::push_float;
use super::input::first;
use super::{push_all, push_decimal, push_hex, push_number};
use std::io::{Print, Stdout};

// Writes a text as it is.
pub fn text(stdout: Stdout, s: &[u8]) {
    let _ = stdout.write_all(s);
}

// A piece made in N bytes: `push` writes it into them, and answers how many it has.
fn piece<const N: usize, F: Fn(&mut [u8]) -> usize>(stdout: Stdout, push: F)
    requires size { N ≤ 4096 }
    requires calls { F.IsAlwaysCallable push }
{
    let mut out = [0u8; N];
    let n = push(&mut out);
    text(stdout, first(&out, n));
}

// The text with each entry of a list after it, by what puts one there.
pub fn push_each<T: Copy, F: Fn(&mut [u8], usize, T) -> usize>(
    out: &mut [u8],
    n: usize,
    l: &[T],
    push: F,
) -> usize
    requires { F.IsAlwaysCallable push }
{
    let mut k = n;
    for &x in l {
        k = push(out, k, x);
    }
    k
}

// A text, and after it each number with a blank before it; as much of it as 256 bytes hold.
pub fn numbers(stdout: Stdout, before: &[u8], v: &[u32]) {
    piece::<256, _>(stdout, |out| {
        let k = push_all(out, 0, before);
        push_each(out, k, v, push_number)
    });
}

// The text with a blank and v in decimal after it, a minus before a negative number.
fn push_signed(out: &mut [u8], n: usize, v: i32) -> usize {
    let size = v.unsigned_abs();
    if 0 <= v {
        return push_number(out, n, size);
    }
    let k = push_all(out, n, b" -");
    push_decimal(out, k, size)
}

// A text, and after it each whole number with a blank before it; as much of it as 512 bytes hold.
pub fn list(stdout: Stdout, before: &[u8], l: &[i32]) {
    piece::<512, _>(stdout, |out| {
        let k = push_all(out, 0, before);
        push_each(out, k, l, push_signed)
    });
}

// Bytes in lowercase hex, of which there may be 1,280.
pub fn hex(stdout: Stdout, s: &[u8]) {
    piece::<2560, _>(stdout, |out| push_hex(out, 0, s));
}

// Each f32 as the eight hex digits of its bits, of which there may be 200.
pub fn floats(stdout: Stdout, x: &[f32]) {
    piece::<1600, _>(stdout, |out| push_each(out, 0, x, push_float));
}
