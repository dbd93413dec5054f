// Lines of numbers, read and written, for the programs that replay recorded answers. A text that is made stands in the first n bytes
// of a lent buffer. Every function answers every input.
// The programs' functions take of a request what they need, one by one: its letter, its numbers, its bytes, and where the answer goes.
#![tactic(auto)]

ghost use Rattle.std.specs.Prelude.{◌≡◌, ◌≤◌, [], ◌∷◌, length, take};
ghost use Rattle.text.specs.Written.{decimal_of};
ghost use Rattle.replay_io.specs.Text.{appended, hex_bytes_of};

use std::io::{Read, Stdin};
use text::write::{decimal, glyph};

pub mod floats;
pub mod input;
pub mod list;
pub mod reply;
pub mod say;
pub mod state;

// The text with one byte more, as far as the buffer has room; its length. `push` of text::lines has another promise, by which lines are cut.
fn push(out: &mut [u8], n: usize, b: u8) -> usize
    ensures { take result out.new ≡ appended (length out.old) (take n out.old) (b ∷ []) }
{
    if n < out.len() {
        out[n] = b;
        return n + 1;
    }
    n
}

// The text with all of s after it, as far as the buffer has room; its length.
fn push_all(out: &mut [u8], n: usize, s: &[u8]) -> usize
    ensures { take result out.new ≡ appended (length out.old) (take n out.old) s.now }
{
    let mut k = n;
    for &b in s {
        k = push(out, k, b);
    }
    k
}

// The text with v in decimal after it.
fn push_decimal(out: &mut [u8], n: usize, v: u32) -> usize
    ensures { take result out.new ≡ appended (length out.old) (take n out.old) (decimal_of v) }
{
    let mut figures = [0u8; 10];
    let count = decimal(v, &mut figures, 0);
    push_all(out, n, &figures[..count])
}

// The text with a blank and v in decimal after it.
fn push_number(out: &mut [u8], n: usize, v: u32) -> usize
    ensures { take result out.new ≡ appended (length out.old) (take n out.old) (32 ∷ decimal_of v) }
{
    let k = push(out, n, b' ');
    push_decimal(out, k, v)
}

// The text with the bytes s in lowercase hex after it.
fn push_hex(out: &mut [u8], n: usize, s: &[u8]) -> usize
    ensures { take result out.new ≡ appended (length out.old) (take n out.old) (hex_bytes_of s.now) }
{
    let mut k = n;
    for &b in s {
        k = push(out, k, glyph(u32::from(b / 16 % 16)));
        k = push(out, k, glyph(u32::from(b % 16)));
    }
    k
}

// Reads once from standard input; how many bytes came, 0 at the end and where the read fails.
fn read_some(mut stdin: Stdin, block: &mut [u8]) -> usize
    ensures { (result ≤ length block.new) × (result ≡ length (take result block.new)) }
{
    stdin.read(block).unwrap_or(0)
}
