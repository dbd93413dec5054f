// The lines of standard input, one by one.
use super::{push, read_some};
use std::io::Stdin;

// Where the input stands: how long the line in its buffer is, whether its line feed came (no Option: a line without one goes on in the next
// block), the next place in the block that was read last, and how many bytes that has.
#[derive(Clone, Copy)]
pub struct Line {
    pub length: usize,
    pub whole: bool,
    pub at: usize,
    pub count: usize,
}

// Before the first line.
pub fn begin() -> Line {
    Line {
        length: 0,
        whole: false,
        at: 0,
        count: 0,
    }
}

// The byte at a place, and a line feed past the end.
pub fn byte(s: &[u8], at: usize) -> u8 {
    s.get(at).copied().unwrap_or(b'\n')
}

// The first n entries of a buffer, or all that there are.
pub fn first<T>(s: &[T], n: usize) -> &[T] {
    s.get(..n).unwrap_or(s)
}

// The bytes of the block up to a line feed go after the first n bytes of the line, as far as there is room.
fn take(block: &[u8], from: usize, count: usize, line: &mut [u8], n: usize) -> Line {
    let mut k = n;
    for at in from..count {
        let b = byte(block, at);
        if b == b'\n' {
            return Line {
                length: k,
                whole: true,
                at: at + 1,
                count,
            };
        }
        k = push(line, k, b);
    }
    Line {
        length: k,
        whole: false,
        at: count,
        count,
    }
}

// The next line. Where it is not whole, the input is at its end. Nothing says that the input ends, so the blocks are counted.
pub fn next(stdin: Stdin, block: &mut [u8], line: &mut [u8], from: Line) -> Line {
    let mut t = take(block, from.at, from.count, line, 0);
    for _ in 0..65536 {
        if t.whole {
            return t;
        }
        let count = read_some(stdin, block);
        if count == 0 {
            return t;
        }
        t = take(block, 0, count, line, t.length);
    }
    t
}

// Has each line of the input answered, which is lent without its line feed.
pub fn each<F: FnMut(&[u8])>(stdin: Stdin, block: &mut [u8], line: &mut [u8], mut answer: F)
    requires { F.IsAlwaysCallable answer }
{
    let mut t = begin();
    for _ in 0..u32::MAX {
        t = next(stdin, block, line, t);
        if !t.whole {
            return;
        }
        answer(first(line, t.length));
    }
}
