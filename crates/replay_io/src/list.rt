// Lists of whole numbers on a line.
ghost use Rattle.std.specs.Prelude.{◌≤◌};

use text::read::number;

// A number of a line and the place after it.
#[derive(Clone, Copy)]
pub struct Entry {
    pub value: i32,
    pub next: usize,
}

// A number below zero, by the size that stands after its minus.
fn below_zero(size: u32) -> Option<i32> {
    if size <= 2147483648 {
        return Some(laws::value_of(true, size));
    }
    None
}

// The place of the first blank from a place on, or the end.
fn end_of(s: &[u8], from: usize) -> usize {
    for i in from..s.len() {
        if s[i] == b' ' {
            return i;
        }
    }
    from.max(s.len())
}

// The number 0..4,294,967,295 that stands from one place up to another.
fn number_in(s: &[u8], from: usize, end: usize) -> Option<u32> {
    number(s.get(from..end)?, u32::MAX)
}

// The number after the blank at a place: -2,147,483,648..4,294,967,295. From 2,147,483,648 on it is kept as what it is less than 4,294,967,296.
fn entry_at(s: &[u8], at: usize) -> Option<Entry> {
    if *s.get(at)? != b' ' {
        return None;
    }
    let next = end_of(s, at + 1);
    let value = if s.get(at + 1) == Some(&b'-') {
        below_zero(number_in(s, at + 2, next)?)?
    } else {
        number_in(s, at + 1, next)?.cast_signed()
    };
    Some(Entry { value, next })
}

// The numbers of a line from a place on go into the list; how many, or none where the line is malformed or longer than the list.
pub fn read(line: &[u8], from: usize, list: &mut [i32]) -> Option<usize> {
    let mut at = from;
    for k in 0..list.len() {
        if line.len() <= at {
            return Some(k);
        }
        let e = entry_at(line, at)?;
        list[k] = e.value;
        at = e.next;
    }
    if line.len() <= at {
        Some(list.len())
    } else {
        None
    }
}

// The entry at a place, and 0 past the end.
pub fn at(list: &[i32], i: usize) -> i32 {
    list.get(i).copied().unwrap_or(0)
}

// The same, as a number from 0 to 4,294,967,295.
pub fn word(list: &[i32], i: usize) -> u32 {
    at(list, i).cast_unsigned()
}

// The length that an entry names, and no more than there is room for.
pub fn length_at(list: &[i32], i: usize, most: usize) -> usize
    ensures { result ≤ most }
{
    (word(list, i) as usize).min(most)
}

// So many entries from a place on; none where they do not stand there.
pub fn part(list: &[i32], from: usize, n: usize) -> &[i32] {
    if from <= list.len() {
        if n <= list.len() - from {
            return &list[from..from + n];
        }
    }
    &list[..0]
}

// The entries as bytes, each by its lowest eight bits.
pub fn bytes_of(list: &[i32], s: &mut [u8]) {
    for i in 0..s.len() {
        s[i] = (word(list, i) % 256) as u8;
    }
}
