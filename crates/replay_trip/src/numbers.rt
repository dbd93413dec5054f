// The numbers of a line, and what is made of them.
use replay_io::list::word;

// The whole number at a place.
pub fn signed(l: &[i32], i: usize) -> i32 {
    trip_call::given::value_at(word(l, i))
}

// Whole numbers.
pub fn whole(l: &[i32], out: &mut [i32]) {
    for i in 0..out.len() {
        out[i] = signed(l, i);
    }
}

// Numbers from 0 to 4,294,967,295: another reading of a number than above, in one line, so that a closure for it is no plainer.
pub fn words(l: &[i32], out: &mut [u32]) {
    for i in 0..out.len() {
        out[i] = word(l, i);
    }
}

// What begins at a place; nothing past the end.
pub fn after(l: &[i32], from: usize) -> &[i32] {
    let n = l.len();
    if from <= n {
        return &l[from..];
    }
    &l[n..]
}
