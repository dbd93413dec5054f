// The fields of a line.
ghost use Rattle.std.specs.Prelude.{◌≡◌, length};
ghost use Rattle.text.specs.Fields.{fields_of, field_of};

use crate::places::place;

// Field n of a line, empty where there is none.
pub fn field(s: &[u8], n: usize) -> &[u8]
    ensures { result.now ≡ field_of s.now n }
{
    let p = place(s, n);
    &s[p.start..p.end]
}

// How many fields a line has: one more than tabs. A loop, since `filter` and `count` take more instructions for each byte of a line.
pub fn count(s: &[u8]) -> usize
    ensures { result ≡ length (fields_of s.now) }
{
    let mut n: usize = 1;
    for &b in s {
        if b == b'\t' {
            n += 1;
        }
    }
    n
}
