// A stream of bytes cut into lines, block by block: workers.
ghost use Rattle.std.specs.Prelude.{◌≡◌, ◌≤◌, length, take};
ghost use Rattle.text.specs.Lines.{push_of, Filled};

// How far a block was taken: the place after what was taken, how many bytes of the line are kept, and whether it has ended. Block and line are lent anew
// for each part of a line, so a count stands for what is in them: fixed memory.
#[derive(Clone, Copy)]
pub struct Filling {
    pub at: usize,
    pub kept: usize,
    pub ended: bool,
}

// One byte more of the line whose first n bytes stand in `buf`, as long as there is room.
fn push(buf: &mut [u8], n: usize, b: u8) -> usize
    requires { n ≤ length buf.old }
    ensures { (take result buf.new ≡ push_of (length buf.old) (take n buf.old) b) × (result ≤ length buf.old) }
{
    if n < buf.len() {
        buf[n] = b;
        return n + 1;
    }
    n
}

// The block's bytes from `at` on go to the line, up to its end or the block's. Of the line as many bytes are kept as `buf` has.
pub fn fill(block: &[u8], at: usize, buf: &mut [u8], n: usize) -> Filling
    requires { (n ≤ length buf.old) × (at ≤ length block.now) }
    ensures { Filled (length buf.old) block.now at (take n buf.old) result (take result.kept buf.new) }
{
    let mut k = n;
    for i in at..block.len() {
        let b = block[i];
        if b == b'\n' {
            return Filling {
                at: i + 1,
                kept: k,
                ended: true,
            };
        }
        k = push(buf, k, b);
    }
    Filling {
        at: block.len(),
        kept: k,
        ended: false,
    }
}
