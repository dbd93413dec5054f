// A vector's number and back, over the first n places of a lent vector. They test nothing; the public calls do.
// Reading and writing are two computations, of which one undoes the other.
// N and K stay numbers with their bounds in each contract: types for them would be opened at each sum, and each function has other bounds.
ghost use Rattle.std.specs.Prelude.{◌≡◌, cond, ◌++◌, ◌+◌, ◌-◌, ◌<◌, ◌≤◌, ◌^◌, leb, length, take, drop};
ghost use Rattle.entdec.specs.Ready as reader;
ghost use Rattle.entenc.specs.Ready as writer;
ghost use Rattle.entenc.specs.Write.{wr};
ghost use Rattle.cwrs.specs.Word;
ghost use Rattle.cwrs.specs.Word.{pulses, index, head_pulse, tail_pulses, tail_index, word};
ghost use Rattle.cwrs_counts.specs.Count.{U, Vn};
ghost use Rattle.cwrs.specs.Answer.{found_of, read_word, write_word};

use super::Found;
use cwrs_counts::{pvq_u, pvq_v};
use entdec::Reader;
use entenc::Writer;

// How many pulses the first n places have, whatever stands there.
pub fn total(y: &[i32], n: usize) -> usize
    requires { (n ≤ length y.now) × (n ≤ 176) }
    ensures { result ≡ pulses (take n y.now) }
{
    let mut k: usize = 0;
    for j in (0..n).rev() {
        let v = y[j];
        k += v.unsigned_abs() as usize;
    }
    k
}

// The number of the vector in the first n places, section 5.3.8.2.
pub fn icwrs(y: &[i32], n: usize) -> u32
    requires { (n ≤ length y.now) × (n ≤ 176) × (pulses (take n y.now) ≤ 128) × (Vn n (pulses (take n y.now)) < 2 ^ 32) }
    ensures { result ≡ index (take n y.now) }
{
    let mut i: u32 = 0;
    let mut k: usize = 0;
    for j in (0..n).rev() {
        let m = n - j;
        let v = y[j];
        i += pvq_u(m, k);
        k += v.unsigned_abs() as usize;
        if v < 0 {
            i += pvq_u(m, k + 1);
        }
    }
    i
}

// How many pulses are left, and the counts there: U(n, left) and U(n, left + 1).
#[derive(Clone, Copy)]
pub struct Reached {
    pub left: usize,
    pub here: u32,
    pub above: u32,
}

// The greatest j up to k with U(n, j) at most i; here and above are the counts at k and at k + 1.
fn reach(n: usize, k: usize, i: u32, here: u32, above: u32) -> Reached
    requires { (1 ≤ n) × (n ≤ 176) × (k ≤ 176) × (here ≡ U n k) × (above ≡ U n (k + 1)) }
    ensures { (result.left ≡ Word.reach n k i) × (result.left ≤ k) × (result.here ≡ U n result.left)
        × (result.above ≡ U n (result.left + 1)) × (result.here ≤ i) }
{
    let mut left = k;
    let mut p = here;
    let mut q = above;
    while i < p {
        left -= 1;
        q = p;
        p = pvq_u(n, left);
    }
    Reached {
        left,
        here: p,
        above: q,
    }
}

// Where p vectors stand before those with a negative first place: the number i among those of its sign.
fn among(p: u32, i: u32) -> u32
    ensures { (result ≡ cond (leb p i) (i - p) i) × (result ≤ i) }
{
    if p <= i { i - p } else { i }
}

// One place of a vector, and after it how many pulses, which number, and of how many vectors.
#[derive(Clone, Copy)]
pub struct Spot {
    pub value: i32,
    pub left: usize,
    pub index: u32,
    pub count: u32,
}

// The first of n places with k pulses and the number i, of v vectors.
fn first_spot(n: usize, k: usize, i: u32, v: u32) -> Spot
    requires { (1 ≤ n) × (n ≤ 176) × (k ≤ 128) × (v ≡ Vn n k) }
    ensures { (result.value ≡ head_pulse n k i) × (result.left ≡ tail_pulses n k i) × (result.index ≡ tail_index n k i)
        × (result.count ≡ Vn (n - 1) result.left) }
{
    let u = pvq_u(n, k);
    let p = v - u;
    let q = among(p, i);
    let r = reach(n, k, q, u, p);
    Spot {
        value: laws::value_of(p <= i, (k - r.left) as u32),
        left: r.left,
        index: q - r.here,
        count: r.above - r.here,
    }
}

// The vector of n places and k pulses with the number i, of v vectors, into the first n places, section 4.3.4.2.
pub fn cwrsi(y: &mut [i32], n: usize, k: usize, i: u32, v: u32)
    requires { (n ≤ length y.old) × (n ≤ 176) × (k ≤ 128) × (v ≡ Vn n k) }
    ensures { y.new ≡ word n k i ++ drop n y.old }
{
    let mut left = k;
    let mut at = i;
    let mut count = v;
    let mut j: usize = 0;
    // A `for` over the places, with a test of `left` inside, makes reading a word a tenth slower.
    while (j < n) & (0 < left) {
        let p = first_spot(n - j, left, at, count);
        let x = p.value;
        y[j] = x;
        left = p.left;
        at = p.index;
        count = p.count;
        j += 1;
    }
    y[j..n].fill(0);
}

// The sum of the squares of the first n places.
pub fn energy(y: &[i32], n: usize) -> u32
    requires { (n ≤ length y.now) × (n ≤ 176) × (pulses (take n y.now) ≤ 128) }
    ensures { (result ≡ Word.energy (take n y.now)) × (result ≤ 16384) }
{
    let mut e: u32 = 0;
    for j in (0..n).rev() {
        let v = y[j];
        let s = v.unsigned_abs();
        e += s * s;
    }
    e
}

// Reads a vector of n places and k pulses into the first n places, section 4.3.4.2.
pub fn decode(d: Reader, s: &[u8], y: &mut [i32], n: usize, k: usize) -> Found
    requires ready { reader.Ready 1 d }
    requires le_n { (2 ≤ n) × (n ≤ 176) × (n ≤ length y.old) × (1 ≤ k) × (k ≤ 128) × (Vn n k < 2 ^ 32) }
    ensures { (result ≡ found_of n k s.now d) × (y.new ≡ read_word n k s.now d ++ drop n y.old) }
{
    let v = pvq_v(n, k);
    let i = d.uniform(s, v);
    let next = i.next;
    cwrsi(y, n, k, i.value, v);
    Found {
        energy: energy(y, n),
        next,
    }
}

// Writes the vector of k pulses that stands in the first n places, section 5.3.8.2.
pub fn encode(w: Writer, buf: &mut [u8], y: &[i32], n: usize, k: usize) -> Writer
    requires ready { writer.Ready 1 (wr w buf.old) }
    requires le_n { (2 ≤ n) × (n ≤ 176) × (n ≤ length y.now) × (1 ≤ k) × (k ≤ 128) × (Vn n k < 2 ^ 32) × (pulses (take n y.now) ≡ k) }
    ensures { wr result buf.new ≡ write_word n k y.now (wr w buf.old) }
{
    let v = pvq_v(n, k);
    let i = icwrs(y, n);
    w.put_uint(buf, i, v)
}
