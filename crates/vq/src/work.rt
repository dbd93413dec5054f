// A shape and its collapse mask from a vector of pulses, and the vector read. They test nothing; the public call does.
// N and K stay numbers with their bounds in each contract, as in cwrs.
ghost use Rattle.std.specs.Prelude.{◌≡◌, cond, ℕ, ◌+◌, ◌*◌, ◌≤◌, ◌<◌, ◌^◌, pos, nat_abs, length, get_or};
ghost use Rattle.std.specs.Float.{binary32};
ghost use Rattle.std.specs.Float.Ieee.{of_int};
ghost use Rattle.entdec.specs.Ready as reader;
ghost use Rattle.cwrs_counts.specs.Count.{Vn};
ghost use Rattle.cwrs.specs.Answer.{read_word};
ghost use Rattle.vq.specs.Shape.{factor_of, scaled, shape_of};
ghost use Rattle.vq.specs.Mask.{silent, part, collapse};
ghost use Rattle.vq.specs.Answer.{read_shape_of};

use super::{ReadShape, root};
use entdec::Reader;

// A count of pulses as an f32, which it is exactly.
fn whole(y: i32) -> f32
    requires { nat_abs y ≤ 16777216 }
    ensures { result ≡ of_int binary32 y }
{
    y as f32
}

// Each pulse times g.
fn fill(iy: &[i32], x: &mut [f32], g: f32)
    requires { (length x.old ≡ length iy.now) × ((i : ℕ) → nat_abs (get_or iy.now i (pos 0)) ≤ 16777216) }
    ensures { x.new ≡ scaled g iy.now }
{
    for (i, v) in x.iter_mut().enumerate() {
        *v = g * whole(iy[i]);
    }
}

// Each pulse times (1 / √ryy) · gain.
pub fn normalise_residual(iy: &[i32], x: &mut [f32], ryy: u32, gain: f32)
    requires { (length x.old ≡ length iy.now) × ((i : ℕ) → nat_abs (get_or iy.now i (pos 0)) ≤ 16777216) × (0 < ryy) }
    ensures { x.new ≡ scaled (factor_of ryy gain) iy.now }
{
    let g = 1.0 / root::sqrt(ryy) * gain;
    fill(iy, x, g);
}

// The bit of part i of those of m places each.
fn bit_of(iy: &[i32], m: usize, i: usize) -> u32
    requires { (i < 16) × (i * m + m ≤ length iy.now) }
    ensures { result ≡ cond (silent (part m i iy.now)) 0 (2 ^ i) }
{
    let from = i * m;
    let end = from + m;
    if laws::list_ok(&iy[from..end], 0, 0) {
        0
    } else {
        laws::pow2(i as u32)
    }
}

// Which of b parts hold a pulse, a bit for each.
pub fn extract_collapse_mask(iy: &[i32], b: usize) -> u32
    requires { (1 ≤ b) × (b ≤ 16) }
    ensures { result ≡ collapse b iy.now }
{
    if b <= 1 {
        return 1;
    }
    let m = iy.len() / b;
    let mut mask: u32 = 0;
    for i in 0..b {
        mask += bit_of(iy, m, i);
    }
    mask
}

// Reads a vector of n places and k pulses; its shape with that gain goes into x.
pub fn unquant(
    d: Reader,
    s: &[u8],
    x: &mut [f32],
    n: usize,
    k: usize,
    b: usize,
    gain: f32,
) -> ReadShape
    requires ready { reader.Ready 1 d }
    requires le_n { (2 ≤ n) × (n ≤ 176) × (length x.old ≡ n) × (1 ≤ k) × (k ≤ 128) × (Vn n k < 2 ^ 32) × (1 ≤ b) × (b ≤ 16) }
    ensures { (result ≡ read_shape_of n k b s.now d) × (x.new ≡ shape_of gain (read_word n k s.now d)) }
{
    let mut y = [0i32; 176];
    let f = cwrs::work::decode(d, s, &mut y, n, k);
    let next = f.next;
    normalise_residual(&y[..n], x, f.energy, gain);
    let mask = extract_collapse_mask(&y[..n], b);
    ReadShape { mask, next }
}
