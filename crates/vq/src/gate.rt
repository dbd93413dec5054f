// What reading a shape is refused with: document 01, "Domain in numbers" and "When the answer is no".
ghost use Rattle.std.specs.Prelude.{◌≡◌, cond, ◌&&◌, ◌≤◌, pos};
ghost use Rattle.laws.specs.Signs.{clip, in_range};
ghost use Rattle.entcode.specs.Said.{verdict};
ghost use Rattle.entdec.specs.Rule.{read_refusal};
ghost use Rattle.vq.specs.Answer.{length_ok, parts_ok, numbers_ok, gain_ok, special_shape};

use cwrs_counts::pvq_v;
use entcode::Refusal;
use entdec::Reader;
use laws::{clipped, in_range};

// Is n the number of the lent places?
pub fn length_ok(n: i32, places: usize) -> bool
    ensures { result ≡ length_ok n places }
{
    (0 <= n) & (clipped(n) as usize == places)
}

// B 1..16, and n places are b parts of one length.
pub fn parts_ok(n: i32, b: i32) -> bool
    ensures { result ≡ parts_ok n b }
{
    if in_range(b, 1, 16) {
        clipped(n) % clipped(b) == 0
    } else {
        false
    }
}

// N 2..176, K 1..128, spread 0..3, and the parts.
pub fn numbers_ok(n: i32, k: i32, spread: i32, b: i32) -> bool
    ensures { result ≡ numbers_ok n k spread b }
{
    in_range(n, 2, 176) & in_range(k, 1, 128) & in_range(spread, 0, 3) & parts_ok(n, b)
}

// Is the gain at most 1 in size?
pub fn gain_ok(gain: f32) -> bool
    ensures { result ≡ gain_ok gain }
{
    (-1.0 <= gain) & (gain <= 1.0)
}

// Are there 2^32 vectors or more, and if not, would a rotation be due?
fn due(n: usize, k: usize, spread: u32) -> Result<(), Refusal>
    requires { (2 ≤ n) × (n ≤ 176) × (1 ≤ k) × (k ≤ 128) }
    ensures { verdict result ≡ special_shape n k spread }
{
    if pvq_v(n, k) == 0 {
        return Err(Refusal::Count);
    }
    if (2 * k < n) & (0 < spread) {
        return Err(Refusal::Rotation);
    }
    Ok(())
}

// The same; not asked outside the domain, which is refused first.
fn special_shape(n: i32, k: i32, spread: i32) -> Result<(), Refusal>
    ensures { verdict result ≡ cond (in_range (pos 2) (pos 176) n && in_range (pos 1) (pos 128) k) (special_shape (clip n) (clip k) (clip spread)) 0 }
{
    if in_range(n, 2, 176) & in_range(k, 1, 128) {
        due(clipped(n) as usize, clipped(k) as usize, clipped(spread))
    } else {
        Ok(())
    }
}

// The refusal of so many bytes and places.
pub fn refusal_shape(
    d: Reader,
    bytes: usize,
    places: usize,
    n: i32,
    k: i32,
    spread: i32,
    b: i32,
    gain: f32,
) -> Result<(), Refusal>
    ensures { verdict result ≡ read_refusal bytes d (length_ok n places) (numbers_ok n k spread b) (gain_ok gain)
        (special_shape (clip n) (clip k) (clip spread)) }
{
    let lengths = length_ok(n, places);
    let known = numbers_ok(n, k, spread, b);
    let unit = gain_ok(gain);
    let special = special_shape(n, k, spread);
    d.refusal(bytes, lengths, known, unit, special)
}
