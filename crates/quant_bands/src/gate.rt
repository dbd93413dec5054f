// What the two calls are refused with: document 01, "Domain in numbers" and "When the answer is no".
ghost use Rattle.std.specs.Prelude.{◌≡◌, ◌&&◌, eqb, length};
ghost use Rattle.entcode.specs.Said.{verdict};
ghost use Rattle.entdec.specs.Rule.{read_refusal};
ghost use Rattle.quant_bands.specs.Question.{energies_sized, energies_ok, bands_ok, coarse_ok, fines_ok};

use entcode::Refusal;
use entdec::Reader;
use laws::{all_finite, in_range, list_ok};

// C 1..2 and 0 ≤ start < end ≤ 21.
pub fn bands_ok(c: i32, start: i32, end: i32) -> bool
    ensures { result ≡ bands_ok c start end }
{
    in_range(c, 1, 2) & (0 <= start) & (start < end) & (end <= 21)
}

// With LM 0..3 and intra 0 or 1.
pub fn coarse_ok(c: i32, lm: i32, start: i32, end: i32, intra: i32) -> bool
    ensures { result ≡ coarse_ok c lm start end intra }
{
    bands_ok(c, start, end) & in_range(lm, 0, 3) & in_range(intra, 0, 1)
}

// Fine bits 0..8 and priorities 0 or 1, each list whole.
pub fn fines_ok(fine: &[i32], priorities: &[i32]) -> bool
    ensures { result ≡ fines_ok fine.now priorities.now }
{
    list_ok(fine, 0, 8) & list_ok(priorities, 0, 1)
}

// The refusal of a coarse decode of so many bytes. The energies are read once every length is right.
pub fn refusal_coarse(
    d: Reader,
    bytes: usize,
    energies: &[f32],
    c: i32,
    lm: i32,
    start: i32,
    end: i32,
    intra: i32,
) -> Result<(), Refusal>
    ensures { verdict result ≡ read_refusal bytes d (energies_sized (length energies.now)) (coarse_ok c lm start end intra) (energies_ok energies.now) 0 }
{
    let length = energies.len() == 42;
    if d.sized(bytes, length) {
        let known = coarse_ok(c, lm, start, end, intra);
        let finite = all_finite(energies);
        return d.refusal(bytes, length, known, finite, Ok(()));
    }
    Err(Refusal::Length)
}

// The refusal of spending the last bits, in the same way.
pub fn refusal_finalise(
    d: Reader,
    bytes: usize,
    energies: &[f32],
    c: i32,
    start: i32,
    end: i32,
    fine: &[i32],
    priorities: &[i32],
) -> Result<(), Refusal>
    ensures { verdict result ≡ read_refusal bytes d
        (energies_sized (length energies.now) && eqb (length fine.now) 21 && eqb (length priorities.now) 21)
        (bands_ok c start end) (energies_ok energies.now && fines_ok fine.now priorities.now) 0 }
{
    let lengths = (energies.len() == 42) & (fine.len() == 21) & (priorities.len() == 21);
    if d.sized(bytes, lengths) {
        let known = bands_ok(c, start, end);
        let finite = all_finite(energies);
        let entries = fines_ok(fine, priorities);
        return d.refusal(bytes, lengths, known, finite & entries, Ok(()));
    }
    Err(Refusal::Length)
}
