// What a frame is refused with: document 01, "Domain in numbers" and "When the answer is no".
ghost use Rattle.std.specs.Prelude.{◌≡◌, true};
ghost use Rattle.laws.specs.Lists.{every};
ghost use Rattle.std.specs.Float.Ieee.Scale.{finite};
ghost use Rattle.entcode.specs.Said.{verdict};
ghost use Rattle.entdec.specs.Rule.{read_refusal};
ghost use Rattle.stream.specs.Frame.{both_in_domain, numbers_ok, order_of};

use crate::{Record, order_of};
use entcode::Refusal;
use entdec::Reader;
use laws::all_finite;
use quant_bands::gate::coarse_ok;

// A frame's number 0..4,294,967,294, and one more for the record's next.
pub fn both_in_domain(next: u64, number: u64) -> bool
    ensures { result ≡ both_in_domain next number }
{
    (number <= 4294967294) & (next <= 4294967295)
}

// C, LM, the bands and intra as for a coarse decode, and both numbers in their domain.
pub fn numbers_ok(next: u64, number: u64, c: i32, lm: i32, start: i32, end: i32, intra: i32) -> bool
    ensures { result ≡ numbers_ok next number c lm start end intra }
{
    coarse_ok(c, lm, start, end, intra) & both_in_domain(next, number)
}

// The refusal of a frame of so many bytes.
pub fn refusal(
    rec: Record,
    d: Reader,
    bytes: usize,
    number: u64,
    c: i32,
    lm: i32,
    start: i32,
    end: i32,
    intra: i32,
) -> Result<(), Refusal>
    ensures { verdict result ≡ read_refusal bytes d true (numbers_ok rec.next number c lm start end intra)
        (every finite rec.energies) (order_of rec.next number) }
{
    let e = rec.energies;
    let known = numbers_ok(rec.next, number, c, lm, start, end, intra);
    let finite = all_finite(&e);
    let special = order_of(rec.next, number);
    d.refusal(bytes, true, known, finite, special)
}
