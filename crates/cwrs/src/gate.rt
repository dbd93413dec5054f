// What reading and writing a vector are refused with: document 01, "When the answer is no".
ghost use Rattle.std.specs.Prelude.{◌≡◌, true, cond, ◌&&◌, eqb};
ghost use Rattle.entcode.specs.Said.{verdict};
ghost use Rattle.entdec.specs.Rule.{read_refusal};
ghost use Rattle.entenc.specs.Rule.{write_refusal};
ghost use Rattle.cwrs.specs.Answer.{in_domain, places_sized, special_read, special_write};

use super::work;
use cwrs_counts::pvq_v;
use entcode::Refusal;
use entdec::Reader;
use entenc::Writer;

// N 2..176 and K 1..128.
pub fn in_domain(n: u32, k: u32) -> bool
    ensures { result ≡ in_domain n k }
{
    (2 <= n) & (n <= 176) & (1 <= k) & (k <= 128)
}

// Are there 2^32 vectors or more? Not asked outside the domain, which is refused first.
fn special_read(n: u32, k: u32) -> Result<(), Refusal>
    ensures { verdict result ≡ cond (in_domain n k) (special_read n k) 0 }
{
    if !in_domain(n, k) {
        return Ok(());
    }
    if pvq_v(n as usize, k as usize) == 0 {
        Err(Refusal::Count)
    } else {
        Ok(())
    }
}

// Two gates, as in rate: what is asked differs, and the theorems stand on `read_refusal` and `write_refusal`.

// The refusal of reading, of so many bytes and places.
pub fn refusal_read(d: Reader, bytes: usize, places: usize, n: u32, k: u32) -> Result<(), Refusal>
    ensures { verdict result ≡ read_refusal bytes d (eqb places 176) (in_domain n k) true (special_read n k) }
{
    let special = special_read(n, k);
    d.refusal(bytes, places == 176, in_domain(n, k), true, special)
}

// Are there 2^32 vectors or more, and if not, do the first n places have k pulses? Not asked where a length or the domain is refused first.
fn special_write(y: &[i32], n: u32, k: u32) -> Result<(), Refusal>
    ensures { verdict result ≡ cond (places_sized y.now && in_domain n k) (special_write y.now n k) 0 }
{
    let asked = (y.len() == 176) & in_domain(n, k);
    if !asked {
        return Ok(());
    }
    if pvq_v(n as usize, k as usize) == 0 {
        return Err(Refusal::Count);
    }
    if work::total(y, n as usize) == k as usize {
        Ok(())
    } else {
        Err(Refusal::Sum)
    }
}

// The refusal of writing over so many bytes. The vector is read once every length is right.
pub fn refusal_write(w: Writer, bytes: usize, y: &[i32], n: u32, k: u32) -> Result<(), Refusal>
    ensures { verdict result ≡ write_refusal bytes w (places_sized y.now) (in_domain n k) true (special_write y.now n k) }
{
    let sized = y.len() == 176;
    if w.sized(bytes, sized) {
        let special = special_write(y, n, k);
        return w.refusal(bytes, sized, in_domain(n, k), true, special);
    }
    Err(Refusal::Length)
}
