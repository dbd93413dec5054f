// What an allocation is refused with, by its numbers and lists: document 01, "Domain in numbers".
ghost use Rattle.std.specs.Prelude.{◌≡◌, ◌&&◌, length};
ghost use Rattle.entcode.specs.Said.{verdict};
ghost use Rattle.entdec.specs.Rule.{read_refusal};
ghost use Rattle.entenc.specs.Rule.{write_refusal};
ghost use Rattle.rate.specs.Question.{lengths_ok, numbers_ok, stereo_ok, entries_ok};

use super::{AllocNumbers, Wishes};
use entcode::Refusal;
use entdec::Reader;
use entenc::Writer;
use laws::{in_range, list_ok};

// Is each of the five lists 21 long?
pub fn lengths_ok(
    offsets: usize,
    caps: usize,
    pulses: usize,
    fine: usize,
    priorities: usize,
) -> bool
    ensures { result ≡ lengths_ok offsets caps pulses fine priorities }
{
    (offsets == 21) & (caps == 21) & (pulses == 21) & (fine == 21) & (priorities == 21)
}

// C 1..2, LM 0..3, 0 ≤ start < end ≤ 21, trim 0..10, total up to 81,600.
pub fn numbers_ok(q: AllocNumbers) -> bool
    ensures { result ≡ numbers_ok q }
{
    in_range(q.c, 1, 2)
        & in_range(q.lm, 0, 3)
        & (0 <= q.start)
        & (q.start < q.end)
        & (q.end <= 21)
        & in_range(q.trim, 0, 10)
        & (q.total <= 81600)
}

// With two channels, intensity is start..end and dual stereo 0 or 1.
pub fn stereo_ok(q: AllocNumbers, h: Wishes) -> bool
    ensures { result ≡ stereo_ok q h }
{
    (q.c <= 1) | (in_range(h.intensity, q.start, q.end) & in_range(h.dual, 0, 1))
}

// Offsets 0..81,600 and caps 0..32,767, each list whole.
pub fn entries_ok(offsets: &[i32], caps: &[i32]) -> bool
    ensures { result ≡ entries_ok offsets.now caps.now }
{
    list_ok(offsets, 0, 81600) & list_ok(caps, 0, 32767)
}

// Two gates: writing has the wishes and refusal 12 too, and the theorems stand on `read_refusal` and `write_refusal`.

// The refusal of reading, of so many bytes and lists of so many entries. A list is read once every length is right.
pub fn refusal_read(
    d: Reader,
    bytes: usize,
    q: AllocNumbers,
    offsets: &[i32],
    caps: &[i32],
    pulses: usize,
    fine: usize,
    priorities: usize,
) -> Result<(), Refusal>
    ensures { verdict result ≡ read_refusal bytes d (lengths_ok (length offsets.now) (length caps.now) pulses fine priorities) (numbers_ok q)
        (entries_ok offsets.now caps.now) 0 }
{
    let lengths = lengths_ok(offsets.len(), caps.len(), pulses, fine, priorities);
    if d.sized(bytes, lengths) {
        let known = numbers_ok(q);
        let entries = entries_ok(offsets, caps);
        return d.refusal(bytes, lengths, known, entries, Ok(()));
    }
    Err(Refusal::Length)
}

// The refusal of writing, in the same way.
pub fn refusal_write(
    w: Writer,
    bytes: usize,
    q: AllocNumbers,
    h: Wishes,
    offsets: &[i32],
    caps: &[i32],
    pulses: usize,
    fine: usize,
    priorities: usize,
) -> Result<(), Refusal>
    ensures { verdict result ≡ write_refusal bytes w (lengths_ok (length offsets.now) (length caps.now) pulses fine priorities)
        (numbers_ok q && stereo_ok q h) (entries_ok offsets.now caps.now) 0 }
{
    let lengths = lengths_ok(offsets.len(), caps.len(), pulses, fine, priorities);
    if w.sized(bytes, lengths) {
        let known = numbers_ok(q);
        let stereo = stereo_ok(q, h);
        let entries = entries_ok(offsets, caps);
        return w.refusal(bytes, lengths, known & stereo, entries, Ok(()));
    }
    Err(Refusal::Length)
}
