// A stream record as a line of text, and back. Document 01, "Energies, shapes and the stream record".
//   E, the next number, 42 energies as eight lowercase hex digits of their bits; written and read.
//   Q, the next number, 42 whole numbers in 256ths; read only.
#![tactic(auto)]

ghost use Rattle.std.specs.Prelude.{◌≡◌};
ghost use Rattle.stream_saved.specs.Lines.{after, saving, restoring, said_restored};

use entcode::Refusal;
use stream::Record;

pub mod gate;
pub mod reads;
pub mod writes;

// What a field of a line says: a finite energy, one that is not finite, or nothing that the line's kind allows there.
#[derive(Clone, Copy)]
pub enum Energy {
    Is(f32),
    Wild,
    Wrong,
}

// What the fields of a line say so far: whether none is wrong, whether none is wild, and the energies. Both marks are kept to the end: a line with a
// field that is not finite and a wrong one behind it is malformed (`refusal_line`).
#[derive(Clone, Copy)]
pub struct Fields {
    pub good: bool,
    pub tame: bool,
    pub e: [f32; 42],
}

// A verdict, and the record that comes with it.
#[derive(Clone, Copy)]
pub struct WithRecord<V> {
    pub answer: V,
    pub rec: Record,
}

// What restoring answers, and the record. No Result: theorems promise of a refused line too which record is handed back, one that every call refuses
// (specs/Back.antt, RefusedGivesNoRecord).
pub type Restored = WithRecord<Result<(), Refusal>>;

// Writes a record's line, without a line feed, to the front of a buffer of at least 390 bytes. Refused as 2 (the buffer), 1 (the next number)
// and 3 (an energy).
pub fn save(rec: Record, buf: &mut [u8]) -> Result<usize, Refusal>
    ensures { after result buf.new ≡ saving rec buf.old }
{
    gate::refusal_save(rec, buf.len())?;
    Ok(writes::line(rec, buf))
}

// The record that a line, without its line feed, stands for. Refused as 1 (malformed) and 3 (an energy of an E line that is not finite). No
// line of more than 390 bytes is well formed: a longer one is refused by its length alone.
pub fn restore(s: &[u8]) -> Restored
    ensures { said_restored result ≡ restoring s.now }
{
    if 390 < s.len() {
        return reads::refused(Err(Refusal::Number));
    }
    if text::fields::count(s) == 44 {
        reads::line(s)
    } else {
        reads::refused(Err(Refusal::Number))
    }
}
