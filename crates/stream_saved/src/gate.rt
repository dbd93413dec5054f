// What saving is refused with: document 01, "When the answer is no".
ghost use Rattle.std.specs.Prelude.{◌≡◌};
ghost use Rattle.entcode.specs.Said.{verdict};
ghost use Rattle.stream_saved.specs.Lines.{refusal_save};

use entcode::Refusal;
use stream::Record;

// The refusal of a record and a buffer of so many bytes.
pub fn refusal_save(rec: Record, room: usize) -> Result<(), Refusal>
    ensures { verdict result ≡ refusal_save room rec }
{
    let finite = laws::all_finite(&rec.energies);
    entcode::refusal_of(
        390 <= room,
        rec.next <= 4294967295,
        finite,
        Ok(()),
        true,
        true,
    )
}
