// A record's line, behind the gate: workers. A place goes in and the place after comes out: `PlacedText` is of the whole buffer.
ghost use Rattle.std.specs.Prelude.{◌≡◌, true, ◌∷◌, map, ◌+◌, ◌≤◌, length};
ghost use Rattle.std.specs.Float.Ieee.Scale.{finite};
ghost use Rattle.laws.specs.Lists.{every};
ghost use Rattle.text.specs.Fields.{tabbed};
ghost use Rattle.text.specs.Written.{PlacedText};
ghost use Rattle.stream_saved.specs.Fields.{energy_text};
ghost use Rattle.stream_saved.specs.Lines.{saved_line};

use stream::Record;
use text::write::{decimal_field, word_field};

// A tab and an energy from `at` on; the place after them.
fn field(x: f32, buf: &mut [u8], at: usize) -> usize
    requires { (at + 9 ≤ length buf.old) × (finite x ≡ true) }
    ensures { PlacedText 9 buf.old at (9 ∷ energy_text x) result buf.new }
{
    word_field(f32::to_bits(x), buf, at)
}

// Each energy after a tab, from `at` on; the place after them.
fn fields(e: &[f32], buf: &mut [u8], at: usize) -> usize
    requires { (at + 378 ≤ length buf.old) × (length e.now ≡ 42) × (every finite e.now ≡ true) }
    ensures { PlacedText 378 buf.old at (tabbed (map energy_text e.now)) result buf.new }
{
    let mut to = at;
    for &x in e {
        to = field(x, buf, to);
    }
    to
}

// The line from the buffer's front on; its length.
pub fn line(rec: Record, buf: &mut [u8]) -> usize
    requires { (390 ≤ length buf.old) × (rec.next ≤ 4294967295) × (every finite rec.energies ≡ true) }
    ensures { PlacedText 390 buf.old 0 (saved_line rec) result buf.new }
{
    buf[0] = b'E';
    let at = decimal_field(rec.next as u32, buf, 1);
    fields(&rec.energies, buf, at)
}
