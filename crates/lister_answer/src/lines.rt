// The answer's lines, written into a buffer that has room for them. A place goes in and the place after comes out: `PlacedText` is of the whole buffer.
ghost use Rattle.std.specs.Prelude.{◌≡◌, [], ◌∷◌, map, ◌+◌, ◌-◌, ◌*◌, ◌≤◌, length};
ghost use Rattle.text.specs.Written.{decimal_of, signed_of, PlacedText};
ghost use Rattle.rate.specs.Question.{lists};
ghost use Rattle.lister_answer.specs.Lines.{line_end, answer_line, head_line, band_lines, refused_line};

use rate::ReadAllocation;
use text::write::{decimal_field, signed_field};

// A letter and a first field.
fn begin(letter: u8, n: u32, buf: &mut [u8], at: usize) -> usize
    requires { at + 12 ≤ length buf.old }
    ensures { PlacedText 12 buf.old at (letter ∷ 9 ∷ decimal_of n) result buf.new }
{
    buf[at] = letter;
    decimal_field(n, buf, at + 1)
}

// The line feed.
fn feed(buf: &mut [u8], at: usize) -> usize
    requires { at + 1 ≤ length buf.old }
    ensures { PlacedText 1 buf.old at (line_end []) result buf.new }
{
    buf[at] = b'\n';
    at + 1
}

// The fields after the first, and the line feed.
fn end(fields: &[i32], buf: &mut [u8], at: usize) -> usize
    requires { at + 12 * length fields.now + 1 ≤ length buf.old }
    ensures { PlacedText (12 * length fields.now + 1) buf.old at (line_end (map signed_of fields.now)) result buf.new }
{
    let mut to = at;
    for &z in fields {
        to = signed_field(z, buf, to);
    }
    feed(buf, to)
}

// The X line of a request: its number and the refusal's, which the line shows as a number.
pub fn refused(number: u32, why: u32, buf: &mut [u8]) -> usize
    requires { 24 ≤ length buf.old }
    ensures { PlacedText 24 buf.old 0 (refused_line number why) result buf.new }
{
    let a = begin(b'X', number, buf, 0);
    let b = decimal_field(why, buf, a);
    feed(buf, b)
}

// The R line of a request: its number and the numbers of its allocation.
pub fn head(number: u32, y: ReadAllocation, buf: &mut [u8]) -> usize
    requires { 61 ≤ length buf.old }
    ensures { PlacedText 61 buf.old 0 (head_line number y) result buf.new }
{
    let a = begin(b'R', number, buf, 0);
    end(&[y.coded, y.balance, y.intensity, y.dual], buf, a)
}

// The B line of a band: its place and its figures.
fn band(j: u32, pulses: i32, fine: i32, priority: i32, buf: &mut [u8], at: usize) -> usize
    requires { at + 49 ≤ length buf.old }
    ensures { PlacedText 49 buf.old at (answer_line 66 (decimal_of j ∷ signed_of pulses ∷ signed_of fine ∷ signed_of priority ∷ [])) result
        buf.new }
{
    let a = begin(b'B', j, buf, at);
    end(&[pulses, fine, priority], buf, a)
}

// A B line for each band from start up to end - 1.
pub fn bands(
    start: usize,
    end: usize,
    pulses: &[i32],
    fine: &[i32],
    priorities: &[i32],
    buf: &mut [u8],
    at: usize,
) -> usize
    requires start_le_end { (start ≤ end) × (end ≤ 21) × (at + 49 * (end - start) ≤ length buf.old) }
    requires pulses_len { (length pulses.now ≡ 21) × (length fine.now ≡ 21) × (length priorities.now ≡ 21) }
    ensures { PlacedText (49 * (end - start)) buf.old at (band_lines start (end - start)
        (lists pulses.now fine.now priorities.now)) result buf.new }
{
    let mut to = at;
    for j in start..end {
        to = band(j as u32, pulses[j], fine[j], priorities[j], buf, to);
    }
    to
}
