// The answer to a line as text, behind a buffer that has room for it: what was decided is written.
ghost use Rattle.std.specs.Prelude.{◌≤◌, length};
ghost use Rattle.text.specs.Written.{PlacedText};
ghost use Rattle.lister_answer.specs.Answer.{listing_of_line};
ghost use Rattle.lister_answer.specs.Decision.{decision, listing_of_decision};

use crate::decide::{Decided, decide};
use crate::lines::{bands, head, refused};

// Writes the lines for what was decided: R and a B for each band, or X.
fn write_decided(d: Decided, number: u32, out: &mut [u8]) -> usize
    requires { (d.start ≤ d.end) × (d.end ≤ 21) × (1200 ≤ length out.old) }
    ensures { PlacedText 1200 out.old 0 (listing_of_decision number (decision d)) result out.new }
{
    match d.said {
        Ok(y) => {
            let at = head(number, y, out);
            bands(d.start, d.end, &d.pulses, &d.fine, &d.priorities, out, at)
        }
        Err(why) => refused(number, u32::from(why), out),
    }
}

// The answer to a line, at the start of `out`; how many bytes it has.
pub fn write(line: &[u8], number: u32, out: &mut [u8]) -> usize
    requires { 1200 ≤ length out.old }
    ensures { PlacedText 1200 out.old 0 (listing_of_line number line.now) result out.new }
{
    let d = decide(line);
    write_decided(d, number, out)
}
