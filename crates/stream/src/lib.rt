// The stream record: the energies of the frame before, and the number of the frame that comes next.
// Document 01, "Energies, shapes and the stream record".
#![tactic(auto)]

ghost use Rattle.std.specs.Prelude.{◌≡◌};
ghost use Rattle.entcode.specs.Said.{verdict};
ghost use Rattle.stream.specs.Frame.{fresh, order_of, ordered, call, framed, said_framed};

use entcode::Refusal;
use entdec::Reader;
use quant_bands::bands::Frame;

pub mod gate;
pub mod work;

// 42 energies, channel 1 from place 21 on, and the number of the frame that comes next. The number is a u64, so that one past 4,294,967,295
// can be handed in, and is refused.
#[derive(Clone, Copy)]
pub struct Record {
    pub energies: [f32; 42],
    pub next: u64,
}

// What a frame answers: the record and the reader after it, or the refusal, and both as they were. No Result: theorems promise of a refused frame too
// what record and reader are (specs/History.antt, RefusedChangesNothing).
#[derive(Clone, Copy)]
pub struct Framed {
    pub answer: Result<(), Refusal>,
    pub rec: Record,
    pub next: Reader,
}

// A repeat is refused here: a number below the record's next was applied before, and its frame is refused as 10. A number above the next would leave
// a gap and is refused as 11; the next itself is no refusal. `order` and the gate of `frame` both ask here; specs/History.antt states what follows.
pub fn order_of(next: u64, number: u64) -> Result<(), Refusal>
    ensures { verdict result ≡ order_of next number }
{
    // the repeat
    if number < next {
        return Err(Refusal::BelowNext);
    }
    if next < number {
        return Err(Refusal::AboveNext);
    }
    Ok(())
}

// Whether frame `number` comes next: refused as 1 (either number outside its domain), 10 (below the next) and 11 (above it).
pub fn order(next: u64, number: u64) -> Result<(), Refusal>
    ensures { verdict result ≡ ordered next number }
{
    let known = gate::both_in_domain(next, number);
    let special = order_of(next, number);
    entcode::refusal_of(true, known, true, special, true, true)
}

impl Record {
    // A record to which no frame was applied: energies of zero, and number 0 comes next.
    pub fn fresh() -> Record
        ensures { result ≡ fresh }
    {
        Record {
            energies: [0.0f32; 42],
            next: 0,
        }
    }

    // Frame `number`, whose coarse energies the reader d stands before in the packet s. Where it is the record's next, its coarse energies are decoded
    // once over those of the record, and the number after it comes next. A refused frame hands record and reader back as they were. Refused as 2
    // (bytes), 1 (the state, the numbers, the record's next number), 3 (an energy of the record that is not finite), 10 (a number below the next), 11
    // (one above it) and 4.
    pub fn frame(
        self,
        d: Reader,
        s: &[u8],
        number: u64,
        c: i32,
        lm: i32,
        start: i32,
        end: i32,
        intra: i32,
    ) -> Framed
        ensures { said_framed result ≡ framed self (call d s.now number c lm start end intra) }
    {
        match gate::refusal(self, d, s.len(), number, c, lm, start, end, intra) {
            Ok(_) => work::apply(self, d, s, Frame::of(c, lm, start, end, intra)),
            Err(why) => Framed {
                answer: Err(why),
                rec: self,
                next: d,
            },
        }
    }
}
