// Document 01's third demand, run: symbols and an allocation are written, closed, read back and compared.
#![tactic(auto)]

ghost use Rattle.std.specs.Prelude.{◌≡◌};
ghost use Rattle.entcode.specs.Said.{answer};
ghost use Rattle.trip_call.specs.Given.{refusal_given, symbols_of};
ghost use Rattle.trip_call.specs.Outcome.{ending, outcome_of, said_trip};

use entcode::Refusal;
use entenc::Writer;
use rate::{AllocNumbers, Wishes};

pub mod back;
pub mod given;
pub mod reads;
pub mod rows;
pub mod sends;
pub mod shares;
pub mod writes;

// A call of the writer: the new writer, the symbol at a place, the allocation, the close.
#[derive(Clone, Copy)]
pub enum Call {
    New,
    Symbol(usize),
    Allocation,
    Close,
}

// How a trip ends: the reader agreed, the writer was refused by a call, close reported an error, or the reader did not agree.
#[derive(Clone, Copy)]
pub enum Outcome {
    Agreed,
    Refused(Call, Refusal),
    NotClosed,
    Disagreed,
}

// What writer and reader share: the symbols and the entries of their tables, of which the reader looks at the kinds alone, and an allocation's
// numbers, boosts and caps.
#[derive(Clone, Copy)]
pub struct Asked<'a> {
    pub symbols: &'a [u32],
    pub tables: &'a [u8],
    pub q: AllocNumbers,
    pub offsets: &'a [i32],
    pub caps: &'a [i32],
}

// The trip of symbols that are given as they should be.
fn run(bytes: &[u8], h: Wishes, asked: Asked) -> Outcome
    ensures { ending result ≡ outcome_of asked.entry.q asked.entry.offsets.now asked.entry.caps.now h bytes.now
        (symbols_of asked.entry.symbols.now asked.entry.tables.now) }
{
    match Writer::new(bytes) {
        Ok(w) => sends::begin(w, bytes, h, asked),
        Err(why) => Outcome::Refused(Call::New, why),
    }
}

// Writes symbols and an allocation over the bytes, closes, reads all back and compares: values, tell and tell_frac after each symbol, and the
// allocation's numbers and lists. A symbol is five numbers: its kind (0 bit, 1 table, 2 uniform, 3 raw, 4 Laplace), the count of its value,
// and the kind's numbers, of which those that the kind has no use for are not looked at; a table's entries are a part of `tables`. Refused, before
// anything is written, where what is lent is no list of symbols: 2 where the list is not five numbers for each symbol, 1 where a kind is above 4
// or a table ends past `tables`.
pub fn round_trip(
    bytes: &[u8],
    symbols: &[u32],
    tables: &[u8],
    q: AllocNumbers,
    h: Wishes,
    offsets: &[i32],
    caps: &[i32],
) -> Result<Outcome, Refusal>
    ensures { said_trip result ≡ answer (refusal_given symbols.now tables.now)
        (outcome_of q offsets.now caps.now h bytes.now (symbols_of symbols.now tables.now)) }
{
    given::refusal(symbols, tables)?;
    let asked = Asked {
        symbols,
        tables,
        q,
        offsets,
        caps,
    };
    Ok(run(bytes, h, asked))
}
