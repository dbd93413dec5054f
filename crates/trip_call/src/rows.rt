// Rows of lent symbols: written, and then written once more beside a reader, symbol by symbol.
ghost use Rattle.std.specs.Prelude.{◌≡◌, ◌/◌, length};
ghost use Rattle.entcode.specs.Said.{said};
ghost use Rattle.entenc.specs.Write.{wr};
ghost use Rattle.trip_theorem.specs.Calls.{tells_r, tells_w};
ghost use Rattle.trip_call.specs.Given.{symbol_of};
ghost use Rattle.trip_call.specs.Steps.{write_symbol, read_symbol};
ghost use Rattle.trip_call.specs.Runs.{pair_then, pair_from, pair_of, pairs_of, after_row_of, row_from};
ghost use Rattle.trip_call.specs.Runs.Pairs.{same};
ghost use Rattle.trip_call.specs.Same.{same_tells, same_tell};
ghost use Rattle.entcode.specs.Said.Said.{done};

use super::given::{Counted, Given};
use super::{given, reads, writes};
use entcode::Refusal;
use entdec::Reader;
use entenc::Writer;

// A row ends with this symbol, which is refused so.
#[derive(Clone, Copy, Debug, PartialEq, Eq)]
pub struct RowRefusal {
    pub place: usize,
    pub why: Refusal,
}

// The symbols, one after the other.
pub fn write_row(
    w: Writer,
    buf: &mut [u8],
    symbols: &[u32],
    tables: &[u8],
) -> Result<Writer, RowRefusal>
    ensures { after_row_of result buf.new
        ≡ row_from symbols.now tables.now (length symbols.now / 5) 0 (wr w buf.old) }
{
    let mut v = w;
    for i in 0..symbols.len() / 5 {
        let g = given::given_at(symbols, i);
        match writes::write_one(v, buf, tables, g) {
            Ok(y) => v = y.next,
            Err(why) => return Err(RowRefusal { place: i, why }),
        }
    }
    Ok(v)
}

// A writer and a reader that agree.
#[derive(Clone, Copy)]
pub struct Pair {
    pub writer: Writer,
    pub reader: Reader,
}

// Are two answers of tell the same?
fn same_tell(a: Result<u32, Refusal>, b: Result<u32, Refusal>) -> bool
    ensures { result ≡ same_tell (said a) (said b) }
{
    a == b
}

// Do writer and reader tell the same, in bits and in eighths?
pub fn same_tells(w: Writer, d: Reader) -> bool
    ensures { result ≡ same_tells (tells_w w) (tells_r d) }
{
    let bits = same_tell(w.tell(), d.tell());
    let eighths = same_tell(w.tell_frac(), d.tell_frac());
    bits & eighths
}

// A symbol that was written and read.
fn pair_both(x: Counted<Writer>, y: Counted<Reader>) -> Option<Pair>
    ensures { result ≡ pair_of (done x) (done y) }
{
    let writer = x.next;
    let reader = y.next;
    let tells = same_tells(writer, reader);
    if (x.value == y.value) & tells {
        return Some(Pair { writer, reader });
    }
    None
}

// A symbol's two answers.
fn pair_of(p: Result<Counted<Writer>, Refusal>, t: Result<Counted<Reader>, Refusal>) -> Option<Pair>
    ensures { result ≡ pair_of (said p) (said t) }
{
    match (p, t) {
        (Ok(x), Ok(y)) => pair_both(x, y),
        _ => None,
    }
}

// One symbol.
fn pair_one(w: Writer, buf: &mut [u8], d: Reader, s: &[u8], tables: &[u8], g: Given) -> Option<Pair>
    ensures { pairs_of result buf.new
        ≡ pair_then (write_symbol (symbol_of g tables.now) (wr w buf.old)) (read_symbol (symbol_of g tables.now) s.now d)
        same }
{
    let p = writes::write_one(w, buf, tables, g);
    let t = reads::read_one(d, s, tables, g);
    pair_of(p, t)
}

// The symbols written once more, while they are read from s: both after a row in which they agreed.
pub fn pair_row(
    w: Writer,
    buf: &mut [u8],
    d: Reader,
    s: &[u8],
    symbols: &[u32],
    tables: &[u8],
) -> Option<Pair>
    ensures { pairs_of result buf.new
        ≡ pair_from symbols.now tables.now s.now (length symbols.now / 5) 0 (wr w buf.old) d }
{
    let mut both = Pair {
        writer: w,
        reader: d,
    };
    for i in 0..symbols.len() / 5 {
        let g = given::given_at(symbols, i);
        both = pair_one(both.writer, buf, both.reader, s, tables, g)?;
    }
    Some(both)
}
