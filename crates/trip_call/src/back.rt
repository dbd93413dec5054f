// The reader's side of a trip: reads the packet and compares it with what was written.
ghost use Rattle.std.specs.Prelude.{◌≡◌, ◌&&◌, ◌≤◌, length};
ghost use Rattle.entenc.specs.Write.{wr};
ghost use Rattle.rate.specs.Question.{lists};
ghost use Rattle.trip_theorem.specs.Calls.{tells_r, tells_w};
ghost use Rattle.trip_theorem.specs.Rows.{kinds, read_all, write_all};
ghost use Rattle.trip_call.specs.Given.{symbols_of};
ghost use Rattle.trip_call.specs.ReadBack.{agrees, row_agrees, shares_agree};
ghost use Rattle.trip_call.specs.Same.{same_ints, same_numbers, same_tells};

use super::shares::Shares;
use super::{Asked, rows, shares};
use entdec::Reader;
use entenc::Writer;

// Are two allocations, and what writer and reader tell after them, the same?
fn same_answers(y: &Shares<Writer>, x: &Shares<Reader>) -> bool
    ensures { result ≡ (same_numbers y.now.figures x.now.figures && same_ints y.now.pulses x.now.pulses && same_ints y.now.fine x.now.fine
        && same_ints y.now.priorities x.now.priorities && same_tells (tells_w y.now.figures.next) (tells_r x.now.figures.next)) }
{
    let a = shares::same_numbers(y.figures, x.figures);
    let b = shares::same_ints(&y.pulses, &x.pulses);
    let c = shares::same_ints(&y.fine, &x.fine);
    let e = shares::same_ints(&y.priorities, &x.priorities);
    let f = rows::same_tells(y.figures.next, x.figures.next);
    a & b & c & e & f
}

// Reads the allocation and compares it.
fn same_shares(y: &Shares<Writer>, e: Reader, s: &[u8], asked: Asked) -> bool
    ensures { result ≡ shares_agree asked.entry.q asked.entry.offsets.now asked.entry.caps.now y.now.figures
        (lists y.now.pulses y.now.fine y.now.priorities) s.now e }
{
    let mut pulses = [0i32; 21];
    let mut fine = [0i32; 21];
    let mut priorities = [0i32; 21];
    let answer = rate::clt_compute_allocation_read(
        e,
        s,
        asked.q,
        asked.offsets,
        asked.caps,
        &mut pulses,
        &mut fine,
        &mut priorities,
    );
    match answer {
        Ok(figures) => same_answers(
            y,
            &Shares {
                figures,
                pulses,
                fine,
                priorities,
            },
        ),
        Err(_) => false,
    }
}

// Reads the symbols with d, beside a second writing of them over buf, and compares; then the allocation.
fn read_on(w: Writer, y: &Shares<Writer>, d: Reader, buf: &mut [u8], s: &[u8], asked: Asked) -> bool
    ensures { result ≡ (same_tells (tells_w w) (tells_r d)
        && row_agrees asked.entry.q asked.entry.offsets.now asked.entry.caps.now y.now.figures (lists y.now.pulses y.now.fine y.now.priorities) s.now
        (write_all (symbols_of asked.entry.symbols.now asked.entry.tables.now) (wr w buf.old))
        (read_all (kinds (symbols_of asked.entry.symbols.now asked.entry.tables.now)) s.now d)) }
{
    let first = rows::same_tells(w, d);
    match rows::pair_row(w, buf, d, s, asked.symbols, asked.tables) {
        Some(p) => first & same_shares(y, p.reader, s, asked),
        None => false,
    }
}

// Reads the packet s, with a copy of the bytes for the second writing.
fn read_back(
    w: Writer,
    y: &Shares<Writer>,
    bytes: &[u8],
    buf: &mut [u8],
    s: &[u8],
    asked: Asked,
) -> bool
    requires { length buf.old ≡ length bytes.now }
    ensures { result ≡ agrees asked.entry.q asked.entry.offsets.now asked.entry.caps.now (symbols_of asked.entry.symbols.now asked.entry.tables.now) w
        (write_all (symbols_of asked.entry.symbols.now asked.entry.tables.now) (wr w bytes.now)) y.now.figures
        (lists y.now.pulses y.now.fine y.now.priorities) s.now }
{
    buf.copy_from_slice(bytes);
    match Reader::new(s) {
        Ok(d) => read_on(w, y, d, buf, s, asked),
        Err(_) => false,
    }
}

// Room for a copy, as in `sends::begin`: a function over both would take the next step as a closure with its whole contract.
// Does the reader of the packet s agree?
pub fn compare(w: Writer, y: &Shares<Writer>, bytes: &[u8], s: &[u8], asked: Asked) -> bool
    requires { length bytes.now ≤ 1275 }
    ensures { result ≡ agrees asked.entry.q asked.entry.offsets.now asked.entry.caps.now (symbols_of asked.entry.symbols.now asked.entry.tables.now) w
        (write_all (symbols_of asked.entry.symbols.now asked.entry.tables.now) (wr w bytes.now)) y.now.figures
        (lists y.now.pulses y.now.fine y.now.priorities) s.now }
{
    let n = bytes.len();
    let mut room = [0u8; 1275];
    read_back(w, y, bytes, &mut room[..n], s, asked)
}
