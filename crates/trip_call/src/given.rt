// Symbols as they are lent: five numbers for each in one list, and the entries of all tables in another.
ghost use Rattle.std.specs.Prelude.{◌≡◌, ◌/◌, ◌<◌, length, take, drop};
ghost use Rattle.entcode.specs.Said.{said, verdict};
ghost use Rattle.laplace.specs.Model.{code_of, value_at};
ghost use Rattle.trip_call.specs.Given.{given_at, given_ok, givens_ok, kind_of, kind_read, refusal_given};
ghost use Rattle.trip_call.specs.Steps.{lap_counted};

use entcode::{Coded, Refusal};

// What a symbol is.
#[derive(Clone, Copy, Debug, PartialEq, Eq)]
pub enum Kind {
    Bit,
    Table,
    Uniform,
    Raw,
    Laplace,
}

impl TryFrom<u32> for Kind {
    type Error = Refusal;

    ghost try_from_gives = { λ n r. r ≡ kind_read n };

    fn try_from(n: u32) -> Result<Kind, Refusal> {
        match n {
            0 => Ok(Kind::Bit),
            1 => Ok(Kind::Table),
            2 => Ok(Kind::Uniform),
            3 => Ok(Kind::Raw),
            4 => Ok(Kind::Laplace),
            _ => Err(Refusal::Number),
        }
    }
}

// The kind of a number. One that is no kind is refused before any symbol is coded; here it counts as Laplace, as `kind_of` says.
pub fn kind_of(n: u32) -> Kind
    ensures { result ≡ kind_of n }
{
    Kind::try_from(n).unwrap_or(Kind::Laplace)
}

// A symbol: the number of its kind, the count of its value, and up to three numbers that the kind has.
#[derive(Clone, Copy)]
pub struct Given {
    pub kind: u32,
    pub count: u32,
    pub first: u32,
    pub second: u32,
    pub third: u32,
}

// The count of a symbol's value, and the reader after it, or the writer.
pub type Counted<C> = Coded<u32, C>;

// Symbol i.
pub fn given_at(symbols: &[u32], i: usize) -> Given
    requires { i < length symbols.now / 5 }
    ensures { result ≡ given_at symbols.now i }
{
    let k = 5 * i;
    Given {
        kind: symbols[k],
        count: symbols[k + 1],
        first: symbols[k + 2],
        second: symbols[k + 3],
        third: symbols[k + 4],
    }
}

// Is the kind of symbol i one there is, and a table's part within the entries that are lent?
fn given_ok(symbols: &[u32], i: usize, room: usize) -> bool
    requires { i < length symbols.now / 5 }
    ensures { result ≡ given_ok room symbols.now i }
{
    let k = 5 * i;
    let end = symbols[k + 3] as usize + symbols[k + 4] as usize;
    match Kind::try_from(symbols[k]) {
        Ok(Kind::Table) => end <= room,
        Ok(_) => true,
        Err(_) => false,
    }
}

// Are all symbols?
fn givens_ok(symbols: &[u32], room: usize) -> bool
    ensures { result ≡ givens_ok symbols.now room (length symbols.now / 5) 0 }
{
    for i in 0..symbols.len() / 5 {
        if !given_ok(symbols, i, room) {
            return false;
        }
    }
    true
}

// The refusal of lent symbols: the length before any entry is read.
pub fn refusal(symbols: &[u32], tables: &[u8]) -> Result<(), Refusal>
    ensures { verdict result ≡ refusal_given symbols.now tables.now }
{
    if symbols.len() % 5 == 0 {
        let known = givens_ok(symbols, tables.len());
        return entcode::refusal_of(true, known, true, Ok(()), true, true);
    }
    entcode::refusal_of(false, true, true, Ok(()), true, true)
}

// A table's entries: count of them, from a place on, as far as the list goes.
pub fn entries(tables: &[u8], from: u32, count: u32) -> &[u8]
    ensures { result.now ≡ take count (drop from tables.now) }
{
    let n = tables.len();
    let a = from as usize;
    let k = count as usize;
    if n <= a {
        return &tables[n..n];
    }
    if n - a <= k {
        return &tables[a..n];
    }
    let e = a + k;
    &tables[a..e]
}

// The Laplace value of a count: 0, -1, 1, -2, 2, .. of 0, 1, 2, 3, 4, ..
pub fn value_at(count: u32) -> i32
    ensures { result ≡ value_at count }
{
    if count % 2 == 0 {
        laws::value_of(false, count / 2)
    } else {
        laws::value_of(true, count / 2 + 1)
    }
}

// The count of a Laplace value.
pub fn count_of(value: i32) -> u32
    ensures { result ≡ code_of value }
{
    let n = laws::unsigned_abs(value);
    if value < 0 {
        return (n - 1) * 2 + 1;
    }
    2 * n
}

// The answer of a call that reads a Laplace value, or may adjust the one that it writes.
pub fn counted<C>(answer: Result<Coded<i32, C>, Refusal>) -> Result<Counted<C>, Refusal>
    ensures { said result ≡ lap_counted (said answer) }
{
    let y = answer?;
    Ok(Coded {
        value: count_of(y.value),
        next: y.next,
    })
}
