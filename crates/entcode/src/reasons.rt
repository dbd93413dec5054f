// Why a call is refused, and the one order in which that is asked: document 01, "When the answer is no".
ghost use Rattle.std.specs.Prelude.{◌≡◌, eqb, ℕ};
ghost use Rattle.entcode.specs.Refusal.{number_of, refusal, last_two};
ghost use Rattle.entcode.specs.Said.{verdict};

// Why a call is refused. Each has its number in document 01, by which it crosses to other languages.
#[derive(Clone, Copy, Debug, PartialEq, Eq)]
pub enum Refusal {
    // a number outside its domain, a coder state that breaks its rule, or a malformed line
    Number,
    // the length of something that is lent
    Length,
    // an entry of a list, an energy or a gain out of range
    Entry,
    // tell above its bound when the call begins
    PastEnd,
    // a band and LM without a row of the pulse cache
    NoRow,
    // an index of pulses past its row
    Index,
    // more vectors than 32 bits count
    Count,
    // a vector whose pulses are not K
    Sum,
    // a shape that would have to be rotated
    Rotation,
    // a repeat: a frame's number below the record's next
    BelowNext,
    // a gap: a frame's number above the record's next
    AboveNext,
    // a writer that was closed
    Closed,
}

impl From<Refusal> for u32 {
    ghost from_gives = { λ why n. n ≡ number_of why };

    fn from(why: Refusal) -> u32 {
        match why {
            Refusal::Number => 1,
            Refusal::Length => 2,
            Refusal::Entry => 3,
            Refusal::PastEnd => 4,
            Refusal::NoRow => 5,
            Refusal::Index => 6,
            Refusal::Count => 7,
            Refusal::Sum => 8,
            Refusal::Rotation => 9,
            Refusal::BelowNext => 10,
            Refusal::AboveNext => 11,
            Refusal::Closed => 12,
        }
    }
}

// What a gate, or what a call's own rules say: nothing is refused, or what is. The calls say it by a Result, and a number says it too, 0 where nothing is
// refused, whatever number another rule gives.
pub trait Verdict: Copy {
    // The number, 0 where nothing is refused.
    ghost number: { Self → ℕ };

    // Nothing is refused.
    fn none() -> Self
        ensures { number result ≡ 0 };

    // This is refused.
    fn refused(why: Refusal) -> Self
        ensures { number result ≡ number_of why };

    // Is nothing refused?
    fn accepts(self) -> bool
        ensures { result ≡ eqb (number self) 0 };
}

impl Verdict for Result<(), Refusal> {
    ghost number = { verdict };

    fn none() -> Result<(), Refusal> {
        Ok(())
    }

    fn refused(why: Refusal) -> Result<(), Refusal> {
        Err(why)
    }

    fn accepts(self) -> bool {
        self.is_ok()
    }
}

impl Verdict for u32 {
    ghost number = { λ n. n };

    fn none() -> u32 {
        0
    }

    fn refused(why: Refusal) -> u32 {
        u32::from(why)
    }

    fn accepts(self) -> bool {
        self == 0
    }
}

// The first refusal that applies, in document 01's order. `special` is what the call's own rules say.
pub fn refusal_of<V: Verdict>(
    lengths: bool,
    numbers: bool,
    lists: bool,
    special: V,
    unclosed: bool,
    fits: bool,
) -> V
    ensures { V.number result ≡ refusal lengths numbers lists (V.number special) unclosed fits }
{
    if !lengths {
        return V::refused(Refusal::Length);
    }
    if !numbers {
        return V::refused(Refusal::Number);
    }
    if !lists {
        return V::refused(Refusal::Entry);
    }
    if !special.accepts() {
        return special;
    }
    last_two(unclosed, fits)
}

// The two that come last: a write after close, and a tell above its bound.
fn last_two<V: Verdict>(unclosed: bool, fits: bool) -> V
    ensures { V.number result ≡ last_two unclosed fits }
{
    if !unclosed {
        return V::refused(Refusal::Closed);
    }
    if !fits {
        return V::refused(Refusal::PastEnd);
    }
    V::none()
}
