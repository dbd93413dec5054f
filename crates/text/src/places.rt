// Where the fields of a line stand.
ghost use Rattle.std.specs.Prelude.{◌≡◌};
ghost use Rattle.text.specs.Fields.{end_from, span_from, next_of, FieldPlace};

// A part of a line: from start up to end.
#[derive(Clone, Copy)]
pub struct Span {
    pub start: usize,
    pub end: usize,
}

// The place of the first tab from `at` on, or the end.
fn end_of(s: &[u8], at: usize) -> usize
    ensures { result ≡ end_from s.now at }
{
    for i in at..s.len() {
        if s[i] == b'\t' {
            return i;
        }
    }
    at.max(s.len())
}

// The field that starts at a place.
pub fn span_from(s: &[u8], at: usize) -> Span
    ensures { result ≡ span_from s.now at }
{
    let end = end_of(s, at);
    Span { start: at, end }
}

// The field after one, empty and at the end where there is none.
pub fn next(s: &[u8], p: Span) -> Span
    ensures { result ≡ next_of s.now p }
{
    let at = p.end;
    if at < s.len() {
        return span_from(s, at + 1);
    }
    span_from(s, s.len())
}

// The place of field n, empty and at the end where there is none.
pub fn place(s: &[u8], n: usize) -> Span
    ensures { FieldPlace s.now n result }
{
    let mut p = span_from(s, 0);
    for _ in 0..n {
        if s.len() <= p.end {
            return span_from(s, s.len());
        }
        p = next(s, p);
    }
    p
}
