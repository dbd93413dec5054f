// A trip as text.
use entcode::Refusal;
use replay_io::say::{numbers, text};
use std::io::Stdout;
use trip_call::{Call, Outcome};

// A line that has no meaning.
pub fn malformed(stdout: Stdout) {
    text(stdout, b"malformed\n");
}

// The call of a symbol, whose place is below 2^32 here.
fn symbol(stdout: Stdout, i: usize) {
    if let Ok(place) = u32::try_from(i) {
        numbers(stdout, b"refused symbol", &[place]);
    }
}

// A call.
fn call(stdout: Stdout, by: Call) {
    match by {
        Call::New => text(stdout, b"refused new"),
        Call::Symbol(i) => symbol(stdout, i),
        Call::Allocation => text(stdout, b"refused allocation"),
        Call::Close => text(stdout, b"refused close"),
    }
}

// The line of an outcome.
fn outcome(stdout: Stdout, r: Outcome) {
    match r {
        Outcome::Agreed => text(stdout, b"agreed\n"),
        Outcome::Refused(by, why) => {
            call(stdout, by);
            numbers(stdout, b"", &[u32::from(why)]);
            text(stdout, b"\n");
        }
        Outcome::NotClosed => text(stdout, b"not closed\n"),
        Outcome::Disagreed => text(stdout, b"disagreed\n"),
    }
}

// The line of a trip.
pub fn trip(stdout: Stdout, t: Result<Outcome, Refusal>) {
    match t {
        Ok(r) => outcome(stdout, r),
        Err(why) => {
            numbers(stdout, b"refused", &[u32::from(why)]);
            text(stdout, b"\n");
        }
    }
}
