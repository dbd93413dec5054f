// How a round trip ended, as four numbers into the list that a call was lent, and numbers of refusals, as C has them.
#![tactic(auto)]

ghost use Rattle.std.specs.Prelude.{◌≡◌, length};
ghost use Rattle.entcode.specs.Refusal.{number_of};
ghost use Rattle.entcode.specs.Said.{number};
ghost use Rattle.trip_call.specs.Outcome.{ending, said_trip};
ghost use Rattle.gurthapen_trip.specs.Trip.{four, after_trip, outcome_numbers, refused_by};

use entcode::Refusal;
use trip_call::{Call, Outcome};

// The four numbers into a list of u64. gurthapen_answer has the like for i32: neither crate is above the other, and a crate between them is no plainer.
fn put_four(outcome: &mut [u64], how: u64, by: u64, place: u64, n: u64)
    requires { length outcome.old ≡ 4 }
    ensures { outcome.new ≡ four how by place n }
{
    outcome[0] = how;
    outcome[1] = by;
    outcome[2] = place;
    outcome[3] = n;
}

// What a call that refused leaves.
fn leave_refused(by: Call, why: Refusal, outcome: &mut [u64])
    requires { length outcome.old ≡ 4 }
    ensures { outcome.new ≡ refused_by by (number_of why) }
{
    let n = u64::from(u32::from(why));
    match by {
        Call::New => put_four(outcome, 2, 0, 0, n),
        Call::Symbol(i) => put_four(outcome, 2, 1, i as u64, n),
        Call::Allocation => put_four(outcome, 2, 2, 0, n),
        Call::Close => put_four(outcome, 2, 3, 0, n),
    }
}

// What an outcome leaves.
fn leave_outcome(o: Outcome, outcome: &mut [u64])
    requires { length outcome.old ≡ 4 }
    ensures { outcome.new ≡ outcome_numbers (ending o) }
{
    match o {
        Outcome::Agreed => put_four(outcome, 0, 0, 0, 0),
        Outcome::Refused(by, why) => leave_refused(by, why, outcome),
        Outcome::NotClosed => put_four(outcome, 1, 0, 0, 0),
        Outcome::Disagreed => put_four(outcome, 3, 0, 0, 0),
    }
}

// What a trip leaves, and its number: a refused one leaves the list as it was.
pub fn leave_trip(t: Result<Outcome, Refusal>, outcome: &mut [u64]) -> u32
    requires { length outcome.old ≡ 4 }
    ensures { (result ≡ number (said_trip t)) × (outcome.new ≡ after_trip (said_trip t) outcome.old) }
{
    match t {
        Ok(o) => {
            leave_outcome(o, outcome);
            0
        }
        Err(why) => u32::from(why),
    }
}
