// What a request line is answered with, as values and without any text: the bands that it asks for, what reading the allocation says, and the bands'
// figures.
ghost use Rattle.std.specs.Prelude.{◌≡◌, true, ◌≤◌, length};
ghost use Rattle.entcode.specs.Refusal.{number_of};
ghost use Rattle.entdec.specs.Read.{fresh_reader};
ghost use Rattle.rate.specs.Question.{numbers_ok};
ghost use Rattle.lister_answer.specs.Request.{well_formed, packet_of};
ghost use Rattle.lister_answer.specs.Decision.{decision, refused_decision, decision_of_numbers, decision_of_line};

use crate::caps::caps;
use crate::request;
use entcode::Refusal;
use entdec::Reader;
use laws::clipped;
use rate::gate::numbers_ok;
use rate::{AllocNumbers, ReadAllocation};

// The bands from start up to end - 1, none for a line that asks for none, what reading their allocation says, and the figures that it leaves.
#[derive(Clone, Copy)]
pub struct Decided {
    pub start: usize,
    pub end: usize,
    pub said: Result<ReadAllocation, Refusal>,
    pub pulses: [i32; 21],
    pub fine: [i32; 21],
    pub priorities: [i32; 21],
}

// A refusal, with no bands.
fn none(why: Refusal) -> Decided
    ensures { decision result ≡ refused_decision (number_of why) }
{
    Decided {
        start: 0,
        end: 0,
        said: Err(why),
        pulses: [0; 21],
        fine: [0; 21],
        priorities: [0; 21],
    }
}

// The answer for numbers of the domain and a packet, with a reader of it.
fn allocate(q: AllocNumbers, d: Reader, s: &[u8]) -> Decided
    requires { (numbers_ok q ≡ true) }
    ensures { decision result ≡ decision_of_numbers q s.now d }
{
    let offsets = [0i32; 21];
    let limits = caps(clipped(q.c), clipped(q.lm));
    let mut pulses = [0i32; 21];
    let mut fine = [0i32; 21];
    let mut priorities = [0i32; 21];
    let said = rate::clt_compute_allocation_read(
        d,
        s,
        q,
        &offsets,
        &limits,
        &mut pulses,
        &mut fine,
        &mut priorities,
    );
    let start = clipped(q.start) as usize;
    let end = clipped(q.end) as usize;
    Decided {
        start,
        end,
        said,
        pulses,
        fine,
        priorities,
    }
}

// The answer for numbers and a packet, with a reader of it.
fn decide_numbers(q: AllocNumbers, d: Reader, s: &[u8]) -> Decided
    requires { (d ≡ fresh_reader s.now) }
    ensures { decision result
        ≡ decision_of_numbers q s.now (fresh_reader s.now) }
{
    if numbers_ok(q) {
        return allocate(q, d, s);
    }
    none(Refusal::Number)
}

// The answer for numbers and a packet.
fn decide_packet(q: AllocNumbers, s: &[u8]) -> Decided
    requires { (length s.now ≤ 1275) }
    ensures { decision result
        ≡ decision_of_numbers q s.now (fresh_reader s.now) }
{
    match Reader::new(s) {
        Ok(d) => decide_numbers(q, d, s),
        Err(why) => none(why),
    }
}

// The answer for a line and its packet.
fn decide_request(line: &[u8], packet: &[u8]) -> Decided
    requires { (well_formed line.now ≡ true) × (packet.now ≡ packet_of line.now) }
    ensures { decision result ≡ decision_of_line line.now }
{
    match request::numbers(line, packet.len()) {
        Some(q) => decide_packet(q, packet),
        None => none(Refusal::Number),
    }
}

// What a line is answered with.
pub fn decide(line: &[u8]) -> Decided
    ensures { decision result ≡ decision_of_line line.now }
{
    let mut packet = [0u8; 1275];
    match request::packet(line, &mut packet) {
        Some(n) => decide_request(line, &packet[..n]),
        None => none(Refusal::Number),
    }
}
