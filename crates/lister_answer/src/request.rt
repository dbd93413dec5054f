// A request line read: its numbers, and the packet's bytes.
ghost use Rattle.std.specs.Prelude.{◌≡◌, ◌/◌, ◌≤◌, length};
ghost use Rattle.lister_answer.specs.Request.{trim_of, total_of, packet_hex, request_numbers, packet_size, packet_into};

use rate::AllocNumbers;
use text::fields::{count, field};
use text::{hex, read};

// The trim that a field gives: 5 where it is empty.
fn trim(f: &[u8]) -> Option<i32>
    ensures { result ≡ trim_of f.now }
{
    if f.is_empty() {
        Some(5)
    } else {
        read::signed(f)
    }
}

// The total that a field gives: where it is empty, 8 bits for each byte of the packet.
fn total(f: &[u8], bytes: usize) -> Option<i32>
    requires { bytes ≤ 1275 }
    ensures { result ≡ total_of f.now bytes }
{
    if f.is_empty() {
        Some((64 * bytes) as i32)
    } else {
        read::signed(f)
    }
}

// The numbers of a line whose packet has so many bytes.
#[tactic(auto, unfolding(crate::specs::Request::asks_of, crate::specs::Request::request_numbers))]
pub fn numbers(s: &[u8], bytes: usize) -> Option<AllocNumbers>
    requires { (bytes ≤ 1275) × (bytes ≡ length (packet_hex s.now) / 2) }
    ensures { result ≡ request_numbers s.now }
{
    Some(AllocNumbers {
        c: read::signed_at(s, 0)?,
        lm: read::signed_at(s, 1)?,
        start: read::signed_at(s, 2)?,
        end: read::signed_at(s, 3)?,
        trim: trim(field(s, 4))?,
        total: total(field(s, 5), bytes)?,
    })
}

// Reads the packet of a line to the start of `out`, and says how many bytes it has.
pub fn packet(s: &[u8], out: &mut [u8]) -> Option<usize>
    requires { length out.old ≡ 1275 }
    ensures { (result ≡ packet_size s.now) × (out.new ≡ packet_into s.now out.old) }
{
    if s.len() > 2600 || count(s) != 7 {
        return None;
    }
    let digits = field(s, 6);
    if hex::bytes(digits, out) {
        Some(digits.len() / 2)
    } else {
        None
    }
}
