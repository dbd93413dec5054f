// Numbers of digits: strict decimals of any length, and words of eight hex digits.
ghost use Rattle.std.specs.Prelude.{◌≡◌, ◌≤◌, ◌<◌, MatchOption};
ghost use Rattle.text.specs.Fields.{field_of};
ghost use Rattle.text.specs.Digits.{digit_of};
ghost use Rattle.text.specs.Numbers.{digits_of, number_of, whole_of, whole_in, word_of};

use crate::fields::field;
use laws::{in_range, value_of};

// The value of 0..9 and a..f.
#[tactic(auto, unfolding(crate::specs::Digits::digit_of))]
pub fn digit(c: u8) -> Option<u8>
    ensures { MatchOption result (digit_of c ≡ 16) (λ d. (digit_of c ≡ d) × (d < 16)) }
{
    match c {
        b'0'..=b'9' => Some(c - b'0'),
        b'a'..=b'f' => Some(c - b'a' + 10),
        _ => None,
    }
}

// The number 0..most that digits of a base write, of any length.
fn digits(s: &[u8], base: u32, most: u32) -> Option<u32>
    requires { base ≤ 16 }
    ensures { result ≡ digits_of base most s.now }
{
    let mut v: u64 = 0;
    for &b in s {
        let d = u32::from(digit(b)?);
        if d >= base {
            return None;
        }
        v = v * u64::from(base) + u64::from(d);
        if v > u64::from(most) {
            return None;
        }
    }
    Some(v as u32)
}

// The number 0..most that s writes in decimal.
pub fn number(s: &[u8], most: u32) -> Option<u32>
    ensures { result ≡ number_of most s.now }
{
    match s {
        [] | [b'0', _, ..] => None,
        _ => digits(s, 10, most),
    }
}

// The number -2,147,483,648..2,147,483,647 that s writes in decimal; there is no minus zero.
pub fn signed(s: &[u8]) -> Option<i32>
    ensures { result ≡ whole_of s.now }
{
    match s {
        [b'-', size @ ..] => {
            let n = number(size, 2147483648)?;
            if n == 0 {
                None
            } else {
                Some(value_of(true, n))
            }
        }
        _ => {
            let n = number(s, 2147483647)?;
            Some(n as i32)
        }
    }
}

// The number lo..hi that s writes in decimal.
pub fn signed_in(s: &[u8], lo: i32, hi: i32) -> Option<i32>
    ensures { result ≡ whole_in lo hi s.now }
{
    signed(s).filter(|z| in_range(*z, lo, hi))
}

// The number that s writes in eight hex digits.
pub fn word(s: &[u8]) -> Option<u32>
    ensures { result ≡ word_of s.now }
{
    if s.len() == 8 {
        digits(s, 16, u32::MAX)
    } else {
        None
    }
}

// The number 0..most in a line's field n.
pub fn number_at(s: &[u8], n: usize, most: u32) -> Option<u32>
    ensures { result ≡ number_of most (field_of s.now n) }
{
    number(field(s, n), most)
}

// The number -2,147,483,648..2,147,483,647 in a line's field n.
pub fn signed_at(s: &[u8], n: usize) -> Option<i32>
    ensures { result ≡ whole_of (field_of s.now n) }
{
    signed(field(s, n))
}
