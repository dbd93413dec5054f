// Bytes written as two hex digits each.
ghost use Rattle.std.specs.Prelude.{◌≡◌, true, ◌+◌, ◌*◌, ◌≤◌, ◌<◌, length};
ghost use Rattle.std.proofs.lemmas.List.Edits.{sets};
ghost use Rattle.text.specs.Digits.{digit_of, all_digits};
ghost use Rattle.text.specs.Numbers.{bytes_of, hex_bytes, bytes_into};

use crate::read::digit;

// Is every byte a hex digit?
fn all_hex(s: &[u8]) -> bool
    ensures { result ≡ all_digits 16 s.now }
{
    s.iter().all(|b| digit(*b).is_some())
}

// Does s write at most this many bytes?
#[tactic(auto, unfolding(crate::specs::Numbers::hex_bytes))]
fn is_bytes(s: &[u8], most: usize) -> bool
    requires { most < 9223372036854775808 }
    ensures { result ≡ hex_bytes most s.now }
{
    s.len() <= 2 * most && (s.len() % 2 == 0 && all_hex(s))
}

// The byte that two digits write. With `unwrap_or` in the place of `unwrap` the compiler works them out without a branch, which digits would mispredict.
fn byte(a: u8, b: u8) -> u8
    requires { (digit_of a < 16) × (digit_of b < 16) }
    ensures { result ≡ digit_of a * 16 + digit_of b }
{
    digit(a).unwrap_or(0) * 16 + digit(b).unwrap_or(0)
}

// The bytes that digits write, at the start of `out`.
fn store(s: &[u8], out: &mut [u8])
    requires { (length s.now ≤ 2 * length out.old) × (all_digits 16 s.now ≡ true) }
    ensures { out.new ≡ sets out.old 0 (bytes_of s.now) }
{
    for i in 0..s.len() / 2 {
        out[i] = byte(s[2 * i], s[2 * i + 1]);
    }
}

// Reads the bytes that s writes to the start of `out`; false, and `out` as it was, where s writes none or too many.
pub fn bytes(s: &[u8], out: &mut [u8]) -> bool
    ensures { (result ≡ hex_bytes (length out.old) s.now)
        × (out.new ≡ bytes_into s.now out.old) }
{
    let good = is_bytes(s, out.len());
    if good {
        store(s, out);
    }
    good
}
