// Numbers written into a lent buffer, behind a room that the caller keeps free: workers. A place goes in and the place after comes out, and no slice
// of what is left of the buffer: `PlacedText`, on which the contracts of the saved lines and of the lister stand, speaks of places in the whole buffer.
ghost use Rattle.std.specs.Prelude.{◌≡◌, ◌∷◌, ◌+◌, ◌≤◌, ◌<◌, length};
ghost use Rattle.std.proofs.lemmas.List.Edits.{sets};
ghost use Rattle.text.specs.Digits.{glyph_of, last_digits};
ghost use Rattle.text.specs.Written.{figures_of, decimal_of, signed_of, hex_word_of, PlacedText};

// How many figures a number takes.
fn figures(n: u32) -> usize
    ensures { (result ≡ figures_of n) × (result ≤ 10) }
{
    if n == 0 { 1 } else { n.ilog10() as usize + 1 }
}

// The digit for a value below 16.
#[tactic(auto, unfolding(crate::specs::Digits::glyph_of))]
pub fn glyph(d: u32) -> u8
    requires { d < 16 }
    ensures { result ≡ glyph_of d }
{
    if d < 10 {
        b'0' + d as u8
    } else {
        b'a' + (d - 10) as u8
    }
}

// The last k digits of n from `at` on.
fn spell(n: u32, base: u32, k: usize, buf: &mut [u8], at: usize)
    requires { (at + k ≤ length buf.old) × (0 < base) × (base ≤ 16) }
    ensures { buf.new ≡ sets buf.old at (last_digits base k n) }
{
    let mut rest = n;
    for i in (0..k).rev() {
        buf[at + i] = glyph(rest % base);
        rest /= base;
    }
}

// n in decimal from `at` on; the place after it.
pub fn decimal(n: u32, buf: &mut [u8], at: usize) -> usize
    requires { at + 10 ≤ length buf.old }
    ensures { PlacedText 10 buf.old at (decimal_of n) result buf.new }
{
    let k = figures(n);
    spell(n, 10, k, buf, at);
    at + k
}

// z in decimal from `at` on; the place after it.
pub fn signed_decimal(z: i32, buf: &mut [u8], at: usize) -> usize
    requires { at + 11 ≤ length buf.old }
    ensures { PlacedText 11 buf.old at (signed_of z) result buf.new }
{
    let n = z.unsigned_abs();
    if z < 0 {
        buf[at] = b'-';
        return decimal(n, buf, at + 1);
    }
    decimal(n, buf, at)
}

// n as eight hex digits from `at` on; the place after them.
pub fn hex_word(n: u32, buf: &mut [u8], at: usize) -> usize
    requires { at + 8 ≤ length buf.old }
    ensures { PlacedText 8 buf.old at (hex_word_of n) result buf.new }
{
    spell(n, 16, 8, buf, at);
    at + 8
}

// Three fields: each has its room and its text in its contract, which a closure for the number would have to carry.
// A tab and n in decimal from `at` on; the place after them.
pub fn decimal_field(n: u32, buf: &mut [u8], at: usize) -> usize
    requires { at + 11 ≤ length buf.old }
    ensures { PlacedText 11 buf.old at (9 ∷ decimal_of n) result buf.new }
{
    buf[at] = b'\t';
    decimal(n, buf, at + 1)
}

// A tab and z in decimal from `at` on; the place after them.
pub fn signed_field(z: i32, buf: &mut [u8], at: usize) -> usize
    requires { at + 12 ≤ length buf.old }
    ensures { PlacedText 12 buf.old at (9 ∷ signed_of z) result buf.new }
{
    buf[at] = b'\t';
    signed_decimal(z, buf, at + 1)
}

// A tab and n as eight hex digits from `at` on; the place after them.
pub fn word_field(n: u32, buf: &mut [u8], at: usize) -> usize
    requires { at + 9 ≤ length buf.old }
    ensures { PlacedText 9 buf.old at (9 ∷ hex_word_of n) result buf.new }
{
    buf[at] = b'\t';
    hex_word(n, buf, at + 1)
}
