// Bytes of a packet by their places from its end, and the place after this one.
ghost use Rattle.std.specs.Prelude.{◌≡◌, ◌<◌};
ghost use Rattle.entdec.specs.Read.{advanced, byte_back};

// The byte at a place from the end, zero past the start.
pub fn byte_back(s: &[u8], at: usize) -> u32
    ensures { (result ≡ byte_back s.now at) × (result < 256) }
{
    if at < s.len() {
        laws::byte_at(s, s.len() - 1 - at)
    } else {
        0
    }
}

// The next place of n, which stays at the end.
pub fn advanced(at: u32, n: usize) -> u32
    requires { at < 4294967295 }
    ensures { result ≡ advanced at n }
{
    if (at as usize) < n { at + 1 } else { at }
}
