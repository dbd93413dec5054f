// The rule of a table of falling entries, which reader and writer check alike: document 01, "Domain in numbers", symbols.
ghost use Rattle.std.specs.Prelude.{◌≡◌, ◌^◌};
ghost use Rattle.entcode.specs.Sym.{falls};

// Is each entry below the one before it, the first below top, and the last 0?
fn falls_from(t: &[u8], top: u32) -> bool
    ensures { result ≡ falls top t.now }
{
    let mut p = top;
    for &b in t {
        let x = u32::from(b);
        if p <= x {
            return false;
        }
        p = x;
    }
    p == 0
}

// Does a table for 2^ftb places keep its rule? Every byte is below 2^8, so that ftb needs no bound here.
pub fn table_ok(t: &[u8], ftb: u32) -> bool
    ensures { result ≡ falls (2 ^ ftb) t.now }
{
    if ftb < 8 {
        falls_from(t, 1 << ftb)
    } else {
        falls_from(t, 256)
    }
}
