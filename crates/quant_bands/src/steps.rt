// A coarse energy's step, read by how many bits are left: RFC 6716, section 4.3.2.1.
ghost use Rattle.std.specs.Prelude.{◌≡◌, true};
ghost use Rattle.modes.specs.Laplace.{legal};
ghost use Rattle.entdec.specs.Ready.{Ready};
ghost use Rattle.quant_bands.specs.Steps.{bits_left, read_small, read_minus, read_step};

use entdec::Reader;
use laplace::LapSym;
use laws::value_of;

// The bits of the packet that are not used up.
pub fn bits_left(d: Reader) -> u64
    ensures { result ≡ bits_left d }
{
    let have = 8 * (d.storage as u64);
    let used = entcode::tell_of(d.total, d.rng) as u64;
    have.saturating_sub(used)
}

// The three-way table.
fn read_small(d: Reader, s: &[u8]) -> LapSym
    requires { Ready 1 d }
    ensures { result ≡ read_small s.now d }
{
    let t = modes::small_energy::table();
    let y = d.symbol(s, &t, 2);
    let v = y.value;
    let next = y.next;
    LapSym {
        value: value_of(v == 1, (v + 1) / 2),
        next,
    }
}

// Minus a bit.
fn read_minus(d: Reader, s: &[u8]) -> LapSym
    requires { Ready 1 d }
    ensures { result ≡ read_minus s.now d }
{
    let y = d.bit(s, 1);
    let next = y.next;
    LapSym {
        value: value_of(true, y.value),
        next,
    }
}

// The step, with fs places for zero and this decay where it is a Laplace value.
pub fn read_step(d: Reader, s: &[u8], fs: u32, decay: u32) -> LapSym
    requires ready { Ready 1 d }
    requires decay_value { legal fs decay ≡ true }
    ensures { result ≡ read_step fs decay s.now d }
{
    let left = bits_left(d);
    if 15 <= left {
        return laplace::work::read(d, s, fs, decay);
    }
    if 2 <= left {
        return read_small(d, s);
    }
    if 1 <= left {
        return read_minus(d, s);
    }
    LapSym { value: -1, next: d }
}
