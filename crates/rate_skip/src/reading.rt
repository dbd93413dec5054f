// The decoder's side: flags and stereo symbols come from the packet s.
ghost use Rattle.std.specs.Prelude.{◌≡◌, ℕ, suc, refl};
ghost use Rattle.std.proofs.Common.{rules};
ghost use Rattle.entdec.specs.declared.Reader.{Reader};
ghost use Rattle.entdec.specs.Ready.{Ready};
ghost use Rattle.rate_skip.specs.Asks.{read_ask, read_bit};
ghost use Rattle.entdec.proofs.Chain.{ready_less};

use crate::side::Side;
use entdec::Reader;
use rate_bands::AllocCounts;

// A packet, and the reader that is in it. `EcDec` of reader_held has the same fields: its names are those of the RFC's source, and it is above this crate.
#[derive(Clone, Copy)]
pub struct Decoder<'a> {
    pub s: &'a [u8],
    pub at: Reader,
}

impl Decoder<'_> {
    // One bit of probability a half.
    fn take(&mut self) -> bool
        requires { Ready 1 self.old.at }
        ensures taken { (result, self.new.at) ≡ read_bit self.old.s.now self.old.at }
        ensures follows { (k : ℕ) → Ready (suc k) self.old.at → Ready k self.new.at }
        ensures same { self.old.s.now ≡ self.new.s.now }
    {
        let y = self.at.bit(self.s, 1);
        self.at = y.next;
        y.value == 1
    }
}

impl<'a> Side for Decoder<'a> {
    ghost State = { Reader };

    ghost state = { λ d. d.at };

    ghost ask = { λ d f. read_ask d.s.now };

    ghost ready = { λ k d. Ready k d.at };

    ghost alike = { λ d e. d.s.now ≡ e.s.now };

    fn stops(&mut self, _f: AllocCounts, _coded: usize, _n: u32, _top: u32) -> bool {
        self.take()
    }

    fn intensity(&mut self, f: AllocCounts, coded: usize) -> u32 {
        let y = self.at.uniform(self.s, (coded + 1 - f.start) as u32);
        self.at = y.next;
        y.value
    }

    fn dual(&mut self) -> bool {
        self.take()
    }

    ghost fewer = { λ j k d h r. ready_less j k d.at h r };

    ghost alike_self = { λ d. refl };

    ghost alike_next = { λ c d e p q. Prim.search rules };

    ghost answers = { λ d e p. Prim.search rules };
}
