// The encoder's side: flags and stereo symbols go into the lent bytes.
ghost use Rattle.std.specs.Prelude.{◌≡◌, ℕ, suc, refl};
ghost use Rattle.std.proofs.Common.{rules};
ghost use Rattle.entenc.specs.Ready.{Ready};
ghost use Rattle.entenc.specs.Write.{Wr, wr};
ghost use Rattle.rate_bands.specs.Inputs.{bare};
ghost use Rattle.rate_skip.specs.Asks.{write_ask, write_bit};
ghost use Rattle.entenc.proofs.Chain.{ready_less};

use crate::choice::Wished;
use crate::side::Side;
use entenc::Writer;
use rate_bands::AllocCounts;

// The lent bytes, the writer that is in them, and the wishes.
#[derive(Drop)]
pub struct Encoder<'a> {
    pub bytes: &'a mut [u8],
    pub at: Writer,
    pub wished: Wished,
}

impl Encoder<'_> {
    // One bit of probability a half.
    fn put(&mut self, yes: bool)
        requires { Ready 1 (wr self.old.at self.old.bytes.now) }
        ensures written { wr self.new.at self.new.bytes.now ≡ write_bit yes (wr self.old.at self.old.bytes.now) }
        ensures follows { (k : ℕ) → Ready (suc k) (wr self.old.at self.old.bytes.now) → Ready k (wr self.new.at self.new.bytes.now) }
        ensures same { (self.old.bytes.ghost_name ≡ self.new.bytes.ghost_name) × (self.old.wished ≡ self.new.wished) }
    {
        self.at = self.at.put_bit(self.bytes, u32::from(yes), 1);
    }
}

impl<'a> Side for Encoder<'a> {
    ghost State = { Wr };

    ghost state = { λ e. wr e.at e.bytes.now };

    ghost ask = { λ e f. write_ask (bare f) e.wished.previous e.wished.bandwidth e.wished.intensity e.wished.dual };

    ghost ready = { λ k e. Ready k (wr e.at e.bytes.now) };

    ghost alike = { λ d e. (d.bytes.ghost_name ≡ e.bytes.ghost_name) × (d.wished ≡ e.wished) };

    fn stops(&mut self, f: AllocCounts, coded: usize, n: u32, top: u32) -> bool {
        let yes = self.wished.stops(f, coded, n, top);
        self.put(yes);
        yes
    }

    fn intensity(&mut self, f: AllocCounts, coded: usize) -> u32 {
        let v = self.wished.written(f.start, coded);
        self.at = self
            .at
            .put_uint(self.bytes, v, (coded + 1 - f.start) as u32);
        v
    }

    fn dual(&mut self) -> bool {
        let yes = self.wished.dual;
        self.put(yes);
        yes
    }

    ghost fewer = { λ j k e h r. ready_less j k (wr e.at e.bytes.now) h r };

    ghost alike_self = { λ e. (refl, refl) };

    ghost alike_next = { λ c d e p q. Prim.search rules };

    ghost answers = { λ d e p. Prim.search rules };
}
