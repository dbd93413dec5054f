// Who answers the questions of an allocation: a decoder reads each answer, and an encoder decides it and writes it.
ghost use Rattle.std.specs.Prelude.{◌≡◌, ℕ, suc, ◌-◌, ◌≤◌, ◌<◌};
ghost use Rattle.modes.specs.Edges.{width};
ghost use Rattle.rate_spec.specs.Types.{Ask};
ghost use Rattle.rate_bands.specs.Inputs.{AllocCountsOk};
ghost use Rattle.rate_bands.specs.declared.AllocCounts.{AllocCounts};

use rate_bands::AllocCounts;

// Each question is one symbol of a coder, which the side holds with its bytes.
pub trait Side {
    // What the definition has for a coder with its bytes.
    ghost State: { Type 0 };

    // This side's coder with its bytes.
    ghost state: { Self → State };

    // Who answers, in the definition's words, where the frame's numbers are these.
    ghost ask: { Self → AllocCounts → Ask State };

    // So many more questions can be answered.
    ghost ready: { ℕ → Self → Type 0 };

    // Equal but for the coder and what stands in its bytes, which are the same bytes.
    ghost alike: { Self → Self → Type 0 };

    // Whether skipping stops before the top one of `coded` bands, which has the width n and `top` bits.
    fn stops(&mut self, f: AllocCounts, coded: usize, n: u32, top: u32) -> bool
        requires { AllocCountsOk f × (1 ≤ coded) × (coded ≤ 21) × (n ≡ width (coded - 1)) × ready 1 self.old }
        ensures answered { (result, state self.new) ≡ (ask self.old f).skip coded top (state self.old) }
        ensures follows { (k : ℕ) → ready (suc k) self.old → ready k self.new }
        ensures same { alike self.old self.new };

    // The first band whose channels are coded as one, counted from the first band of the frame.
    fn intensity(&mut self, f: AllocCounts, coded: usize) -> u32
        requires { AllocCountsOk f × (f.start < coded) × (coded ≤ 21) × ready 1 self.old }
        ensures answered { (result, state self.new) ≡ (ask self.old f).intensity (suc coded - f.start) (state self.old) }
        ensures within { result ≤ coded - f.start }
        ensures follows { (k : ℕ) → ready (suc k) self.old → ready k self.new }
        ensures same { alike self.old self.new };

    // Whether the bands below it have separate channels.
    fn dual(&mut self) -> bool
        requires { ready 1 self.old }
        ensures answered { (f : AllocCounts) → (result, state self.new) ≡ (ask self.old f).dual (state self.old) }
        ensures same { alike self.old self.new };

    // Ready for more is ready for fewer.
    ghost fewer: { (j k : ℕ) (x : Self) → j ≤ k → ready k x → ready j x };

    // Each side is like itself.
    ghost alike_self: { (x : Self) → alike x x };

    // What is like a side is like what that one is like.
    ghost alike_next: { (x y z : Self) → alike x y → alike y z → alike x z };

    // Alike sides answer alike.
    ghost answers: { (x y : Self) → alike x y → ask x ≡ ask y };
}
