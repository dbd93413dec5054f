// One band of the coarse energies: quant_bands.rs, unquant_coarse_energy, the inner loop.
// The table is taken once for each call and lent, so that it is not made in each function.
ghost use Rattle.std.specs.Prelude.{◌≡◌, true, cond, leb, ◌-◌, ◌≤◌, ◌<◌, length};
ghost use Rattle.modes.specs.EnergyModel.{energy_model};
ghost use Rattle.modes.specs.Laplace.{legal};
ghost use Rattle.entdec.specs.Ready.{Ready};
ghost use Rattle.quant_bands.specs.Coarse.{coarse_state, kind_of, coarse_step, energy_at, first_at, second_at, coarse_band};

use crate::bands::Frame;
use crate::prediction::{carry, predict};
use crate::steps::read_step;
use entdec::Reader;
use modes::energy_model::{decay_in, pair_of, zero_in};
use modes::prediction::{beta_of, coef_of};

// What a band is decoded with: the places of zero and the decay of its Laplace values, and the two shares of the prediction.
#[derive(Clone, Copy)]
pub struct Kind {
    pub zero: u32,
    pub decay: u32,
    pub coef: f32,
    pub beta: f32,
}

// No `Coded`: what is handed on is its name, which the definitions have.
// What a channel hands on to the next band, and the reader.
#[derive(Clone, Copy)]
pub struct Hand {
    pub hands: f32,
    pub next: Reader,
}

// What channel 0 and channel 1 hand on, and the reader.
#[derive(Clone, Copy)]
pub struct Hands {
    pub first: f32,
    pub second: f32,
    pub next: Reader,
}

// What band i is decoded with, from the model lent.
fn kind_of(t: &[u8], f: Frame, i: usize) -> Kind
    requires { (t.now ≡ energy_model) × (i < 21) }
    ensures { result ≡ kind_of f.lm f.intra i }
{
    let k = pair_of(f.lm, f.intra, i);
    Kind {
        zero: zero_in(t, k),
        decay: decay_in(t, k),
        coef: coef_of(f.intra, f.lm),
        beta: beta_of(f.intra, f.lm),
    }
}

// The energy at place k, whose channel inherits prev, takes a step.
fn energy(e: &mut [f32], k: usize, m: Kind, prev: f32, s: &[u8], d: Reader) -> Hand
    requires k_in_bounds { k < length e.old }
    requires decay_value { legal m.zero m.decay ≡ true }
    requires ready { Ready 1 d }
    ensures { coarse_step e.new result.hands result.next ≡ energy_at m s.now k prev d e.old }
{
    let y = read_step(d, s, m.zero, m.decay);
    let q = y.value as f32;
    let next = y.next;
    let old = e[k];
    e[k] = predict(m.coef, old, prev, q);
    Hand {
        hands: carry(m.beta, prev, q),
        next,
    }
}

// b for the second channel, else a.
fn pick(second: bool, a: f32, b: f32) -> f32
    ensures { result ≡ cond second b a }
{
    if second { b } else { a }
}

// Where the energies of c channels end.
fn end_of(c: u32) -> usize
    ensures { (result ≡ cond (leb 2 c) 42 21) × (result ≤ 42) }
{
    if c < 2 { 21 } else { 42 }
}

// The energy at place k, with what its channel inherits and hands on.
fn channel(e: &mut [f32], m: Kind, k: usize, s: &[u8], g: Hands) -> Hands
    requires k_in_bounds { k < length e.old }
    requires decay_value { legal m.zero m.decay ≡ true }
    requires ready { Ready 1 g.next }
    ensures { coarse_state e.new result.first result.second result.next
        ≡ cond (leb 21 k)
        (second_at m s.now (k - 21) (coarse_state e.old g.first g.second g.next))
        (first_at m s.now k (coarse_state e.old g.first g.second g.next)) }
{
    let second = 21 <= k;
    let d = g.next;
    let prev = pick(second, g.first, g.second);
    let y = energy(e, k, m, prev, s, d);
    let next = y.next;
    Hands {
        first: pick(second, y.hands, g.first),
        second: pick(second, g.second, y.hands),
        next,
    }
}

// Band i of c channels. One call, in a loop over the channels' places, so that reading a step is inlined.
pub fn coarse_band(e: &mut [f32], t: &[u8], f: Frame, i: usize, s: &[u8], g: Hands) -> Hands
    requires e_len { (length e.old ≡ 42) × (t.now ≡ energy_model) × (i < 21) }
    requires ready { Ready 2 g.next }
    ensures { coarse_state e.new result.first result.second result.next
        ≡ coarse_band f.bands.c f.lm f.intra s.now i (coarse_state e.old g.first g.second g.next) }
{
    let m = kind_of(t, f, i);
    let end = end_of(f.bands.c);
    let mut y = g;
    for k in (i..end).step_by(21) {
        y = channel(e, m, k, s, y);
    }
    y
}
