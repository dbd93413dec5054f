// The prediction of a coarse energy in f32, each operation rounded once: quant_bands.rs, unquant_coarse_energy.
ghost use Rattle.std.specs.Prelude.{◌≡◌};
ghost use Rattle.quant_bands.specs.Prediction.{raised, predicted, handed_on};

// The last frame's energy, at least -9.
fn raise(old: f32) -> f32
    ensures { result ≡ raised old }
{
    if -9.0f32 > old { -9.0f32 } else { old }
}

// A share of the last frame's energy, what the band inherits, and the step.
pub fn predict(coef: f32, old: f32, prev: f32, q: f32) -> f32
    ensures { result ≡ predicted coef old prev q }
{
    coef * raise(old) + prev + q
}

// What the next band inherits.
pub fn carry(beta: f32, prev: f32, q: f32) -> f32
    ensures { result ≡ handed_on beta prev q }
{
    prev + q - beta * q
}
