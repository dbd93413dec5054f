// The prediction of the coarse energies: quant_bands.rs, pred_coef, beta_coef and beta_intra; each figure is a whole number over 32768.
ghost use Rattle.std.specs.Prelude.{◌≡◌, ◌<◌};
ghost use Rattle.modes.specs.Prediction.{coef_of, beta_of};

// The list `pred_coefs`.
const PRED_COEF: [f32; 4] = [0.8984375, 0.796875, 0.6484375, 0.5];

// The list `beta_coefs`.
const BETA_COEF: [f32; 4] = [
    0.920013427734375,
    0.67999267578125,
    0.3699951171875,
    0.20001220703125,
];

// `beta_intra`.
const BETA_INTRA: f32 = 0.149993896484375;

// The share of the last frame's energy.
pub fn coef_of(intra: bool, lm: usize) -> f32
    requires { lm < 4 }
    ensures { result ≡ coef_of intra lm }
{
    if intra { 0.0 } else { PRED_COEF[lm] }
}

// The share of a band's step that the next band does not inherit.
pub fn beta_of(intra: bool, lm: usize) -> f32
    requires { lm < 4 }
    ensures { result ≡ beta_of intra lm }
{
    if intra { BETA_INTRA } else { BETA_COEF[lm] }
}
