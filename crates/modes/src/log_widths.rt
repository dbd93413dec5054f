// The logarithms of the bands' widths: static_modes_float_h.rs, logN400.
ghost use Rattle.std.specs.Prelude.{◌≡◌, ◌≤◌, ◌<◌};
ghost use Rattle.modes.specs.LogWidths.{log_width};

use laws::wide;

// The list `log_widths`.
const LOG_WIDTHS: [u8; 21] = [
    0, 0, 0, 0, 0, 0, 0, 0, 8, 8, 8, 8, 16, 16, 16, 21, 21, 24, 29, 34, 36,
];

// The logarithm of band j's width at LM 0, in eighths.
pub fn log_width_of(j: usize) -> u32
    requires { j < 21 }
    ensures { (result ≡ log_width j) × (result ≤ 36) }
{
    wide(LOG_WIDTHS[j])
}
