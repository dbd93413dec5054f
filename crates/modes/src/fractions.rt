// The costs of a choice: rate.rs, LOG2_FRAC_TABLE.
ghost use Rattle.std.specs.Prelude.{◌≡◌, ◌≤◌, ◌<◌};
ghost use Rattle.modes.specs.Fractions.{fraction};

use laws::wide;

// The list `fractions`.
const FRACTIONS: [u8; 24] = [
    0, 8, 13, 16, 19, 21, 23, 24, 26, 27, 28, 29, 30, 31, 32, 32, 33, 34, 34, 35, 36, 36, 37, 37,
];

// What one of n + 1 values costs, in eighths of a bit.
pub fn fraction_of(n: usize) -> u32
    requires { n < 24 }
    ensures { (result ≡ fraction n) × (result ≤ 37) }
{
    wide(FRACTIONS[n])
}
