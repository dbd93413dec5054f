// The model of the coarse energies: quant_bands.rs, e_prob_model, its 4 by 2 rows of 21 pairs as one list.
// The table is taken once for each call and lent, so that it is not made in each function.
ghost use Rattle.std.specs.Prelude.{◌≡◌, ◌≤◌, ◌<◌};
ghost use Rattle.modes.specs.EnergyModel.{energy_model, zero_at, decay_at, pair_index};

use laws::wide;

// The list `energy_model`.
const ENERGY_MODEL: [u8; 336] = [
    72, 127, 65, 129, 66, 128, 65, 128, 64, 128, 62, 128, 64, 128, 64, 128, 92, 78, 92, 79, 92, 78,
    90, 79, 116, 41, 115, 40, 114, 40, 132, 26, 132, 26, 145, 17, 161, 12, 176, 10, 177, 11, 24,
    179, 48, 138, 54, 135, 54, 132, 53, 134, 56, 133, 55, 132, 55, 132, 61, 114, 70, 96, 74, 88,
    75, 88, 87, 74, 89, 66, 91, 67, 100, 59, 108, 50, 120, 40, 122, 37, 97, 43, 78, 50, 83, 78, 84,
    81, 88, 75, 86, 74, 87, 71, 90, 73, 93, 74, 93, 74, 109, 40, 114, 36, 117, 34, 117, 34, 143,
    17, 145, 18, 146, 19, 162, 12, 165, 10, 178, 7, 189, 6, 190, 8, 177, 9, 23, 178, 54, 115, 63,
    102, 66, 98, 69, 99, 74, 89, 71, 91, 73, 91, 78, 89, 86, 80, 92, 66, 93, 64, 102, 59, 103, 60,
    104, 60, 117, 52, 123, 44, 138, 35, 133, 31, 97, 38, 77, 45, 61, 90, 93, 60, 105, 42, 107, 41,
    110, 45, 116, 38, 113, 38, 112, 38, 124, 26, 132, 27, 136, 19, 140, 20, 155, 14, 159, 16, 158,
    18, 170, 13, 177, 10, 187, 8, 192, 6, 175, 9, 159, 10, 21, 178, 59, 110, 71, 86, 75, 85, 84,
    83, 91, 66, 88, 73, 87, 72, 92, 75, 98, 72, 105, 58, 107, 54, 115, 52, 114, 55, 112, 56, 129,
    51, 132, 40, 150, 33, 140, 29, 98, 35, 77, 42, 42, 121, 96, 66, 108, 43, 111, 40, 117, 44, 123,
    32, 120, 36, 119, 33, 127, 33, 134, 34, 139, 21, 147, 23, 152, 20, 158, 25, 154, 26, 166, 21,
    173, 16, 184, 13, 184, 10, 150, 13, 139, 15, 22, 178, 63, 114, 74, 82, 84, 83, 92, 82, 103, 62,
    96, 72, 96, 67, 101, 73, 107, 72, 113, 55, 118, 52, 125, 52, 118, 52, 117, 55, 135, 49, 137,
    39, 157, 32, 145, 29, 97, 33, 77, 40,
];

// The whole table, to lend.
pub fn table() -> [u8; 336]
    ensures { result ≡ energy_model }
{
    ENERGY_MODEL
}

// Which pair a band has.
pub fn pair_of(lm: usize, intra: bool, band: usize) -> usize
    requires { (lm < 4) × (band < 21) }
    ensures { (result ≡ pair_index lm intra band) × (result < 168) }
{
    if intra {
        42 * lm + 21 + band
    } else {
        42 * lm + band
    }
}

// The places of zero in pair k, from the table lent.
pub fn zero_in(t: &[u8], k: usize) -> u32
    requires { (t.now ≡ energy_model) × (k < 168) }
    ensures { (result ≡ zero_at k) × (1 ≤ result) × (result ≤ 32736) }
{
    wide(t[2 * k]) * 128
}

// The decay of pair k, from the table lent.
pub fn decay_in(t: &[u8], k: usize) -> u32
    requires { (t.now ≡ energy_model) × (k < 168) }
    ensures { (result ≡ decay_at k) × (result ≤ 16384) }
{
    wide(t[2 * k + 1]) * 64
}
