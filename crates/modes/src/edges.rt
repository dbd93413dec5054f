// The edges of the bands: modes.rs, eband5ms.
ghost use Rattle.std.specs.Prelude.{◌≡◌, ◌≤◌, ◌<◌};
ghost use Rattle.modes.specs.Edges.{edge, width};

use laws::wide;

// The list `edges`.
const EDGES: [u8; 22] = [
    0, 1, 2, 3, 4, 5, 6, 7, 8, 10, 12, 14, 16, 20, 24, 28, 34, 40, 48, 60, 78, 100,
];

// Where band j begins at LM 0; edge 21 is the end of the last band.
pub fn edge_of(j: usize) -> u32
    requires { j < 22 }
    ensures { (result ≡ edge j) × (result ≤ 100) }
{
    wide(EDGES[j])
}

// How many coefficients band j has at LM 0.
pub fn width_of(j: usize) -> u32
    requires { j < 21 }
    ensures { (result ≡ width j) × (1 ≤ result) × (result ≤ 22) }
{
    edge_of(j + 1) - edge_of(j)
}
