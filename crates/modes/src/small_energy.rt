// The three-way table of the coarse energies: quant_bands.rs, small_energy_icdf.
ghost use Rattle.std.specs.Prelude.{◌≡◌};
ghost use Rattle.modes.specs.SmallEnergy.{small_energy};

// The list `small_energy`.
const SMALL_ENERGY: [u8; 3] = [2, 1, 0];

// The whole table, to lend to a table read or write.
pub fn table() -> [u8; 3]
    ensures { result ≡ small_energy }
{
    SMALL_ENERGY
}
