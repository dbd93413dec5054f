// From i32, as a call is handed it, to a place.
ghost use Rattle.std.specs.Prelude.{◌≡◌};
ghost use Rattle.laws.specs.Signs.{clip};

// A number as a place: a negative one reads as 0.
pub fn place_of(z: i32) -> usize
    ensures { result ≡ clip z }
{
    laws::clipped(z) as usize
}
