// A symbol of a lent kind read by its public call.
// Reading and writing are two computations, of which one undoes the other.
ghost use Rattle.std.specs.Prelude.{◌≡◌};
ghost use Rattle.entcode.specs.Said.{said};
ghost use Rattle.trip_call.specs.Given.{symbol_of};
ghost use Rattle.trip_call.specs.Steps.{read_symbol, read_step_of};

use super::given;
use super::given::{Counted, Given, Kind};
use entcode::Refusal;
use entdec::Reader;

// A symbol of any kind.
pub fn read_one(d: Reader, s: &[u8], tables: &[u8], g: Given) -> Result<Counted<Reader>, Refusal>
    ensures { read_step_of (said result) ≡ read_symbol (symbol_of g tables.now) s.now d }
{
    match given::kind_of(g.kind) {
        Kind::Bit => d.bit_logp(s, g.first),
        Kind::Table => d.icdf(s, given::entries(tables, g.second, g.third), g.first),
        Kind::Uniform => d.uint(s, g.first),
        Kind::Raw => d.bits(s, g.first),
        Kind::Laplace => given::counted(laplace::ec_laplace_decode(d, s, g.first, g.second)),
    }
}
