// A lent symbol written by its public call.
// Reading and writing are two computations, of which one undoes the other.
ghost use Rattle.std.specs.Prelude.{◌≡◌};
ghost use Rattle.entcode.specs.Said.{said};
ghost use Rattle.entenc.specs.Write.{wr};
ghost use Rattle.trip_call.specs.Given.{symbol_of};
ghost use Rattle.trip_call.specs.Steps.{symbol_wrote, write_step_of, write_symbol};

use super::given;
use super::given::{Counted, Given, Kind};
use entcode::{Coded, Refusal};
use entenc::Writer;

// The answer of a call that writes its value as it is.
fn plain(answer: Result<Writer, Refusal>, count: u32) -> Result<Counted<Writer>, Refusal>
    ensures { said result ≡ symbol_wrote (said answer) count }
{
    let next = answer?;
    Ok(Coded { value: count, next })
}

// A symbol of any kind.
pub fn write_one(
    w: Writer,
    buf: &mut [u8],
    tables: &[u8],
    g: Given,
) -> Result<Counted<Writer>, Refusal>
    ensures { write_step_of (said result) buf.new ≡ write_symbol (symbol_of g tables.now) (wr w buf.old) }
{
    match given::kind_of(g.kind) {
        Kind::Bit => plain(w.bit_logp(buf, g.count, g.first), g.count),
        Kind::Table => {
            let t = given::entries(tables, g.second, g.third);
            plain(w.icdf(buf, g.count, t, g.first), g.count)
        }
        Kind::Uniform => plain(w.uint(buf, g.count, g.first), g.count),
        Kind::Raw => plain(w.bits(buf, g.count, g.first), g.count),
        Kind::Laplace => given::counted(laplace::ec_laplace_encode(
            w,
            buf,
            given::value_at(g.count),
            g.first,
            g.second,
        )),
    }
}
