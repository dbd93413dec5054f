// A stream's record as lent lists: 42 energies, and its next frame number.
// Reading and writing are two computations, of which one undoes the other.
ghost use Rattle.std.specs.Prelude.{◌≡◌, length};
ghost use Rattle.gurthapen_state.specs.Record.{record_of, lists_of};

use stream::Record;

// The energies of one list in another of its length. `copy_from_slice` of floats calls `memmove`, which the archive for C does not need from outside.
fn copy(from: &[f32], to: &mut [f32])
    requires { length to.old ≡ length from.now }
    ensures { to.new ≡ from.now }
{
    for (i, v) in to.iter_mut().enumerate() {
        *v = from[i];
    }
}

// The record of 42 energies and a next number.
pub fn load_record(energies: &[f32], next: u64) -> Record
    requires { length energies.now ≡ 42 }
    ensures { result ≡ record_of energies.now next }
{
    let fresh = Record::fresh();
    let mut e = fresh.energies;
    copy(energies, &mut e);
    Record { energies: e, next }
}

// A record into its two lists.
pub fn store_record(energies: &mut [f32], next: &mut [u64], rec: Record)
    requires { (length energies.old ≡ 42) × (length next.old ≡ 1) }
    ensures { (energies.new, next.new) ≡ lists_of rec }
{
    copy(&rec.energies, energies);
    next[0] = rec.next;
}
