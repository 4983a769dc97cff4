// Which row the tuples of a row's value have.
ghost use Rattle.std.specs.Prelude.{◌≡◌};
ghost use Rattle.payload.specs.Fits.{GroupRow, child};

use dictionary::children::child_numbered;
use dictionary::formats::Format;
use dictionary::rows::{first_child, format_of};

// A set knows its children by number; "An array's tuples carry their index from 0; all use the one child."
#[tactic(auto, using(crate::proofs::Leaves::childs))]
pub fn child_of(d: &[u8], row: usize, number: usize) -> usize
    requires { GroupRow d.now row }
    ensures { result ≡ child d.now row number }
{
    if format_of(d, row) == Some(Format::Set) {
        child_numbered(d, row, number).unwrap_or(0)
    } else {
        first_child(d, row)
    }
}
