// The dictionary checker: exactly document 01's rules, for any bytes. The rules stand in the crate dictionary, specs/Accepts.
#![tactic(auto)]

ghost use Rattle.std.specs.Prelude.{◌≡◌};
ghost use Rattle.dictionary.specs.Accepts.{accepts};

use checker_children::families_fine;
use checker_header::header_fine;
use checker_names::names_fine;
use dictionary::rows::entry_count;

// Whether any bytes at all are a dictionary that document 01 accepts.
#[tactic(auto, using(crate::proofs::Accepted::acceptance))]
pub fn accepts(d: &[u8]) -> bool
    ensures { result ≡ accepts d.now }
{
    header_fine(d) && names_fine(d, entry_count(d)) && families_fine(d, entry_count(d))
}
