// The functions that C and Rust link. Numbers and slices only: a slice is a pointer and a length.
#![tactic(auto, using(crate::proofs::Telling::handed, crate::proofs::Telling::handed_lent, crate::proofs::Telling::handed_store, crate::proofs::Telling::handed_row))]

mod codec;
mod operations;

ghost use Rattle.std.specs.Prelude.{◌≡◌};
ghost use Rattle.desk.specs.Calls.{said};
ghost use Rattle.exports.specs.Exported.{checked, version};

use paper::Refusal;

const VERSION: u32 = 512;

// "Acceptance is number 0."
const ACCEPTED: u32 = 0;

// The number that a caller in C is answered.
fn code(answer: Result<(), Refusal>) -> u32
    ensures { result ≡ said answer }
{
    match answer {
        Ok(()) => ACCEPTED,
        Err(k) => u32::from(k.number()),
    }
}

// The version that include/broachvale.h names.
#[unsafe(no_mangle)]
pub extern "C" fn broachvale_version() -> u32
    ensures { result ≡ version }
{
    VERSION
}

// "1: dictionary not accepted (tested first)": as every other entry, 0 where all is right.
#[unsafe(no_mangle)]
pub extern "C" fn broachvale_dictionary_check(d: &[u8]) -> u32
    ensures { result ≡ checked d.now }
{
    if !checker::accepts(d) {
        return code(Err(Refusal::DictionaryWrong));
    }
    code(Ok(()))
}
