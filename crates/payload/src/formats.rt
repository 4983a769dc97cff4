// Which formats there are, and which rows they fit.
ghost use Rattle.std.specs.Prelude.{◌≡◌};
ghost use Rattle.dictionary.specs.Given.{Row};
ghost use Rattle.payload.specs.Tree.{boolean_byte};
ghost use Rattle.payload.specs.Fits.{fits};
ghost use Rattle.payload.specs.Reading.{supported_format};

use dictionary::formats::Format;
use dictionary::rows::{format_nibble, takes_null};

// "deferred bit and format supported": the format of a whole format byte.
#[tactic(auto, unfolding(crate::specs::Reading::supported))]
pub fn supported_format(form: usize) -> Option<Format>
    ensures { result ≡ supported_format form }
{
    if form % 2 != 0 {
        return None;
    }
    Format::numbered(form / 16).filter(|f| *f != Format::Real)
}

// "Null .. fits any row with the nullable bit, and no other. Any other format fits rows of its own only."
// It keeps its promise for every number f, also where no format has it (`fits` of specs/Fits).
#[tactic(auto, using(crate::proofs::Leaves::fittings))]
pub fn fits(d: &[u8], row: usize, f: usize) -> bool
    requires { Row d.now row }
    ensures { result ≡ fits d.now row f }
{
    if f == Format::Null as usize {
        takes_null(d, row)
    } else {
        f == format_nibble(d, row)
    }
}

// "Boolean: 00 or FF (house)."
pub fn boolean_byte(b: bool) -> u8
    ensures { result ≡ boolean_byte b }
{
    if b { 0xFF } else { 0x00 }
}
