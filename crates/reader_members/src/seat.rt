// A tuple's child.
ghost use Rattle.std.specs.Prelude.{◌≡◌};
ghost use Rattle.dictionary.specs.Given.{Row};
ghost use Rattle.payload.specs.Checked.{checked};
ghost use Rattle.payload.specs.Fits.{GroupRow, is_set};
ghost use Rattle.reader_members.specs.Met.{SeatMet};

use dictionary::children::child_numbered;
use dictionary::formats::Format;
use dictionary::rows::format_of;
use paper::Refusal;
use payload::children::child_of;
use repeats::Roll;

pub(crate) fn is_set(d: &[u8], row: usize) -> bool
    requires { Row d.now row }
    ensures { result ≡ is_set d.now row }
{
    format_of(d, row) == Some(Format::Set)
}

// "sequence known; repeat": the child's row. A child that is taken is put on the roll.
pub fn seat_at(d: &[u8], row: usize, i: usize, n: usize, roll: &mut Roll) -> Result<usize, Refusal>
    requires { GroupRow d.now row }
    ensures { SeatMet d.now row i n roll.old (checked result) roll.new }
{
    if is_set(d, row) {
        let Some(child) = child_numbered(d, row, n) else {
            return Err(Refusal::NotKnown);
        };
        if roll.given(child) {
            return Err(Refusal::GivenTwice);
        }
        roll.give(child);
        Ok(child)
    } else if n == i {
        Ok(child_of(d, row, n))
    } else {
        Err(Refusal::NotKnown)
    }
}
