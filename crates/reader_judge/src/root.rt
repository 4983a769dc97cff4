// The root: a tuple behind the header, whose number and format are known.
ghost use Rattle.std.specs.Prelude.{◌≡◌, ◌≤◌, length};
ghost use Rattle.reader_fields.specs.Fields.{extent_found};
ghost use Rattle.reader_judge.specs.Met.{RootMet, RootGround, done_told, tree_verdict};

use crate::group::inside;
use crate::placed;
use dictionary::formats::Format;
use paper::{DEPTH_MOST, Done, PAYLOAD_LEAST, Refusal, Refused};
use reader_fields::{Extent, extent_at, format_at, sequence_at};

// The root's V: "The root is a set, S is 0, row 0."
fn root_value(s: &[u8], budget: usize) -> Result<Extent, Refusal>
    ensures { RootMet s.now budget (extent_found result) }
{
    let end = s.len();
    let sequence = sequence_at(s, PAYLOAD_LEAST, end, budget)?;
    if sequence.number != 0 {
        return Err(Refusal::NotKnown);
    }
    if format_at(s, sequence.next, end)? != Format::Set {
        return Err(Refusal::Misfit);
    }
    extent_at(s, sequence.next + 1, end)
}

// "Nothing follows it."
pub fn root_at(d: &[u8], s: &[u8], budget: usize) -> Result<Done, Refused>
    requires { RootGround d.now s.now }
    ensures { done_told result ≡ tree_verdict d.now s.now budget }
{
    let value = placed(root_value(s, budget), PAYLOAD_LEAST)?;
    let inner = inside(d, s, DEPTH_MOST, 0, PAYLOAD_LEAST, value, budget - 1)?;
    if value.to != s.len() {
        return Err(Refusal::AfterRoot.at(value.to));
    }
    Ok(Done {
        count: budget - inner.left,
        length: inner.long + 2,
    })
}
