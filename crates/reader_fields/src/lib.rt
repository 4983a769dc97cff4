// A tuple's S, F and L: the checks that the root and every other tuple share. A refusal's place is the tuple's start.
#![tactic(auto)]

ghost use Rattle.std.specs.Prelude.{◌≤◌, length};
ghost use Rattle.payload.specs.Checked.{format_checked};
ghost use Rattle.reader_fields.specs.Fields.{sequence_found, extent_found, SequenceMet, FormatMet, ExtentMet};

use dictionary::formats::Format;
use numbers::number_at;
use paper::Refusal;
use payload::formats::supported_format;

// A tuple's sequence number, and where its F stands.
#[derive(Clone, Copy, PartialEq, Eq)]
pub struct Sequence {
    pub number: usize,
    pub next: usize,
}

// Where a tuple's V begins and ends.
#[derive(Clone, Copy, PartialEq, Eq)]
pub struct Extent {
    pub from: usize,
    pub to: usize,
}

// "budget; S; selector".
#[tactic(auto, unfolding(crate::specs::Fields::sequence_at))]
pub fn sequence_at(s: &[u8], at: usize, end: usize, left: usize) -> Result<Sequence, Refusal>
    requires { end ≤ length s.now }
    ensures { SequenceMet s.now at end left (sequence_found result) }
{
    if left == 0 {
        return Err(Refusal::BudgetSpent);
    }
    let n = number_at(s, at, end)?;
    if n.value % 2 != 0 {
        return Err(Refusal::NotInBase);
    }
    Ok(Sequence {
        number: n.value / 2,
        next: at + 1 + n.width,
    })
}

// "deferred bit and format supported".
#[tactic(auto, unfolding(crate::specs::Fields::format_at))]
pub fn format_at(s: &[u8], at: usize, end: usize) -> Result<Format, Refusal>
    requires { end ≤ length s.now }
    ensures { FormatMet s.now at end (format_checked result) }
{
    if end <= at {
        return Err(Refusal::PastEnd);
    }
    supported_format(usize::from(s[at])).ok_or(Refusal::NotInBase)
}

// "L; room in the enclosing value". L can be far more than what is left: it is compared with that, never added first.
#[tactic(auto, unfolding(crate::specs::Fields::extent_at))]
pub fn extent_at(s: &[u8], at: usize, end: usize) -> Result<Extent, Refusal>
    requires { end ≤ length s.now }
    ensures { ExtentMet s.now at end (extent_found result) }
{
    let n = number_at(s, at, end)?;
    let from = at + 1 + n.width;
    if end - from < n.value {
        return Err(Refusal::PastEnd);
    }
    Ok(Extent {
        from,
        to: from + n.value,
    })
}
