// The first pass: judges a payload in the paper's order of checks, and measures its text. Nothing is written. What it answers stands in the crate payload, specs/Reading.
#![tactic(auto)]

pub mod group;
pub mod root;

ghost use Rattle.std.specs.Prelude.{◌≡◌};
ghost use Rattle.reader_judge.specs.Met.{placed, done_told, verdict_of};

use crate::root::root_at;
use checker::accepts;
use paper::{Done, PAYLOAD_LEAST, PAYLOAD_MOST, Refusal, Refused};
use payload::headers::header_agrees;

// A refusal is given at the start of the tuple whose check it failed.
pub(crate) fn placed<T>(checked: Result<T, Refusal>, place: usize) -> Result<T, Refused>
    ensures { result ≡ placed checked place }
{
    checked.map_err(|k| k.at(place))
}

// What any dictionary and payload at all come to, before the room for the text is looked at.
#[tactic(auto, unfolding(crate::specs::Met::verdict_of))]
pub fn judged(d: &[u8], s: &[u8], budget: usize) -> Result<Done, Refused>
    ensures { done_told result ≡ verdict_of d.now s.now budget }
{
    if !accepts(d) {
        return Err(Refusal::DictionaryWrong.at(0));
    }
    if s.len() < PAYLOAD_LEAST || PAYLOAD_MOST < s.len() {
        return Err(Refusal::LengthWrong.at(0));
    }
    if !header_agrees(s) {
        return Err(Refusal::HeaderDiffers.at(0));
    }
    root_at(d, s, budget)
}
