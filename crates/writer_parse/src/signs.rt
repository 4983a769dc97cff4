// Signs: commas, colons and brackets.
ghost use Rattle.std.specs.Prelude.{◌≤◌, length};
ghost use Rattle.writer_parse.specs.Met.{DueMet, PartedMet};

use crate::Parted;
use paper::{Refusal, Refused};
use payload::Shape;
use writer_tokens::Token;
use writer_tokens::tokens::{skip, token_at};

// "A token's own grammar and its turn come first (15)": the place after the colon that follows a name.
#[tactic(auto, unfolding(text::specs::Writing::colon_at))]
#[inline(always)]
pub fn colon_at(s: &[u8], from: usize) -> Result<usize, Refused>
    requires { from ≤ length s.now }
    ensures { DueMet s.now from result }
{
    let at = skip(s, from);
    match token_at(s, at)? {
        Token::Sign(b':') => Ok(at + 1),
        _ => Err(Refusal::BadText.at(at)),
    }
}

// What parts a member from the next, or ends the group.
#[tactic(auto, unfolding(text::specs::Writing::parted_at))]
pub fn parted_at(s: &[u8], g: Shape, from: usize) -> Result<Parted, Refused>
    requires { from ≤ length s.now }
    ensures { PartedMet s.now g from result }
{
    let at = skip(s, from);
    match token_at(s, at)? {
        Token::Sign(b',') => Ok(Parted::Comma(at + 1)),
        Token::Sign(c) if c == g.closes() => Ok(Parted::Closed(at + 1)),
        _ => Err(Refusal::BadText.at(at)),
    }
}
