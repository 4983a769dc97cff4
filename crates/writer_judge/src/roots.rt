// The root: its token, and the first pass over a whole text.
ghost use Rattle.writer_parse.specs.Met.{Site};
ghost use Rattle.writer_judge.specs.Met.{measured, RootFor, RootMet, JudgeMet};

use crate::Measure;
use crate::measuring::measure;
use paper::{DEPTH_MOST, Refusal, Refused};
use payload::Shape;
use writer_tokens::Token;
use writer_tokens::tokens::{skip, token_at};

// "RFC 8259 text whose root is an object": any value is in turn there, and "root no set" is 9.
fn root_at(d: &[u8], s: &[u8]) -> Result<(), Refused>
    requires { Site d.now s.now 0 0 }
    ensures { RootMet d.now s.now result }
{
    let at = skip(s, 0);
    match token_at(s, at)? {
        Token::Sign(c) => root_sign(c, at),
        Token::Real(_) => Err(Refusal::NotInBase.at(at)),
        _ => Err(Refusal::Misfit.at(at)),
    }
}

fn root_sign(c: u8, at: usize) -> Result<(), Refused>
    ensures { RootFor c at result }
{
    if c == Shape::Set.opens() {
        Ok(())
    } else if c == Shape::Array.opens() {
        Err(Refusal::Misfit.at(at))
    } else {
        Err(Refusal::BadText.at(at))
    }
}

// The first pass over a whole text, and what stands after the root.
pub fn judge(d: &[u8], s: &[u8], slots: &mut [u16]) -> Result<Measure, Refused>
    requires { Site d.now s.now 0 0 }
    ensures { JudgeMet d.now s.now slots.old (measured result) slots.new }
{
    root_at(d, s)?;
    let root = measure(d, s, DEPTH_MOST, 0, 0, 0, slots, 0)?;
    let end = skip(s, root.next);
    if end < s.len() {
        return Err(Refusal::AfterRoot.at(end));
    }
    Ok(root)
}
