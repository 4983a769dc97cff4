// Whether a format fits a row, and the front of an object or an array.
ghost use Rattle.std.specs.Prelude.{◌≡◌, ◌+◌};
ghost use Rattle.dictionary.specs.Formats.{form_number};
ghost use Rattle.dictionary.specs.Given.{Row};
ghost use Rattle.payload.specs.Text.{opens};
ghost use Rattle.text.specs.Tokens.{a_sign};
ghost use Rattle.text.specs.Values.{in_base, misfit_for};
ghost use Rattle.writer_parse.specs.Met.{Site, misfit_said, FitMet, ForMet};

use crate::{Head, Value};
use dictionary::formats::Format;
use dictionary::rows::format_of;
use paper::{Refusal, Refused};
use payload::Shape;
use payload::formats::fits;
use writer_tokens::Token;
use writer_tokens::tokens::{skip, token_at};

#[tactic(auto, unfolding(text::specs::Values::in_base, payload::specs::Reading::supported))]
fn in_base(d: &[u8], row: usize) -> bool
    requires { Row d.now row }
    ensures { result ≡ in_base d.now row }
{
    matches!(format_of(d, row), Some(f) if f != Format::Real)
}

// "fraction or exponent 8, row of a format not in the base and value not null 8, fit 9": of every number f, as `fits` is.
#[tactic(auto, unfolding(text::specs::Values::misfit_for))]
pub fn misfit(d: &[u8], row: usize, f: usize) -> Result<(), Refusal>
    requires { Row d.now row }
    ensures { misfit_for d.now row f ≡ misfit_said result }
{
    if f == Format::Real as usize || f != Format::Null as usize && !in_base(d, row) {
        Err(Refusal::NotInBase)
    } else if fits(d, row, f) {
        Ok(())
    } else {
        Err(Refusal::Misfit)
    }
}

pub fn fit_at(d: &[u8], row: usize, f: Format, at: usize) -> Result<(), Refused>
    requires { Row d.now row }
    ensures { FitMet d.now row (form_number f) at result }
{
    misfit(d, row, f.number()).map_err(|k| k.at(at))
}

// An object or array whose first bracket stands at `at`.
#[inline(always)]
pub fn group_at(
    d: &[u8],
    s: &[u8],
    room: usize,
    row: usize,
    g: Shape,
    at: usize,
) -> Result<Head, Refused>
    requires { Site d.now s.now row (at + 1) }
    ensures { ForMet d.now s.now room row (a_sign (opens g)) at (at + 1) result }
{
    fit_at(d, row, g.format(), at)?;
    if room == 0 {
        return Err(Refusal::TooDeep.at(at));
    }
    let first = skip(s, at + 1);
    match token_at(s, first)? {
        Token::Sign(c) if c == g.closes() => Ok(Head::Leaf(Value::Empty(g), first + 1)),
        _ => Ok(Head::Many(g, first)),
    }
}
