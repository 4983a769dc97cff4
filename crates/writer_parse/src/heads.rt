// The front of a value.
ghost use Rattle.std.specs.Prelude.{◌+◌};
ghost use Rattle.std.proofs.Math.Seq.{slice};
ghost use Rattle.text.specs.Tokens.{a_string, an_integer};
ghost use Rattle.dictionary.specs.Formats.{form_number};
ghost use Rattle.dictionary.specs.Given.{Row};
ghost use Rattle.writer_tokens.specs.Met.{Spans, Integral};
ghost use Rattle.writer_parse.specs.Met.{Site, LeafMet, OptionSite, AnyMet, HeadMet};

use crate::groups::{fit_at, group_at};
use crate::{Head, Value};
use dictionary::children::child_named;
use dictionary::formats::Format;
use dictionary::rows::{format_of, sequence_number};
use numbers::integer_said;
use paper::{Refusal, Refused};
use payload::Shape;
use writer_tokens::Token;
use writer_tokens::tokens::{skip, token_at};

// A value that its format alone makes right or wrong.
fn leaf_at(
    d: &[u8],
    row: usize,
    f: Format,
    v: Value,
    at: usize,
    next: usize,
) -> Result<Head, Refused>
    requires { Row d.now row }
    ensures { LeafMet d.now row (form_number f) v at next result }
{
    fit_at(d, row, f, at)?;
    Ok(Head::Leaf(v, next))
}

// An option of an enum, by the string from `at` to its quote at q.
fn option_at(d: &[u8], s: &[u8], row: usize, at: usize, q: usize) -> Result<Head, Refused>
    requires { OptionSite d.now s.now row (at + 1) q }
    ensures { AnyMet d.now s.now row (a_string (slice (at + 1) q s.now)) at (q + 1) result }
{
    let child = child_named(d, row, &s[at + 1..q]).ok_or(Refusal::ValueWrong.at(at))?;
    Ok(Head::Leaf(Value::Option(sequence_number(d, child)), q + 1))
}

// "enum options as strings": a string is an option where the row is an enum.
fn string_at(d: &[u8], s: &[u8], row: usize, at: usize, q: usize) -> Result<Head, Refused>
    requires row { Row d.now row }
    requires spans { Spans s.now (at + 1) (q + 1) }
    ensures { AnyMet d.now s.now row (a_string (slice (at + 1) q s.now)) at (q + 1) result }
{
    if format_of(d, row) == Some(Format::Enum) {
        option_at(d, s, row, at, q)
    } else {
        leaf_at(d, row, Format::String, Value::String(at + 1, q), at, q + 1)
    }
}

// "Integers hold what 8 bytes hold; `-0` is 10."
fn integer_at(d: &[u8], s: &[u8], row: usize, at: usize, q: usize) -> Result<Head, Refused>
    requires row { Row d.now row }
    requires integral { Integral s.now at q }
    ensures { AnyMet d.now s.now row (an_integer (slice at q s.now)) at q result }
{
    fit_at(d, row, Format::Integer, at)?;
    let i = integer_said(s, at, q).ok_or(Refusal::ValueWrong.at(at))?;
    Ok(Head::Leaf(Value::Integer(i), q))
}

// The value at p, which belongs to a row. Of the signs, only those that open an object or an array begin a value.
pub fn head_at(d: &[u8], s: &[u8], room: usize, row: usize, p: usize) -> Result<Head, Refused>
    requires { Site d.now s.now row p }
    ensures { HeadMet d.now s.now room row p result }
{
    let at = skip(s, p);
    match token_at(s, at)? {
        Token::Sign(b'{') => group_at(d, s, room, row, Shape::Set, at),
        Token::Sign(b'[') => group_at(d, s, room, row, Shape::Array, at),
        Token::Sign(_) => Err(Refusal::BadText.at(at)),
        Token::String(q) => string_at(d, s, row, at, q),
        Token::Null(q) => leaf_at(d, row, Format::Null, Value::Null, at, q),
        Token::Boolean(b, q) => leaf_at(d, row, Format::Boolean, Value::Boolean(b), at, q),
        Token::Integer(q) => integer_at(d, s, row, at, q),
        Token::Real(_) => Err(Refusal::NotInBase.at(at)),
    }
}
