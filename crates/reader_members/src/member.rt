// A tuple in the value of a set or array: its fields, its child and a scalar's value.
ghost use Rattle.std.specs.Prelude.{◌≡◌, ◌≤◌, length};
ghost use Rattle.dictionary.specs.Given.{Row};
ghost use Rattle.payload.specs.Text.{comma_at};
ghost use Rattle.reader_members.specs.Met.{Site, FrontMet, BodyMet, MemberMet};

use crate::seat::{is_set, seat_at};
use dictionary::children::name_long;
use dictionary::formats::Format;
use paper::Refusal;
use payload::formats::fits;
use reader_fields::{Extent, extent_at, format_at, sequence_at};
use reader_values::word_at;
use repeats::Roll;

// A tuple from its F on: a scalar, with its end and the length of its text; or where the value of a set or array stands.
#[derive(Clone, Copy, PartialEq, Eq)]
pub enum Body {
    Plain { next: usize, long: usize },
    Group(Extent),
}

// A tuple: its row, the length of what stands before its value's text, and what it holds.
#[derive(Clone, Copy, PartialEq, Eq)]
pub struct Member {
    pub row: usize,
    pub front: usize,
    pub body: Body,
}

fn comma_long(i: usize) -> usize
    ensures { result ≡ length (comma_at i) }
{
    if 0 < i { 1 } else { 0 }
}

// What stands before a member's value: a comma, and in a set its name in quotes and a colon.
fn front_long(d: &[u8], row: usize, i: usize, c: usize) -> usize
    requires row { Row d.now row }
    requires child { Row d.now c }
    ensures { FrontMet d.now row i c result }
{
    if is_set(d, row) {
        comma_long(i) + name_long(d, c) + 3
    } else {
        comma_long(i)
    }
}

// "deferred bit and format supported; format fits the row; L; room in the enclosing value", and a scalar's value.
fn body_at(d: &[u8], s: &[u8], row: usize, at: usize, end: usize) -> Result<Body, Refusal>
    requires row { Row d.now row }
    requires inside { end ≤ length s.now }
    ensures { BodyMet d.now s.now row at end result }
{
    let format = format_at(s, at, end)?;
    if !fits(d, row, format.number()) {
        return Err(Refusal::Misfit);
    }
    let value = extent_at(s, at + 1, end)?;
    match format {
        Format::Set | Format::Array => Ok(Body::Group(value)),
        _ => {
            let long = word_at(d, row, format, &s[value.from..value.to])?;
            Ok(Body::Plain {
                next: value.to,
                long,
            })
        }
    }
}

// The tuple at `at`, the i-th in the value of the row.
pub fn member_at(
    d: &[u8],
    s: &[u8],
    row: usize,
    i: usize,
    roll: &mut Roll,
    at: usize,
    end: usize,
    left: usize,
) -> Result<Member, Refusal>
    requires { Site d.now s.now row end }
    ensures { MemberMet d.now s.now row i roll.old at end left result roll.new }
{
    let sequence = sequence_at(s, at, end, left)?;
    let child = seat_at(d, row, i, sequence.number, roll)?;
    let body = body_at(d, s, child, sequence.next, end)?;
    Ok(Member {
        row: child,
        front: front_long(d, row, i, child),
        body,
    })
}
