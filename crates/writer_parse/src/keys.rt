// What stands before a member's value: a name and a colon in a set, nothing in an array. Of repeats it says nothing.
ghost use Rattle.std.specs.Prelude.{[], ◌+◌, ◌≤◌};
ghost use Rattle.std.proofs.Math.Seq.{slice};
ghost use Rattle.payload.specs.declared.Shape.TheVariants.{Set};
ghost use Rattle.text.specs.Tokens.{a_string};
ghost use Rattle.text.specs.Writing.{name_for, name_at, key_at};
ghost use Rattle.writer_tokens.specs.Met.{Spans};
ghost use Rattle.writer_parse.specs.Met.{Holder, KeyMet};

use crate::Key;
use crate::signs::colon_at;
use dictionary::children::child_named;
use dictionary::rows::{first_child, sequence_number};
use paper::{Refusal, Refused};
use payload::Shape;
use writer_tokens::Token;
use writer_tokens::tokens::{skip, token_at};

// The child whose name is the string from `at` to its quote at q.
fn child_at(d: &[u8], s: &[u8], row: usize, at: usize, q: usize) -> Result<Key, Refused>
    requires holder { Holder d.now s.now row Set at }
    requires spans { Spans s.now (at + 1) (q + 1) }
    ensures { KeyMet d.now s.now row at (name_for d.now s.now (a_string (slice (at + 1) q s.now)) row at (q + 1)) result }
{
    let child = child_named(d, row, &s[at + 1..q]).ok_or(Refusal::NotKnown.at(at))?;
    Ok(Key {
        next: q + 1,
        number: sequence_number(d, child),
        row: child,
    })
}

// "then for a name 6"
pub fn name_at(d: &[u8], s: &[u8], row: usize, at: usize) -> Result<Key, Refused>
    requires { Holder d.now s.now row Set at }
    ensures { KeyMet d.now s.now row at (name_at d.now s.now row at) result }
{
    match token_at(s, at)? {
        Token::String(q) => child_at(d, s, row, at, q),
        _ => Err(Refusal::BadText.at(at)),
    }
}

fn named_at(d: &[u8], s: &[u8], row: usize, p: usize) -> Result<Key, Refused>
    requires { Holder d.now s.now row Set p }
    ensures { KeyMet d.now s.now row p (key_at d.now s.now Set row 0 [] p) result }
{
    let key = name_at(d, s, row, skip(s, p))?;
    let next = colon_at(s, key.next)?;
    Ok(Key { next, ..key })
}

// The i-th member of a group.
pub fn key_at(d: &[u8], s: &[u8], g: Shape, row: usize, i: usize, p: usize) -> Result<Key, Refused>
    requires holder { Holder d.now s.now row g p }
    requires index_in { i ≤ p }
    ensures { KeyMet d.now s.now row p (key_at d.now s.now g row i [] p) result }
{
    match g {
        Shape::Array => Ok(Key {
            next: p,
            number: i,
            row: first_child(d, row),
        }),
        Shape::Set => named_at(d, s, row, p),
    }
}
