// What stands before a member's value, where no name may come twice.
ghost use Rattle.std.specs.Prelude.{◌≤◌};
ghost use Rattle.payload.specs.declared.Shape.TheVariants.{Set};
ghost use Rattle.writer_parse.specs.Met.{Holder};
ghost use Rattle.writer_judge.specs.Met.{FreshMet};

use paper::{Refusal, Refused};
use payload::Shape;
use repeats::Roll;
use writer_parse::Key;
use writer_parse::keys::{key_at, name_at};
use writer_parse::signs::colon_at;
use writer_tokens::tokens::skip;

// "then for a name 6, 7", and then its colon. The child is put on the roll; the second pass, which asks for no repeats, has `key_at` without one.
fn fresh_name_at(d: &[u8], s: &[u8], row: usize, roll: &mut Roll, p: usize) -> Result<Key, Refused>
    requires { Holder d.now s.now row Set p }
    ensures { FreshMet d.now s.now Set row 0 roll.old p result roll.new }
{
    let at = skip(s, p);
    let key = name_at(d, s, row, at)?;
    if roll.given(key.row) {
        return Err(Refusal::GivenTwice.at(at));
    }
    roll.give(key.row);
    let next = colon_at(s, key.next)?;
    Ok(Key { next, ..key })
}

// The i-th member of a group.
pub fn fresh_key_at(
    d: &[u8],
    s: &[u8],
    g: Shape,
    row: usize,
    i: usize,
    roll: &mut Roll,
    p: usize,
) -> Result<Key, Refused>
    requires holder { Holder d.now s.now row g p }
    requires index_in { i ≤ p }
    ensures { FreshMet d.now s.now g row i roll.old p result roll.new }
{
    match g {
        Shape::Array => key_at(d, s, g, row, i, p),
        Shape::Set => fresh_name_at(d, s, row, roll, p),
    }
}
