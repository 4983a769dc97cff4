// The value of a set or array.
ghost use Rattle.reader_members.specs.Met.{Site};
ghost use Rattle.reader_judge.specs.Met.{inner_told, InsideMet};

use crate::placed;
use numbers::number_at;
use paper::{Refusal, Refused};
use reader_fields::Extent;
use reader_members::member::{Body, member_at};
use repeats::Roll;

// What is let through: the budget left, and the length of the text between the brackets.
#[derive(Clone, Copy, PartialEq, Eq)]
pub struct Inner {
    pub left: usize,
    pub long: usize,
}

// The value of the set or array whose tuple begins at `at`: a count and the tuples, which fill it.
pub fn inside(
    d: &[u8],
    s: &[u8],
    room: usize,
    row: usize,
    at: usize,
    value: Extent,
    budget: usize,
) -> Result<Inner, Refused>
    requires { Site d.now s.now row value.to }
    ensures { InsideMet d.now s.now room row at value.from value.to budget (inner_told result) }
{
    if room == 0 {
        return Err(Refusal::TooDeep.at(at));
    }
    let count = placed(number_at(s, value.from, value.to), at)?;
    let mut roll = Roll::new();
    let mut pos = value.from + 1 + count.width;
    let mut left = budget;
    let mut long = 0;
    for i in 0..count.value {
        let member = placed(member_at(d, s, row, i, &mut roll, pos, value.to, left), pos)?;
        match member.body {
            Body::Plain { next, long: word } => {
                pos = next;
                left -= 1;
                long += member.front + word;
            }
            Body::Group(part) => {
                let inner = inside(d, s, room - 1, member.row, pos, part, left - 1)?;
                pos = part.to;
                left = inner.left;
                long += member.front + 2 + inner.long;
            }
        }
    }
    if pos != value.to {
        return Err(Refusal::ValueWrong.at(at));
    }
    Ok(Inner { left, long })
}
