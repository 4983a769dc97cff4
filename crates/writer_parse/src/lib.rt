// What stands in a text where a value, a name or a sign is due, judged in the paper's order. What it means stands in crates/text/specs and in specs/.
// Dictionary and text stay the slices that a caller lends, beside the row and the place: a struct of the two would stand in each contract with
// both its parts (`d.now`, `s.now`), for the definitions speak of them apart. Places are in the whole text, since a refusal tells one.
#![tactic(auto)]

pub mod groups;
pub mod heads;
pub mod keys;
pub mod signs;

use numbers::Integer;
use payload::Shape;

// A value that needs no members to be read: a scalar, or an object or array that has none. A string stands from its first byte to its last quote:
// with its bytes in it, a value would be no number alone, and each definition over values (`Leaves`) would have to carry the text.
#[derive(Clone, Copy, PartialEq, Eq)]
pub enum Value {
    Null,
    Boolean(bool),
    Integer(Integer),
    Option(usize),
    String(usize, usize),
    Empty(Shape),
}

// The front of a value: all of it, with the place after it; or a group with members, with the place of the first.
#[derive(Clone, Copy, PartialEq, Eq)]
pub enum Head {
    Leaf(Value, usize),
    Many(Shape, usize),
}

// After a member: a comma, or the bracket that closes the group, with the place after it.
#[derive(Clone, Copy, PartialEq, Eq)]
pub enum Parted {
    Comma(usize),
    Closed(usize),
}

// What stands before a member's value: the place after it, the member's number and its row.
#[derive(Clone, Copy, PartialEq, Eq)]
pub struct Key {
    pub next: usize,
    pub number: usize,
    pub row: usize,
}
