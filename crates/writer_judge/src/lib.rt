// The first pass of the writer: judges a text, measures its shortest payload, and keeps the sizes that the second pass needs. What it says stands in crates/text/specs/Writing.
#![tactic(auto)]

pub mod keys;
pub mod measuring;
pub mod roots;
pub mod slots;

// What the first pass says of a value: the place after it, the next free slot, the number of its bytes and of its tuples.
#[derive(Clone, Copy, PartialEq, Eq)]
pub struct Measure {
    pub next: usize,
    pub slot: usize,
    pub long: usize,
    pub tuples: usize,
}

// How far the first pass has come in a group: the place of the next member, the next free slot, and the bytes, tuples and members so far.
#[derive(Clone, Copy, PartialEq, Eq)]
pub struct Tally {
    at: usize,
    slot: usize,
    long: usize,
    tuples: usize,
    members: usize,
}

// After a member: the group's measure, or on to the next member.
#[derive(Clone, Copy, PartialEq, Eq)]
pub enum Step {
    Stop(Measure),
    On(Tally),
}
