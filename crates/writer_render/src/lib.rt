// The second pass of the writer: writes what the first has taken, as the shortest BEJ.
#![tactic(auto)]

pub mod rendering;
pub mod tuples;

// Where the second pass is: in the text and in the slots.
#[derive(Clone, Copy, PartialEq, Eq)]
pub struct Place {
    pub at: usize,
    pub slot: usize,
}
