// The tokens of a text, each at its place. What they mean stands in crates/text/specs and in specs/.
#![tactic(auto)]

pub mod bytes;
pub mod numerals;
pub mod tokens;

// A token, by the place after it; a string by the place of its last quote.
#[derive(Clone, Copy, PartialEq, Eq)]
pub enum Token {
    Sign(u8),
    String(usize),
    Null(usize),
    Boolean(bool, usize),
    Integer(usize),
    Real(usize),
}
