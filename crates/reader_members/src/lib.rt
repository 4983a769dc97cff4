// One tuple in the value of a set or array, in the order of its checks, and the length of its text. The first pass calls it for each. Dictionary, payload,
// row and end go together, and each is another thing at the next tuple.
#![tactic(auto)]

pub mod member;
pub mod seat;
