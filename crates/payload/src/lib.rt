// What reader and writer share of a payload: header, formats, shapes, strings and children. What payloads mean, and what the reader answers, stands in specs/.
#![tactic(auto)]

pub mod children;
pub mod formats;
pub mod headers;
pub mod shapes;
pub mod strings;

// A value that holds tuples.
#[derive(Clone, Copy, PartialEq, Eq)]
pub enum Shape {
    Set,
    Array,
}
