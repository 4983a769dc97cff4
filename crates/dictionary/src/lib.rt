// The dictionary: its rows, and what the crates above ask of an accepted one. What the functions mean stands in specs/.
#![tactic(auto)]

pub mod children;
pub mod formats;
pub mod rows;
