// What the programs share: lines of a reader, their fields, hex and decimal, and output that is gathered for a writer. What fields, hex and
// decimal mean stands in specs/; no contract can say what standard input gives and standard output takes. An error is the reader's or the
// writer's own: the buffers then keep their lengths, and a program ends with it.
#![tactic(auto)]

mod cases;
mod digits;
mod fields;
mod gathered;
mod lines;

pub use cases::{Case, read_case};
pub use digits::{number, number_part, unhex, unhex_part};
pub use fields::{part, separators};
pub use gathered::Gathered;
pub use lines::{Line, Lines, read_full};

pub const TAB: u8 = b'\t';

pub const SPACE: u8 = b' ';

// A number of a line has at most 32 bits.
pub const DECIMAL_MOST: u64 = 4294967295;

// What a line of at most 65,535 bytes says in hex has no more than half of them.
pub const HEX_ROOM: usize = 32768;

// The most room that a line may ask for.
pub const PAYLOAD_ROOM: usize = 65536;

// Room for input and for output that is gathered: one byte more than a line may have.
pub const BUFFER_ROOM: usize = 65536;
