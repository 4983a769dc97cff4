// A dictionary's fields, read where specs/Rows says that they stand.
ghost use Rattle.std.specs.Prelude.{◌≡◌, ◌+◌, ◌*◌, ◌≤◌, ◌<◌, length};
ghost use Rattle.numbers.specs.Bytes.{short, long};
ghost use Rattle.dictionary.specs.Rows.{row_at, row_bytes, header_bytes, tag, truncated, entries, whole_size, kind, nullable, number_in, child_offset, child_count, first_child, name_length, name_offset};
ghost use Rattle.dictionary.specs.Formats.{form_named};
ghost use Rattle.dictionary.specs.Met.{Field};

use crate::formats::Format;
use paper::DICTIONARY_MOST;

// A row is its number, beside the bytes that it is a row of, here and above: with the bytes in it, each contract that hands out a child
// would have to say that its bytes are its parent's.
pub const HEADER_BYTES: usize = 12;

pub const ROW_BYTES: usize = 10;

// The most rows that a dictionary of the most bytes has room for.
pub const ROWS_MOST: usize = (DICTIONARY_MOST - HEADER_BYTES) / ROW_BYTES;

#[tactic(auto, unfolding(numbers::specs::Bytes::short))]
fn short_at(d: &[u8], at: usize) -> usize
    requires { at + 2 ≤ length d.now }
    ensures { Field (short d.now at) 65536 result }
{
    u16::from_le_bytes([d[at], d[at + 1]]).into()
}

#[tactic(auto, unfolding(numbers::specs::Bytes::short, numbers::specs::Bytes::long))]
fn long_at(d: &[u8], at: usize) -> usize
    requires { at + 4 ≤ length d.now }
    ensures { result ≡ long d.now at }
{
    u32::from_le_bytes([d[at], d[at + 1], d[at + 2], d[at + 3]]) as usize
}

pub fn version_tag(d: &[u8]) -> usize
    requires { header_bytes ≤ length d.now }
    ensures { result ≡ tag d.now }
{
    d[0].into()
}

pub fn truncated_bit(d: &[u8]) -> usize
    requires { header_bytes ≤ length d.now }
    ensures { result ≡ truncated d.now }
{
    (d[1] % 2).into()
}

pub fn entry_count(d: &[u8]) -> usize
    requires { header_bytes ≤ length d.now }
    ensures { Field (entries d.now) 65536 result }
{
    short_at(d, 2)
}

pub fn whole_size(d: &[u8]) -> usize
    requires { header_bytes ≤ length d.now }
    ensures { result ≡ whole_size d.now }
{
    long_at(d, 8)
}

pub fn format_nibble(d: &[u8], row: usize) -> usize
    requires { row_at row + row_bytes ≤ length d.now }
    ensures { Field (kind d.now row) 16 result }
{
    usize::from(d[HEADER_BYTES + ROW_BYTES * row]) / 16
}

// What is given to no format by the table has none.
pub fn format_of(d: &[u8], row: usize) -> Option<Format>
    requires { row_at row + row_bytes ≤ length d.now }
    ensures { result ≡ form_named (kind d.now row) }
{
    Format::numbered(format_nibble(d, row))
}

pub fn takes_null(d: &[u8], row: usize) -> bool
    requires { row_at row + row_bytes ≤ length d.now }
    ensures { result ≡ nullable d.now row }
{
    d[HEADER_BYTES + ROW_BYTES * row] / 4 % 2 == 1
}

pub fn sequence_number(d: &[u8], row: usize) -> usize
    requires { row_at row + row_bytes ≤ length d.now }
    ensures { Field (number_in d.now row) 65536 result }
{
    short_at(d, HEADER_BYTES + ROW_BYTES * row + 1)
}

pub fn child_offset(d: &[u8], row: usize) -> usize
    requires { row_at row + row_bytes ≤ length d.now }
    ensures { Field (child_offset d.now row) 65536 result }
{
    short_at(d, HEADER_BYTES + ROW_BYTES * row + 3)
}

pub fn child_count(d: &[u8], row: usize) -> usize
    requires { row_at row + row_bytes ≤ length d.now }
    ensures { Field (child_count d.now row) 65536 result }
{
    short_at(d, HEADER_BYTES + ROW_BYTES * row + 5)
}

pub fn name_length(d: &[u8], row: usize) -> usize
    requires { row_at row + row_bytes ≤ length d.now }
    ensures { Field (name_length d.now row) 256 result }
{
    usize::from(d[HEADER_BYTES + ROW_BYTES * row + 7])
}

pub fn name_offset(d: &[u8], row: usize) -> usize
    requires { row_at row + row_bytes ≤ length d.now }
    ensures { Field (name_offset d.now row) 65536 result }
{
    short_at(d, HEADER_BYTES + ROW_BYTES * row + 8)
}

pub fn first_child(d: &[u8], row: usize) -> usize
    requires { row_at row + row_bytes ≤ length d.now }
    ensures { Field (first_child d.now row) 65536 result }
{
    child_offset(d, row).saturating_sub(HEADER_BYTES) / ROW_BYTES
}
