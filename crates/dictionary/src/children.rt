// What the crates above ask of a row in an accepted dictionary: its name, and its children by number and by name.
ghost use Rattle.std.specs.Prelude.{◌≡◌, true, ◌<◌};
ghost use Rattle.dictionary.specs.Rows.{entries, name};
ghost use Rattle.dictionary.specs.Accepts.{accepts};
ghost use Rattle.dictionary.specs.Children.{child_numbered, child_named};
ghost use Rattle.dictionary.specs.Given.{Row, parent};
ghost use Rattle.dictionary.specs.Met.{NameMet};

use crate::rows::{child_count, first_child, name_length, name_offset};

// The row's name as a part of the lent bytes, without its closing 00; nothing where the row has none.
pub fn name_of<'a>(d: &'a [u8], row: usize) -> &'a [u8]
    requires accepted { accepts d.now ≡ true }
    requires row_in { row < entries d.now }
    ensures { result.now ≡ name d.now row }
{
    let long = name_length(d, row);
    if long == 0 {
        return &[];
    }
    let at = name_offset(d, row);
    let end = at + long - 1;
    &d[at..end]
}

// How long the row's name is, without its closing 00.
pub fn name_long(d: &[u8], row: usize) -> usize
    requires { Row d.now row }
    ensures { NameMet d.now row result }
{
    name_length(d, row).saturating_sub(1)
}

// In an accepted dictionary a child stands at the position that its number says.
pub fn child_numbered(d: &[u8], row: usize, number: usize) -> Option<usize>
    requires accepted { accepts d.now ≡ true }
    requires row_in { (row < entries d.now) × (parent d.now row ≡ true) }
    ensures { result ≡ child_numbered d.now row number }
{
    if number < child_count(d, row) {
        Some(first_child(d, row) + number)
    } else {
        None
    }
}

// The first child with that name. A sibling whose name has another length is left before any byte is looked at; any other at
// the first byte that differs. The bytes are compared here and not by the slices' `==`: "When one byte differs it should go on
// with the next sibling at once", and of its form "Outer loop over siblings, inner over name bytes".
pub fn child_named(d: &[u8], row: usize, text: &[u8]) -> Option<usize>
    requires accepted { accepts d.now ≡ true }
    requires row_in { (row < entries d.now) × (parent d.now row ≡ true) }
    ensures { result ≡ child_named d.now row text.now }
{
    let first = first_child(d, row);
    let end = first + child_count(d, row);
    'siblings: for child in first..end {
        let own = name_of(d, child);
        if own.len() != text.len() {
            continue 'siblings;
        }
        for i in 0..text.len() {
            if own[i] != text[i] {
                continue 'siblings;
            }
        }
        return Some(child);
    }
    None
}
