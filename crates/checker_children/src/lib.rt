// The children's share of the dictionary checker: where a row's children stand, and what each format asks of them.
#![tactic(auto)]

ghost use Rattle.std.specs.Prelude.{◌≡◌, ◌+◌, ◌≤◌, ◌<◌, length};
ghost use Rattle.paper.specs.Tests.{all};
ghost use Rattle.dictionary.specs.Rows.{row_at, row_bytes};
ghost use Rattle.dictionary.specs.Accepts.{childless, block_fine, string_child, set_fine, array_fine, enum_fine, children_fine};
ghost use Rattle.dictionary.specs.Met.{Named};

use checker_members::Rows;
use dictionary::formats::Format;
use dictionary::rows::{
    HEADER_BYTES, ROW_BYTES, ROWS_MOST, child_count, child_offset, first_child, format_of,
    sequence_number,
};

#[tactic(auto, unfolding(dictionary::specs::Accepts::childless))]
fn has_none(d: &[u8], row: usize) -> bool
    requires { row_at row + row_bytes ≤ length d.now }
    ensures { result ≡ childless d.now row }
{
    child_offset(d, row) == 0 && child_count(d, row) == 0
}

#[tactic(auto, unfolding(dictionary::specs::Accepts::block_fine))]
fn block_fine(rows: &Rows, row: usize) -> bool
    requires { row < rows.now.n }
    ensures { result ≡ block_fine rows.now.d.now row }
{
    let d = rows.d;
    let offset = child_offset(d, row);
    has_none(d, row)
        || offset >= HEADER_BYTES
            && (offset - HEADER_BYTES) % ROW_BYTES == 0
            && first_child(d, row) + child_count(d, row) <= rows.n
}

// All children, `count` rows from `first` on, are strings.
fn only_strings(rows: &Rows, first: usize, count: usize) -> bool
    requires { first + count ≤ rows.now.n }
    ensures { result ≡ all count (string_child rows.now.d.now first) }
{
    (0..count).all(|p| format_of(rows.d, first + p) == Some(Format::String))
}

#[tactic(auto, using(dictionary::proofs::Laws::block_inside), unfolding(dictionary::specs::Accepts::set_fine))]
fn set_fine(rows: &mut Rows, row: usize) -> bool
    requires { row < rows.old.n }
    ensures kept { (rows.new.d ≡ rows.old.d) × (rows.new.n ≡ rows.old.n) }
    ensures answer { result ≡ set_fine rows.old.d.now row }
{
    let d = rows.d;
    block_fine(rows, row) && rows.members_fine(first_child(d, row), child_count(d, row))
}

#[tactic(auto, using(dictionary::proofs::Laws::block_inside), unfolding(paper::specs::Tests::all, dictionary::specs::Accepts::array_fine, dictionary::specs::Accepts::in_turn))]
fn array_fine(rows: &Rows, row: usize) -> bool
    requires { row < rows.now.n }
    ensures { result ≡ array_fine rows.now.d.now row }
{
    let d = rows.d;
    block_fine(rows, row)
        && child_count(d, row) == 1
        && sequence_number(d, first_child(d, row)) == 0
}

#[tactic(auto, using(dictionary::proofs::Laws::block_inside), unfolding(dictionary::specs::Accepts::enum_fine))]
fn enum_fine(rows: &mut Rows, row: usize) -> bool
    requires { row < rows.old.n }
    ensures kept { (rows.new.d ≡ rows.old.d) × (rows.new.n ≡ rows.old.n) }
    ensures answer { result ≡ enum_fine rows.old.d.now row }
{
    let first = first_child(rows.d, row);
    let count = child_count(rows.d, row);
    block_fine(rows, row)
        && count >= 1
        && only_strings(rows, first, count)
        && rows.members_fine(first, count)
}

#[tactic(auto, unfolding(dictionary::specs::Accepts::children_fine, dictionary::specs::Accepts::leaf_form))]
fn children_fine(rows: &mut Rows, row: usize) -> bool
    requires { row < rows.old.n }
    ensures kept { (rows.new.d ≡ rows.old.d) × (rows.new.n ≡ rows.old.n) }
    ensures answer { result ≡ children_fine rows.old.d.now row }
{
    match format_of(rows.d, row) {
        Some(Format::Set) => set_fine(rows, row),
        Some(Format::Array) => array_fine(rows, row),
        Some(Format::Enum) => enum_fine(rows, row),
        Some(Format::Integer | Format::String | Format::Boolean) => has_none(rows.d, row),
        _ => true,
    }
}

pub fn families_fine(d: &[u8], n: usize) -> bool
    requires { Named d.now n }
    ensures { result ≡ all n (children_fine d.now) }
{
    let mut rows = Rows {
        d,
        n,
        marks: [0; ROWS_MOST],
    };
    for row in 0..n {
        if !children_fine(&mut rows, row) {
            return false;
        }
    }
    true
}
