// The names' share of the dictionary checker: "A name is offset 0 with length 0, or at least 2 bytes ..". It comes before `Rows` of
// checker_members, whose names are known to be fine.
#![tactic(auto)]

ghost use Rattle.std.specs.Prelude.{◌≡◌, ◌+◌, ◌≤◌, ◌<◌, length};
ghost use Rattle.paper.specs.Tests.{all};
ghost use Rattle.dictionary.specs.Accepts.{name_byte, name_byte_at, name_fine};
ghost use Rattle.dictionary.specs.Met.{Rowed};

use dictionary::rows::{HEADER_BYTES, ROW_BYTES, name_length, name_offset};

#[tactic(auto, unfolding(dictionary::specs::Accepts::name_byte))]
fn name_byte(b: u8) -> bool
    ensures { result ≡ name_byte b }
{
    matches!(b, 0x20..=0x7E) && b != 0x22 && b != 0x5C
}

// n bytes from `at` on are bytes of names.
fn name_bytes(d: &[u8], at: usize, n: usize) -> bool
    requires { at + n ≤ length d.now }
    ensures { result ≡ all n (name_byte_at d.now at) }
{
    d[at..at + n].iter().all(|&b| name_byte(b))
}

// The name of a row, if it has one, keeps the rule.
#[tactic(auto, unfolding(dictionary::specs::Accepts::name_fine))]
fn name_fine(d: &[u8], n: usize, row: usize) -> bool
    requires rowed { Rowed d.now n }
    requires row_in { row < n }
    ensures { result ≡ name_fine d.now row }
{
    let long = name_length(d, row);
    let at = name_offset(d, row);
    at == 0 && long == 0
        || long >= 2
            && at >= HEADER_BYTES + ROW_BYTES * n
            && at + long <= d.len()
            && d[at + long - 1] == 0
            && name_bytes(d, at, long - 1)
}

// Every row's name keeps the rule.
pub fn names_fine(d: &[u8], n: usize) -> bool
    requires { Rowed d.now n }
    ensures { result ≡ all n (name_fine d.now) }
{
    (0..n).all(|row| name_fine(d, n, row))
}
