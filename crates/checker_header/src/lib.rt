// The header's share of the dictionary checker: "length within the table; tag 0; .. row 0 is a set".
#![tactic(auto)]

ghost use Rattle.std.specs.Prelude.{◌≡◌};
ghost use Rattle.dictionary.specs.Accepts.{header_fine};

use dictionary::formats::Format;
use dictionary::rows::{
    HEADER_BYTES, ROW_BYTES, entry_count, format_of, truncated_bit, version_tag, whole_size,
};
use paper::{DICTIONARY_LEAST, DICTIONARY_MOST};

#[tactic(auto, unfolding(dictionary::specs::Accepts::header_fine))]
pub fn header_fine(d: &[u8]) -> bool
    ensures { result ≡ header_fine d.now }
{
    let size = d.len();
    (DICTIONARY_LEAST..=DICTIONARY_MOST).contains(&size)
        && version_tag(d) == 0
        && truncated_bit(d) == 0
        && whole_size(d) == size
        && entry_count(d) >= 1
        && HEADER_BYTES + ROW_BYTES * entry_count(d) <= size
        && format_of(d, 0) == Some(Format::Set)
}
