// A scalar's value: judged, and measured. What is let through is the length of its text.
#![tactic(auto)]

ghost use Rattle.std.specs.Prelude.{◌≡◌, true, length};
ghost use Rattle.numbers.specs.Integer.{sign_repeated};
ghost use Rattle.dictionary.specs.Formats.{enum_form, form_number};
ghost use Rattle.dictionary.specs.Rows.{kind};
ghost use Rattle.dictionary.specs.Given.{Row};
ghost use Rattle.payload.specs.Checked.{checked};
ghost use Rattle.payload.specs.Fits.{fits};
ghost use Rattle.payload.specs.Values.{integer_value, option_value, string_value, boolean_value, scalar_value};
ghost use Rattle.reader_values.specs.Words.{WordMet, AnyWordMet};

use dictionary::children::{child_numbered, name_long};
use dictionary::formats::Format;
use numbers::{decimal_length, integer_at, number_at};
use paper::{INTEGER_LEAST, INTEGER_MOST, Refusal};
use payload::strings::well_spelt;

// Request 6: "any integer of two or more bytes whose top byte only repeats the sign".
#[tactic(auto, unfolding(numbers::specs::Integer::sign_repeated))]
fn sign_repeated(v: &[u8]) -> bool
    ensures { result ≡ sign_repeated v.now }
{
    match v {
        [.., next, 0x00] => *next < 0x80,
        [.., next, 0xFF] => *next >= 0x80,
        _ => false,
    }
}

#[tactic(auto, unfolding(payload::specs::Values::integer_value, numbers::specs::Integer::is_integer))]
fn integer_word(v: &[u8]) -> Result<usize, Refusal>
    ensures { AnyWordMet (length v.now) (integer_value v.now) (checked result) }
{
    if v.len() < INTEGER_LEAST || INTEGER_MOST < v.len() || sign_repeated(v) {
        return Err(Refusal::ValueWrong);
    }
    Ok(decimal_length(integer_at(v, 0, v.len())))
}

// The option's number is a field, so it can fail as one; then it fills V and is known.
#[tactic(auto, unfolding(payload::specs::Values::option_value))]
fn option_word(d: &[u8], row: usize, v: &[u8]) -> Result<usize, Refusal>
    requires row { Row d.now row }
    requires is_enum { kind d.now row ≡ enum_form }
    ensures { WordMet d.now row (length v.now) (option_value d.now row v.now) (checked result) }
{
    let n = number_at(v, 0, v.len())?;
    if 1 + n.width != v.len() {
        return Err(Refusal::ValueWrong);
    }
    let option = child_numbered(d, row, n.value).ok_or(Refusal::ValueWrong)?;
    Ok(name_long(d, option) + 2)
}

// Two quotes in place of the closing 00.
#[tactic(auto, unfolding(payload::specs::Values::string_value))]
fn string_word(v: &[u8]) -> Result<usize, Refusal>
    ensures { AnyWordMet (length v.now) (string_value v.now) (checked result) }
{
    match v {
        [text @ .., 0] if well_spelt(text, 0, text.len()) => Ok(text.len() + 2),
        _ => Err(Refusal::ValueWrong),
    }
}

#[tactic(auto, unfolding(payload::specs::Values::boolean_value))]
fn boolean_word(v: &[u8]) -> Result<usize, Refusal>
    ensures { AnyWordMet (length v.now) (boolean_value v.now) (checked result) }
{
    match v {
        [0x00] => Ok(5),
        [0xFF] => Ok(4),
        _ => Err(Refusal::ValueWrong),
    }
}

// The bytes v as a value of the format, which fits the row. A boolean's is the last that is left.
#[tactic(auto, unfolding(payload::specs::Values::scalar_value))]
pub fn word_at(d: &[u8], row: usize, format: Format, v: &[u8]) -> Result<usize, Refusal>
    requires row { Row d.now row }
    requires fits_row { fits d.now row (form_number format) ≡ true }
    ensures { WordMet d.now row (length v.now) (scalar_value d.now row (form_number format) v.now) (checked result) }
{
    match format {
        Format::Null if v.is_empty() => Ok(4),
        Format::Null => Err(Refusal::ValueWrong),
        Format::Integer => integer_word(v),
        Format::Enum => option_word(d, row, v),
        Format::String => string_word(v),
        _ => boolean_word(v),
    }
}
