// The text of a value: a scalar's, or a set's or array's with all that it holds.
ghost use Rattle.std.specs.Prelude.{◌≡◌};
ghost use Rattle.numbers.specs.Output.{Room, Added};
ghost use Rattle.dictionary.specs.Formats.{form_number};
ghost use Rattle.dictionary.specs.Rows.{kind};
ghost use Rattle.payload.specs.Fits.{GroupRow};
ghost use Rattle.payload.specs.Reading.{shape_of};
ghost use Rattle.reader_render.specs.Rendered.{boolean_text, option_text, Optional, value_text, Worth, shown, AcceptedIn};

use crate::piece::{put_lead, put_quoted};
use crate::tuple::{Parts, past_number};
use dictionary::children::{child_numbered, name_of};
use dictionary::formats::Format;
use dictionary::rows::format_nibble;
use numbers::output::Output;
use numbers::{integer_at, number_value};
use payload::Shape;
use payload::children::child_of;

fn put_boolean(out: &mut Output, x: u8)
    requires { Room out.old (boolean_text x) }
    ensures { Added out.old (boolean_text x) out.new }
{
    if x == 0 {
        out.put_bytes(b"false");
    } else {
        out.put_bytes(b"true");
    }
}

// The option is the row's child with that number.
fn put_option(out: &mut Output, d: &[u8], row: usize, v: &[u8])
    requires optional { Optional d.now row v.now }
    requires has_room { Room out.old (option_text d.now row v.now) }
    ensures { Added out.old (option_text d.now row v.now) out.new }
{
    let option = child_numbered(d, row, number_value(v, 0)).unwrap();
    put_quoted(out, name_of(d, option));
}

// The bytes v as a value of the format, at the row.
#[cycle(value)]
fn put_value(out: &mut Output, d: &[u8], row: usize, format: Format, v: &[u8])
    requires worth { Worth d.now row (form_number format) v.now }
    requires has_room { Room out.old (value_text d.now row (form_number format) v.now) }
    ensures { Added out.old (value_text d.now row (form_number format) v.now) out.new }
{
    match format {
        Format::Set | Format::Array => render(out, d, row, v),
        Format::Null => out.put_bytes(b"null"),
        Format::Integer => out.put_decimal(integer_at(v, 0, v.len())),
        Format::Enum => put_option(out, d, row, v),
        Format::String => put_quoted(out, &v[..v.len() - 1]),
        Format::Boolean => put_boolean(out, v[0]),
        Format::Real => unreachable!(),
    }
}

fn shape_at(d: &[u8], row: usize) -> Shape
    requires { GroupRow d.now row }
    ensures { result ≡ shape_of (kind d.now row) }
{
    Shape::numbered(format_nibble(d, row))
}

// The bytes v as the value of a set or array: a count and the tuples.
#[cycle(value)]
pub fn render(out: &mut Output, d: &[u8], row: usize, v: &[u8])
    requires accepted { AcceptedIn d.now row v.now }
    requires has_room { Room out.old (shown d.now row v.now) }
    ensures { Added out.old (shown d.now row v.now) out.new }
{
    let shape = shape_at(d, row);
    out.put(shape.opens());
    let mut p = past_number(v, 0);
    for i in 0..number_value(v, 0) {
        let t = Parts::at(v, p);
        let child = child_of(d, row, t.number);
        put_lead(out, d, shape, child, i);
        put_value(
            out,
            d,
            child,
            Format::numbered(t.form).unwrap(),
            &v[t.from..t.to],
        );
        p = t.to;
    }
    out.put(shape.closes());
}
