// The header and the parts of a tuple, written.
ghost use Rattle.std.specs.Prelude.{◌≡◌, ◌^◌, ◌<◌};
ghost use Rattle.numbers.specs.Output.{Room, Added};
ghost use Rattle.dictionary.specs.Formats.{form_number};
ghost use Rattle.payload.specs.Header.{header_with};
ghost use Rattle.text.specs.Shortest.{tuple_of};
ghost use Rattle.writer_parse.specs.Leaves.{bytes_for, form_of, Proper};
ghost use Rattle.writer_render.specs.Parts.{front, opening};

use dictionary::formats::Format;
use numbers::output::Output;
use payload::Shape;
use payload::formats::boolean_byte;
use writer_parse::Value;
use writer_sizes::value_long;

// S, F and L of a tuple, with low format bits 0.
fn put_front(out: &mut Output, n: usize, f: Format, size: usize)
    requires number { n < 2 ^ 31 }
    requires has_room { Room out.old (front n (form_number f) size) }
    ensures { Added out.old (front n (form_number f) size) out.new }
{
    out.put_number(2 * n);
    out.put((16 * f.number()) as u8);
    out.put_number(size);
}

fn form_of(v: Value) -> Format
    ensures { form_number result ≡ form_of v }
{
    match v {
        Value::Null => Format::Null,
        Value::Boolean(_) => Format::Boolean,
        Value::Integer(_) => Format::Integer,
        Value::Option(_) => Format::Enum,
        Value::String(_, _) => Format::String,
        Value::Empty(g) => g.format(),
    }
}

// V of a value that holds no tuples.
fn put_body(out: &mut Output, s: &[u8], v: Value)
    requires proper { Proper s.now v }
    requires has_room { Room out.old (bytes_for s.now v) }
    ensures { Added out.old (bytes_for s.now v) out.new }
{
    match v {
        Value::Null => {}
        Value::Boolean(b) => out.put(boolean_byte(b)),
        Value::Integer(i) => out.put_integer(i),
        Value::Option(m) => out.put_number(m),
        Value::String(a, b) => {
            out.put_bytes(&s[a..b]);
            out.put(0);
        }
        Value::Empty(_) => out.put_number(0),
    }
}

pub fn put_leaf(out: &mut Output, s: &[u8], n: usize, v: Value)
    requires number { n < 2 ^ 31 }
    requires proper { Proper s.now v }
    requires has_room { Room out.old (tuple_of n (form_of v) (bytes_for s.now v)) }
    ensures { Added out.old (tuple_of n (form_of v) (bytes_for s.now v)) out.new }
{
    put_front(out, n, form_of(v), value_long(s, v));
    put_body(out, s, v);
}

// A group up to its members: S, F, L and their count.
pub fn put_opening(out: &mut Output, n: usize, g: Shape, size: usize, count: usize)
    requires number { n < 2 ^ 31 }
    requires has_room { Room out.old (opening n g size count) }
    ensures { Added out.old (opening n g size count) out.new }
{
    put_front(out, n, g.format(), size);
    out.put_number(count);
}

pub fn put_header(out: &mut Output)
    requires { Room out.old (header_with 0 0) }
    ensures { Added out.old (header_with 0 0) out.new }
{
    out.put_bytes(b"\x00\xF0\xF0\xF1\x00\x00\x00");
}
