// The pieces of a text: a text in quotes, and what stands before a member.
ghost use Rattle.numbers.specs.Output.{Room, Added};
ghost use Rattle.dictionary.specs.Given.{Row};
ghost use Rattle.payload.specs.Text.{quoted, comma_at};
ghost use Rattle.reader_render.specs.Rendered.{labelled, lead};

use dictionary::children::name_of;
use numbers::output::Output;
use payload::Shape;

pub fn put_quoted(out: &mut Output, t: &[u8])
    requires { Room out.old (quoted t.now) }
    ensures { Added out.old (quoted t.now) out.new }
{
    out.put(b'"');
    out.put_bytes(t);
    out.put(b'"');
}

fn put_comma(out: &mut Output, i: usize)
    requires { Room out.old (comma_at i) }
    ensures { Added out.old (comma_at i) out.new }
{
    if 0 < i {
        out.put(b',');
    }
}

// A set's member has its name before it, an array's nothing.
fn put_label(out: &mut Output, d: &[u8], g: Shape, row: usize)
    requires row { Row d.now row }
    requires has_room { Room out.old (labelled d.now g row) }
    ensures { Added out.old (labelled d.now g row) out.new }
{
    if let Shape::Set = g {
        put_quoted(out, name_of(d, row));
        out.put(b':');
    }
}

// What stands before the member i: a comma, but for the first, and its label.
pub fn put_lead(out: &mut Output, d: &[u8], g: Shape, row: usize, i: usize)
    requires row { Row d.now row }
    requires has_room { Room out.old (lead d.now g row i) }
    ensures { Added out.old (lead d.now g row i) out.new }
{
    put_comma(out, i);
    put_label(out, d, g, row);
}
