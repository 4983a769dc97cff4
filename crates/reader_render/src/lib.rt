// The second pass: writes the text of a payload that the first pass has accepted. It judges nothing: every place that it reads is known to be right.
#![tactic(auto)]

pub mod group;
pub mod piece;
pub mod tuple;

ghost use Rattle.std.specs.Prelude.{◌≤◌, length};
ghost use Rattle.numbers.specs.Met.{Wrote};
ghost use Rattle.reader_render.specs.Rendered.{payload_text, Accepted};

use crate::group::render;
use crate::tuple::Parts;
use numbers::output::Output;
use paper::PAYLOAD_LEAST;

// The text of a payload, to the front of `out`: the root is a tuple behind the header.
pub fn render_payload(d: &[u8], s: &[u8], out: &mut [u8]) -> usize
    requires accepted { Accepted d.now s.now }
    requires has_room { length (payload_text d.now s.now) ≤ length out.old }
    ensures { Wrote out.old 0 (payload_text d.now s.now) result out.new }
{
    let t = Parts::at(s, PAYLOAD_LEAST);
    let mut o = Output { buf: out, pos: 0 };
    render(&mut o, d, 0, &s[t.from..t.to]);
    o.pos
}
