// The second pass: writes what the first has taken, and takes the sizes of groups from the slots.
ghost use Rattle.writer_render.specs.Met.{Ready, Rendered};

use crate::Place;
use crate::tuples::{put_leaf, put_opening};
use numbers::output::Output;
use writer_parse::Head;
use writer_parse::heads::head_at;
use writer_parse::keys::key_at;
use writer_tokens::tokens::skip;

// The value at a place, which the first pass has taken: so that neither it nor a member's name is refused.
pub fn render(
    out: &mut Output,
    d: &[u8],
    s: &[u8],
    slots: &[u16],
    room: usize,
    row: usize,
    n: usize,
    from: Place,
) -> Place
    requires { Ready d.now s.now slots.now room row n from out.old }
    ensures { Rendered d.now s.now room row n from out.old result out.new }
{
    match head_at(d, s, room, row, from.at).unwrap() {
        Head::Leaf(v, next) => {
            put_leaf(out, s, n, v);
            Place {
                at: next,
                slot: from.slot,
            }
        }
        Head::Many(g, first) => {
            let size = usize::from(slots[from.slot]);
            let count = usize::from(slots[from.slot + 1]);
            put_opening(out, n, g, size, count);
            let mut place = Place {
                at: first,
                slot: from.slot + 2,
            };
            for i in 0..count {
                let key = key_at(d, s, g, row, i, place.at).unwrap();
                let member = Place {
                    at: key.next,
                    slot: place.slot,
                };
                let end = render(out, d, s, slots, room - 1, key.row, key.number, member);
                place = Place {
                    at: skip(s, end.at) + 1,
                    slot: end.slot,
                };
            }
            place
        }
    }
}
