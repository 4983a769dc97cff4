// The writer: text to the shortest BEJ. It judges and measures, then writes: a refusal changes nothing. What it answers stands in crates/text/specs/Writing.
#![tactic(auto)]

ghost use Rattle.std.specs.Prelude.{◌≡◌, ◌||◌, length, ltb};
ghost use Rattle.paper.specs.Limits.{payload_most};
ghost use Rattle.paper.specs.Refusal.{told};
ghost use Rattle.payload.specs.Answered.{Answered};
ghost use Rattle.text.specs.Writing.{tree_of, spoken, writes};
ghost use Rattle.writer_parse.specs.Met.{Site};

use checker::accepts;
use numbers::output::Output;
use paper::{
    DEPTH_MOST, Done, PAYLOAD_LEAST, PAYLOAD_MOST, Refusal, Refused, TEXT_LEAST, TEXT_MOST,
};
use writer_judge::roots::judge;
use writer_render::Place;
use writer_render::rendering::render;
use writer_render::tuples::put_header;

// Slots for the size and the count of each group: a group that has members has 7 bytes beside them, so that below the table's limit these suffice.
const SLOTS: usize = PAYLOAD_MOST / 7 * 2;

fn over(room: usize, long: usize) -> bool
    ensures { result ≡ ltb room long || ltb payload_most long }
{
    room < long || PAYLOAD_MOST < long
}

// What an accepted dictionary and a text of the table's length come to.
fn written(d: &[u8], s: &[u8], out: &mut [u8]) -> Result<Done, Refused>
    requires { Site d.now s.now 0 0 }
    ensures { Answered (spoken d.now (length out.old) (tree_of d.now s.now)) out.old (told result) out.new }
{
    let mut slots = [0u16; SLOTS];
    let root = judge(d, s, &mut slots)?;
    if over(out.len(), PAYLOAD_LEAST + root.long) {
        return Err(Refusal::NoRoom.at(0));
    }
    let mut o = Output { buf: out, pos: 0 };
    put_header(&mut o);
    let root_at = Place { at: 0, slot: 0 };
    render(&mut o, d, s, &slots, DEPTH_MOST, 0, 0, root_at);
    Ok(Done {
        count: root.tuples,
        length: o.pos,
    })
}

// Writes any text at all by any dictionary at all, as the shortest payload that means it, to the front of `out`.
pub fn write(d: &[u8], text: &[u8], out: &mut [u8]) -> Result<Done, Refused>
    ensures { Answered (writes d.now text.now (length out.old)) out.old (told result) out.new }
{
    if !accepts(d) {
        return Err(Refusal::DictionaryWrong.at(0));
    }
    if text.len() < TEXT_LEAST || TEXT_MOST < text.len() {
        return Err(Refusal::LengthWrong.at(0));
    }
    written(d, text, out)
}
