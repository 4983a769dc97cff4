// The reader: BEJ to JSON text. What it answers stands in the crate payload, specs/Reading.
#![tactic(auto)]

ghost use Rattle.std.specs.Prelude.{length};
ghost use Rattle.paper.specs.Refusal.{told};
ghost use Rattle.payload.specs.Reading.{reads};
ghost use Rattle.payload.specs.Answered.{Answered};

use paper::{Done, Refusal, Refused, TEXT_MOST};
use reader_judge::judged;
use reader_render::render_payload;

// Reads any payload at all by any dictionary at all, and writes its text to the front of `out`. Nothing is written before all is judged.
pub fn read(d: &[u8], s: &[u8], budget: usize, out: &mut [u8]) -> Result<Done, Refused>
    ensures { Answered (reads d.now s.now budget (length out.old)) out.old (told result) out.new }
{
    let done = judged(d, s, budget)?;
    if out.len() < done.length || TEXT_MOST < done.length {
        return Err(Refusal::NoRoom.at(0));
    }
    render_payload(d, s, out);
    Ok(done)
}
