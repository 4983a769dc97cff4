// Reader and writer for callers in C. Each answers the number; what it leaves in each lent buffer stands in specs/Exported.antt.
ghost use Rattle.std.specs.Prelude.{◌≡◌, length};
ghost use Rattle.paper.specs.Refusal.{told as as_told};
ghost use Rattle.payload.specs.Reading.{reads};
ghost use Rattle.text.specs.Writing.{writes};
ghost use Rattle.exports.specs.Exported.{Exported, Told};

use crate::ACCEPTED;
use paper::lent::lay;
use paper::{Done, Refused};

// Lays place, count and length into the row: a refusal's count and length are 0, acceptance is place 0.
fn tell(answer: Result<Done, Refused>, row: &mut [usize]) -> u32
    ensures { Told (as_told answer) row.old result row.new }
{
    match answer {
        Ok(done) => {
            lay(row, &[0, done.count, done.length]);
            ACCEPTED
        }
        Err(k) => {
            lay(row, &[k.place, 0, 0]);
            u32::from(k.refusal.number())
        }
    }
}

// Tells place, count and length: three numbers, or as many as there is room for.
#[unsafe(no_mangle)]
pub extern "C" fn broachvale_read(
    dictionary: &[u8],
    payload: &[u8],
    budget: usize,
    text: &mut [u8],
    told: &mut [usize],
) -> u32
    ensures { Exported (reads dictionary.now payload.now budget (length text.old)) text.old told.old result text.new told.new }
{
    tell(reader::read(dictionary, payload, budget, text), told)
}

#[unsafe(no_mangle)]
pub extern "C" fn broachvale_write(
    dictionary: &[u8],
    text: &[u8],
    payload: &mut [u8],
    told: &mut [usize],
) -> u32
    ensures { Exported (writes dictionary.now text.now (length payload.old)) payload.old told.old result payload.new told.new }
{
    tell(writer::write(dictionary, text, payload), told)
}
