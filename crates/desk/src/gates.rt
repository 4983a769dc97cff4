// What a call tests before it moves a record: the numbers 20, 21 and 24.
#![tactic(auto, using(crate::proofs::Calling::reaches))]

ghost use Rattle.std.specs.Prelude.{◌≡◌, ◌==◌, position};
ghost use Rattle.desk.specs.Desk.{alone, sound};
ghost use Rattle.desk.specs.Met.{admitted, reached};

use crate::Desk;
use desk_records::Record;
use paper::{DESK_MOST, Refusal};

// No record has the number, or it is 0.
fn alone(number: u16, records: &[Record]) -> bool
    ensures { result ≡ alone number records.now }
{
    number == 0 || records.iter().all(|r| r.number != number)
}

impl Desk {
    // The lowest place whose record has the number; of the number 0, the lowest empty place.
    pub(crate) fn place(&self, number: u16) -> Option<usize>
        ensures { result ≡ position (λ r. r.number == number) self.now.records }
    {
        self.records.iter().position(|r| r.number == number)
    }

    pub(crate) fn sound(&self) -> bool
        ensures { result ≡ sound self.now }
    {
        // By place: each is held against those after it.
        for i in 0..DESK_MOST {
            let r = self.records[i];
            if !r.sound() || !alone(r.number, &self.records[i + 1..]) {
                return false;
            }
        }
        true
    }

    // What every call that names an operation tests first.
    pub(crate) fn admit(&self, number: u16) -> Result<(), Refusal>
        ensures { result ≡ admitted self.now number }
    {
        if !self.sound() {
            return Err(Refusal::NotSound);
        }
        if number == 0 {
            return Err(Refusal::NumberZero);
        }
        Ok(())
    }

    // The place of a known operation.
    pub(crate) fn reach(&self, number: u16) -> Result<usize, Refusal>
        ensures { result ≡ reached self.now number }
    {
        self.admit(number)?;
        self.place(number).ok_or(Refusal::NoSuchNumber)
    }
}
