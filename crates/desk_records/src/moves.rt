// The table of moves: each call answers the record after it, or 25 or 27 (26 of open).
#![tactic(auto, unfolding(crate::specs::Moves::opening, crate::specs::Moves::feeding, crate::specs::Moves::starting, crate::specs::Moves::finishing, crate::specs::Moves::taking, crate::specs::Moves::killing, crate::specs::Moves::closing))]

ghost use Rattle.std.specs.Prelude.{◌≡◌, ◌+◌, ◌≤◌};
ghost use Rattle.desk_records.specs.Moves.{opening, becomes, owing, outcome, feeding, starting, finishing, taking, killing, closing};
ghost use Rattle.desk_records.specs.Met.{made, made_new};

use crate::rules::suits;
use crate::{Finish, Record, State};
use paper::Refusal;

impl Record {
    // "open: number, type and declared as the call says, received and due 0; state 1, or 2 where 0 bytes are declared."
    pub fn new(number: u16, kind: u8, declared: u32) -> Record
        ensures { result ≡ opening number kind declared }
    {
        let state = if declared == 0 {
            State::Triggered
        } else {
            State::NeedsInput
        };
        Record {
            number,
            kind,
            state: state as u8,
            declared,
            received: 0,
            due: 0,
        }
    }

    pub fn open(number: u16, kind: u8, declared: u32) -> Result<Record, Refusal>
        ensures { result ≡ made_new number kind declared }
    {
        if !suits(kind, declared) {
            return Err(Refusal::OpenWrong);
        }
        Ok(Record::new(number, kind, declared))
    }

    pub fn becomes(self, state: u8, received: u32, due: u32) -> Record
        ensures { result ≡ becomes self state received due }
    {
        Record {
            state,
            received,
            due,
            ..self
        }
    }

    // To 4 with so many due, or to 5 where none is.
    pub fn owing(self, due: u32) -> Record
        ensures { result ≡ owing due self }
    {
        let state = if due == 0 {
            State::Completed
        } else {
            State::HaveResults
        };
        self.becomes(state as u8, self.received, due)
    }

    pub fn outcome(self, f: Finish) -> Record
        ensures { result ≡ outcome f self }
    {
        match f {
            Finish::Failed => self.becomes(State::Failed as u8, self.received, self.due),
            Finish::Good(due) => self.owing(due),
        }
    }

    // "received grows by their count; 2 once all are in."
    pub fn grown(self, count: u32) -> Record
        requires { self.received + count ≤ self.declared }
        ensures { result ≡ (feeding count).next self }
    {
        let received = self.received + count;
        let state = if received == self.declared {
            State::Triggered
        } else {
            State::NeedsInput
        };
        self.becomes(state as u8, received, self.due)
    }

    // "feed in 1"
    pub fn feed(self, count: usize) -> Result<Record, Refusal>
        ensures { result ≡ made (feeding count) self }
    {
        if !self.is(State::NeedsInput) {
            return Err(Refusal::NotAllowed);
        }
        if !(1..=self.room() as usize).contains(&count) {
            return Err(Refusal::AmountWrong);
        }
        Ok(self.grown(count as u32))
    }

    // "start: 2 to 3."
    pub fn start(self) -> Result<Record, Refusal>
        ensures { result ≡ made starting self }
    {
        if !self.is(State::Triggered) {
            return Err(Refusal::NotAllowed);
        }
        Ok(self.becomes(State::Running as u8, self.received, self.due))
    }

    // "finish from 3: failed .. to 6; good .. to 4 with R due, or to 5 where R is 0."
    pub fn finish(self, f: Finish) -> Result<Record, Refusal>
        ensures { result ≡ made (finishing f) self }
    {
        if !self.is(State::Running) {
            return Err(Refusal::NotAllowed);
        }
        Ok(self.outcome(f))
    }

    // "take in 4: n fewer due; 5 at none."
    pub fn take(self, n: u32) -> Result<Record, Refusal>
        ensures { result ≡ made (taking n) self }
    {
        if !self.is(State::HaveResults) {
            return Err(Refusal::NotAllowed);
        }
        if !(1..=self.due).contains(&n) {
            return Err(Refusal::AmountWrong);
        }
        Ok(self.owing(self.due - n))
    }

    // "kill: 1, 2, 3 or 4 to 7, due becomes 0."
    pub fn kill(self) -> Result<Record, Refusal>
        ensures { result ≡ made killing self }
    {
        if !self.within(State::NeedsInput, State::HaveResults) {
            return Err(Refusal::NotAllowed);
        }
        Ok(self.becomes(State::Abandoned as u8, self.received, 0))
    }

    // "close: 5, 6 or 7, and the place is empty."
    pub fn close(self) -> Result<Record, Refusal>
        ensures { result ≡ made closing self }
    {
        if !self.within(State::Completed, State::Abandoned) {
            return Err(Refusal::NotAllowed);
        }
        Ok(Record::empty())
    }
}
