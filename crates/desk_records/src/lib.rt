// One operation's record (document 01, "The desk's states"): which records may stand on a desk, and how each call moves one.
#![tactic(auto)]

mod moves;
pub mod rules;

ghost use Rattle.std.specs.Prelude.{◌≡◌, ◌-◌, eqb};
ghost use Rattle.desk_records.specs.Record.{empty, state_number, between};
ghost use Rattle.desk_records.specs.Met.{KindOf};

use paper::Refusal;

// "Types 0 to 6: head, read, create, delete, update, replace, action."
#[derive(Clone, Copy)]
pub enum Kind {
    Head = 0,
    Read = 1,
    Create = 2,
    Delete = 3,
    Update = 4,
    Replace = 5,
    Action = 6,
}

// 26 for "type above 6".
impl TryFrom<u8> for Kind {
    type Error = Refusal;

    ghost try_from_gives = { KindOf };

    fn try_from(kind: u8) -> Result<Kind, Refusal> {
        match kind {
            0 => Ok(Kind::Head),
            1 => Ok(Kind::Read),
            2 => Ok(Kind::Create),
            3 => Ok(Kind::Delete),
            4 => Ok(Kind::Update),
            5 => Ok(Kind::Replace),
            6 => Ok(Kind::Action),
            _ => Err(Refusal::OpenWrong),
        }
    }
}

// "States are 002's: inactive 0, needs input 1, triggered 2, running 3, have results 4, completed 5, failed 6, abandoned 7."
#[derive(Clone, Copy)]
pub enum State {
    Inactive = 0,
    NeedsInput = 1,
    Triggered = 2,
    Running = 3,
    HaveResults = 4,
    Completed = 5,
    Failed = 6,
    Abandoned = 7,
}

// A record keeps the numbers of its type and state, not the enums: whatever bytes arrive as a desk are a desk, sound or not, and an unsound one is
// refused with 20.
#[derive(Clone, Copy)]
pub struct Record {
    // 0 for an empty place
    pub number: u16,
    // the paper's "type", which is a keyword here
    pub kind: u8,
    pub state: u8,
    pub declared: u32,
    pub received: u32,
    pub due: u32,
}

// "failed, which carries no R .. good with R result bytes"
#[derive(Clone, Copy)]
pub enum Finish {
    Failed,
    Good(u32),
}

impl Record {
    // "empty places are all 0"
    pub fn empty() -> Record
        ensures { result ≡ empty }
    {
        Record {
            number: 0,
            kind: 0,
            state: State::Inactive as u8,
            declared: 0,
            received: 0,
            due: 0,
        }
    }

    pub(crate) fn is(self, state: State) -> bool
        ensures { result ≡ eqb self.state (state_number state) }
    {
        self.state == state as u8
    }

    // The state is the first, the last or one between.
    pub(crate) fn within(self, first: State, last: State) -> bool
        ensures { result ≡ between (state_number first) self.state (state_number last) }
    {
        (first as u8..=last as u8).contains(&self.state)
    }

    // What is still to come of the declared bytes; none where more came than were declared, which a sound desk does not have.
    pub fn room(self) -> u32
        ensures { result ≡ self.declared - self.received }
    {
        self.declared.saturating_sub(self.received)
    }
}
