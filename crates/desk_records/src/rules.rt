// The rules of a sound record, each by itself.
#![tactic(auto, unfolding(crate::specs::Record::suits, crate::specs::Record::else_zero, crate::specs::Record::state_sound, crate::specs::Record::received_sound, crate::specs::Record::due_sound, crate::specs::Record::sound_record, crate::specs::Record::declared_sound))]

ghost use Rattle.std.specs.Prelude.{◌≡◌};
ghost use Rattle.desk_records.specs.Record.{suits, else_zero, declared_sound, state_sound, received_sound, due_sound, sound_record};

use crate::{Kind, Record, State};
use paper::DECLARED_MOST;

// An operation of this type may declare so many bytes.
pub fn suits(kind: u8, declared: u32) -> bool
    ensures { result ≡ suits kind declared }
{
    let count = declared as usize;
    match Kind::try_from(kind) {
        Ok(Kind::Head | Kind::Read | Kind::Delete) => count == 0,
        Ok(Kind::Create | Kind::Update | Kind::Replace) => (1..=DECLARED_MOST).contains(&count),
        Ok(Kind::Action) => count <= DECLARED_MOST,
        Err(_) => false,
    }
}

impl Record {
    pub fn else_zero(self) -> bool
        ensures { result ≡ else_zero self }
    {
        self.kind == 0
            && self.state == 0
            && self.declared == 0
            && self.received == 0
            && self.due == 0
    }

    pub fn declared_sound(self) -> bool
        ensures { result ≡ declared_sound self }
    {
        suits(self.kind, self.declared)
    }

    pub fn state_sound(self) -> bool
        ensures { result ≡ state_sound self }
    {
        self.within(State::NeedsInput, State::Abandoned)
    }

    pub fn received_sound(self) -> bool
        ensures { result ≡ received_sound self }
    {
        if self.is(State::NeedsInput) {
            self.received < self.declared
        } else if self.is(State::Abandoned) {
            self.received <= self.declared
        } else {
            self.received == self.declared
        }
    }

    pub fn due_sound(self) -> bool
        ensures { result ≡ due_sound self }
    {
        if self.is(State::HaveResults) {
            self.due >= 1
        } else {
            self.due == 0
        }
    }

    pub fn sound(self) -> bool
        ensures { result ≡ sound_record self }
    {
        if self.number == 0 {
            return self.else_zero();
        }
        self.declared_sound() && self.state_sound() && self.received_sound() && self.due_sound()
    }
}
