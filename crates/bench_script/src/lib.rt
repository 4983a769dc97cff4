// Reads a line of a desk's script: docs/BENCH.md has its form.
#![tactic(auto)]

pub mod told;

use bench_lines::{DECIMAL_MOST, SPACE, number_part, part, separators, unhex_part};
use desk::Desk;
use desk_records::Record;
use paper::DESK_MOST;

const COLON: u8 = b':';

// What a line asks for. A fed piece lies in front of the buffer that the line was read with.
#[derive(Clone, Copy)]
pub enum Call {
    Open(u16, u8, u32),
    Feed(u16, usize),
    Start(u16),
    Failed(u16),
    Good(u16, u32),
    Take(u16, u32),
    Kill(u16),
    Close(u16),
    Status(u16),
    List,
    Desk(Desk),
    Show,
    Bytes(u16),
}

// The number that the part after so many separators says, where its type has room for it.
fn number_at<T: TryFrom<u64>>(s: &[u8], x: u8, k: usize) -> Option<T>
where
    T::Error: Drop,
{
    T::try_from(number_part(s, x, k, DECIMAL_MOST)?).ok()
}

// The record that a word of six numbers spells.
fn record_of(s: &[u8]) -> Option<Record> {
    if separators(s, COLON) != 5 {
        return None;
    }
    Some(Record {
        number: number_at(s, COLON, 0)?,
        kind: number_at(s, COLON, 1)?,
        state: number_at(s, COLON, 2)?,
        declared: number_at(s, COLON, 3)?,
        received: number_at(s, COLON, 4)?,
        due: number_at(s, COLON, 5)?,
    })
}

// The desk whose records the words after the first spell.
fn desk_of(line: &[u8]) -> Option<Desk> {
    let mut desk = Desk::fresh();
    // By place: the word's and the record's.
    for i in 0..DESK_MOST {
        desk.records[i] = record_of(part(line, SPACE, i + 1))?;
    }
    Some(desk)
}

// What the line asks for, if it is well formed. How many words follow the first tells most calls apart; `feed NUMBER` without hex is an empty
// piece.
pub fn call_of(line: &[u8], piece: &mut [u8]) -> Option<Call> {
    let words = separators(line, SPACE);
    match (part(line, SPACE, 0), words) {
        (b"list", 0) => return Some(Call::List),
        (b"show", 0) => return Some(Call::Show),
        (b"desk", DESK_MOST) => return Some(Call::Desk(desk_of(line)?)),
        _ => {}
    }
    let number = number_at(line, SPACE, 1)?;
    match (part(line, SPACE, 0), words, part(line, SPACE, 2)) {
        (b"open", 3, _) => {
            let kind = number_at(line, SPACE, 2)?;
            Some(Call::Open(number, kind, number_at(line, SPACE, 3)?))
        }
        (b"feed", 1, _) => Some(Call::Feed(number, 0)),
        (b"feed", 2, _) => Some(Call::Feed(number, unhex_part(line, SPACE, 2, piece)?)),
        (b"start", 1, _) => Some(Call::Start(number)),
        (b"finish", 2, b"failed") => Some(Call::Failed(number)),
        (b"finish", 3, b"good") => Some(Call::Good(number, number_at(line, SPACE, 3)?)),
        (b"take", 2, _) => Some(Call::Take(number, number_at(line, SPACE, 2)?)),
        (b"kill", 1, _) => Some(Call::Kill(number)),
        (b"close", 1, _) => Some(Call::Close(number)),
        (b"status", 1, _) => Some(Call::Status(number)),
        (b"bytes", 1, _) => Some(Call::Bytes(number)),
        _ => None,
    }
}
