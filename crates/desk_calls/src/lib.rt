// The desk's calls for callers that keep a desk as bytes (specs/Served.antt): each reads the bytes, makes the call and writes the bytes back.
#![tactic(auto, using(crate::proofs::Serving::keeps, crate::proofs::Serving::serving, crate::proofs::Serving::telling), unfolding(crate::specs::Served::served, crate::specs::Served::served_list))]

ghost use Rattle.std.specs.Prelude.{◌≡◌, [], ok_or};
ghost use Rattle.desk_records.specs.declared.Finish.TheVariants.{Failed, Good};
ghost use Rattle.desk.specs.Calls.{said, told_moved};
ghost use Rattle.desk_laws.specs.State.{call, to_open, to_feed, to_start, to_finish, to_take, to_kill, to_close, to_tell};
ghost use Rattle.desk_bytes.specs.Bytes.{decode};
ghost use Rattle.desk_calls.specs.Served.{served, served_list};
ghost use Rattle.desk_calls.specs.Met.{Lent, LentStore, LentRow, Written};

use desk::{Desk, Moved};
use desk_bytes::{decode, encode};
use desk_records::Finish;
use paper::Refusal;
use paper::lent::lay;

// The desk that the bytes spell; bytes that spell none are 20.
fn read(bytes: &[u8]) -> Result<Desk, Refusal>
    ensures { result ≡ ok_or (decode bytes.now) Refusal.NotSound }
{
    decode(bytes).ok_or(Refusal::NotSound)
}

// Writes back the desk after a call; a refusal leaves the bytes as they are. A call is a line between `read` and this: as a closure it would be
// one too, and the contract has to name the call anyway.
fn keep(bytes: &mut [u8], m: Moved) -> Result<(), Refusal>
    ensures { Written bytes.old (told_moved m) (said result) bytes.new }
{
    m.answer?;
    encode(m.desk, bytes);
    Ok(())
}

pub fn open(bytes: &mut [u8], number: u16, kind: u8, declared: u32) -> Result<(), Refusal>
    ensures { Lent (served (call number (to_open kind declared)) bytes.old []) (said result) bytes.new }
{
    let m = read(bytes)?.open(number, kind, declared);
    keep(bytes, m)
}

pub fn feed(bytes: &mut [u8], store: &mut [u8], number: u16, piece: &[u8]) -> Result<(), Refusal>
    ensures { LentStore (served (call number (to_feed piece.now)) bytes.old store.old) (said result) bytes.new store.new }
{
    let m = read(bytes)?.feed(store, number, piece);
    keep(bytes, m)
}

pub fn start(bytes: &mut [u8], number: u16) -> Result<(), Refusal>
    ensures { Lent (served (call number to_start) bytes.old []) (said result) bytes.new }
{
    let m = read(bytes)?.start(number);
    keep(bytes, m)
}

fn finish(bytes: &mut [u8], number: u16, f: Finish) -> Result<(), Refusal>
    ensures { Lent (served (call number (to_finish f)) bytes.old []) (said result) bytes.new }
{
    let m = read(bytes)?.finish(number, f);
    keep(bytes, m)
}

// Two entries, as C has: "failed, which carries no R"
pub fn finish_failed(bytes: &mut [u8], number: u16) -> Result<(), Refusal>
    ensures { Lent (served (call number (to_finish Failed)) bytes.old []) (said result) bytes.new }
{
    finish(bytes, number, Finish::Failed)
}

// "good with R result bytes (0 to 4,294,967,295)"
pub fn finish_good(bytes: &mut [u8], number: u16, results: u32) -> Result<(), Refusal>
    ensures { Lent (served (call number (to_finish (Good results))) bytes.old []) (said result) bytes.new }
{
    finish(bytes, number, Finish::Good(results))
}

pub fn take(bytes: &mut [u8], number: u16, n: u32) -> Result<(), Refusal>
    ensures { Lent (served (call number (to_take n)) bytes.old []) (said result) bytes.new }
{
    let m = read(bytes)?.take(number, n);
    keep(bytes, m)
}

pub fn kill(bytes: &mut [u8], number: u16) -> Result<(), Refusal>
    ensures { Lent (served (call number to_kill) bytes.old []) (said result) bytes.new }
{
    let m = read(bytes)?.kill(number);
    keep(bytes, m)
}

pub fn close(bytes: &mut [u8], number: u16) -> Result<(), Refusal>
    ensures { Lent (served (call number to_close) bytes.old []) (said result) bytes.new }
{
    let m = read(bytes)?.close(number);
    keep(bytes, m)
}

// The state, and the counts of received and due bytes.
pub fn status(bytes: &[u8], number: u16, told: &mut [u32]) -> Result<(), Refusal>
    ensures { LentRow (served (call number to_tell) bytes.now []) told.old (said result) told.new }
{
    let t = read(bytes)?.status(number)?;
    lay(told, &[t.state as u32, t.received, t.due]);
    Ok(())
}

// The eight numbers that list answers with.
pub fn list(bytes: &[u8], operations: &mut [u16]) -> Result<(), Refusal>
    ensures { LentRow (served_list bytes.now) operations.old (said result) operations.new }
{
    let row = read(bytes)?.list()?;
    lay(operations, &row);
    Ok(())
}
