// The desk for callers in C, who keep it as 128 bytes (crates/desk_bytes/specs/Bytes.antt). Each entry answers 0 or the refusal's number, and what it
// leaves in each buffer stands in crates/desk_calls/specs/Served.antt.
ghost use Rattle.std.specs.Prelude.{[]};
ghost use Rattle.desk_records.specs.declared.Finish.TheVariants.{Failed, Good};
ghost use Rattle.desk_laws.specs.State.{call, to_open, to_feed, to_start, to_finish, to_take, to_kill, to_close, to_tell};
ghost use Rattle.desk_calls.specs.Served.{served, served_list};
ghost use Rattle.desk_calls.specs.Met.{Lent, LentStore, LentRow};

use crate::code;

#[unsafe(no_mangle)]
pub extern "C" fn broachvale_desk_open(desk: &mut [u8], number: u16, kind: u8, declared: u32) -> u32
    ensures { Lent (served (call number (to_open kind declared)) desk.old []) result desk.new }
{
    code(desk_calls::open(desk, number, kind, declared))
}

// The only entry that is lent the store.
#[unsafe(no_mangle)]
pub extern "C" fn broachvale_desk_feed(
    desk: &mut [u8],
    store: &mut [u8],
    number: u16,
    piece: &[u8],
) -> u32
    ensures { LentStore (served (call number (to_feed piece.now)) desk.old store.old) result desk.new store.new }
{
    code(desk_calls::feed(desk, store, number, piece))
}

#[unsafe(no_mangle)]
pub extern "C" fn broachvale_desk_start(desk: &mut [u8], number: u16) -> u32
    ensures { Lent (served (call number to_start) desk.old []) result desk.new }
{
    code(desk_calls::start(desk, number))
}

#[unsafe(no_mangle)]
pub extern "C" fn broachvale_desk_finish_failed(desk: &mut [u8], number: u16) -> u32
    ensures { Lent (served (call number (to_finish Failed)) desk.old []) result desk.new }
{
    code(desk_calls::finish_failed(desk, number))
}

#[unsafe(no_mangle)]
pub extern "C" fn broachvale_desk_finish_good(desk: &mut [u8], number: u16, results: u32) -> u32
    ensures { Lent (served (call number (to_finish (Good results))) desk.old []) result desk.new }
{
    code(desk_calls::finish_good(desk, number, results))
}

#[unsafe(no_mangle)]
pub extern "C" fn broachvale_desk_take(desk: &mut [u8], number: u16, n: u32) -> u32
    ensures { Lent (served (call number (to_take n)) desk.old []) result desk.new }
{
    code(desk_calls::take(desk, number, n))
}

#[unsafe(no_mangle)]
pub extern "C" fn broachvale_desk_kill(desk: &mut [u8], number: u16) -> u32
    ensures { Lent (served (call number to_kill) desk.old []) result desk.new }
{
    code(desk_calls::kill(desk, number))
}

#[unsafe(no_mangle)]
pub extern "C" fn broachvale_desk_close(desk: &mut [u8], number: u16) -> u32
    ensures { Lent (served (call number to_close) desk.old []) result desk.new }
{
    code(desk_calls::close(desk, number))
}

// Tells the state and the counts of received and due bytes: three numbers, or as many as there is room for.
#[unsafe(no_mangle)]
pub extern "C" fn broachvale_desk_status(desk: &[u8], number: u16, told: &mut [u32]) -> u32
    ensures { LentRow (served (call number to_tell) desk.now []) told.old result told.new }
{
    code(desk_calls::status(desk, number, told))
}

// Tells the numbers in use, rising, then zeros: eight numbers, or as many as there is room for.
#[unsafe(no_mangle)]
pub extern "C" fn broachvale_desk_list(desk: &[u8], operations: &mut [u16]) -> u32
    ensures { LentRow (served_list desk.now) operations.old result operations.new }
{
    code(desk_calls::list(desk, operations))
}
