// What a desk's script is told: status, list, records and received bytes, written as docs/BENCH.md says. An error is the writer's own, and the
// buffer keeps its length.
ghost use Rattle.std.specs.Prelude.{◌≡◌, length};

use bench_lines::Gathered;
use desk::{Desk, Told};
use desk_records::Record;
use paper::{DECLARED_MOST, DESK_MOST, Refusal};
use std::io;
use std::io::Write;

// The numbers, each after a separator.
fn add_each<W: Write>(to: &mut Gathered<'_, W>, x: &[u8], numbers: &[u64]) -> io::Result<()>
    ensures { length to.new.out.now ≡ length to.old.out.now }
{
    for n in numbers {
        to.add(x)?;
        to.add_decimal(*n)?;
    }
    Ok(())
}

// 0, or the refusal's number.
fn add_outcome<W: Write, T: Drop>(to: &mut Gathered<'_, W>, r: Result<T, Refusal>) -> io::Result<()>
    ensures { length to.new.out.now ≡ length to.old.out.now }
{
    to.add_decimal(match r {
        Ok(_) => 0,
        Err(k) => u64::from(k.number()),
    })
}

pub fn add_status<W: Write>(to: &mut Gathered<'_, W>, t: Result<Told, Refusal>) -> io::Result<()>
    ensures { length to.new.out.now ≡ length to.old.out.now }
{
    add_outcome(to, t)?;
    let Ok(t) = t else { return Ok(()) };
    add_each(
        to,
        b" ",
        &[u64::from(t.state), u64::from(t.received), u64::from(t.due)],
    )
}

pub fn add_list<W: Write>(
    to: &mut Gathered<'_, W>,
    l: Result<[u16; DESK_MOST], Refusal>,
) -> io::Result<()>
    ensures { length to.new.out.now ≡ length to.old.out.now }
{
    add_outcome(to, l)?;
    let Ok(l) = l else { return Ok(()) };
    add_each(to, b" ", &l.map(u64::from))
}

fn add_record<W: Write>(to: &mut Gathered<'_, W>, r: Record) -> io::Result<()>
    ensures { length to.new.out.now ≡ length to.old.out.now }
{
    to.add_decimal(u64::from(r.number))?;
    let counts = [
        u64::from(r.kind),
        u64::from(r.state),
        u64::from(r.declared),
        u64::from(r.received),
        u64::from(r.due),
    ];
    add_each(to, b":", &counts)
}

pub fn add_desk<W: Write>(to: &mut Gathered<'_, W>, d: Desk) -> io::Result<()>
    ensures { length to.new.out.now ≡ length to.old.out.now }
{
    add_record(to, d.records[0])?;
    for r in &d.records[1..] {
        to.add(b" ")?;
        add_record(to, *r)?;
    }
    Ok(())
}

// The operation's received bytes; status refuses an unsound desk, and says that an unknown number has received none.
pub fn add_received<W: Write>(
    to: &mut Gathered<'_, W>,
    d: Desk,
    store: &[u8],
    number: u16,
) -> io::Result<()>
    ensures { length to.new.out.now ≡ length to.old.out.now }
{
    let Ok(t) = d.status(number) else {
        return Ok(());
    };
    let Some(p) = d.records.iter().position(|r| r.number == number) else {
        return Ok(());
    };
    match store.get(DECLARED_MOST * p..) {
        Some(kept) => to.add_hex(kept, t.received as usize),
        None => Ok(()),
    }
}
