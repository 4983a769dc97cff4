// The first pass: judges, measures, and keeps the size and the count of each group in slots, in the order of opening.
ghost use Rattle.std.specs.Prelude.{◌≡◌};
ghost use Rattle.writer_judge.specs.Met.{measured, stepped, Stand, Measured, Closing, Shut, Adding, tallied, Stepping, PartedStep};

use crate::keys::fresh_key_at;
use crate::slots::keep;
use crate::{Measure, Step, Tally};
use paper::{Refusal, Refused};
use payload::Shape;
use repeats::Roll;
use writer_parse::heads::head_at;
use writer_parse::signs::parted_at;
use writer_parse::{Head, Parted};
use writer_sizes::{number_long, tuple_long, value_long};

impl Tally {
    // With a member more; the next stands at `at`.
    fn with(self, member: Measure, at: usize) -> Tally
        requires { Adding self member.long member.tuples }
        ensures { result ≡ tallied self member.slot member.long member.tuples at }
    {
        Tally {
            at,
            slot: member.slot,
            long: self.long + member.long,
            tuples: self.tuples + member.tuples,
            members: self.members + 1,
        }
    }
}

// A group whose members are read: its slots, its size and its count in turn in one array of numbers, and what it comes to.
fn closed(slots: &mut [u16], k: usize, n: usize, all: Tally) -> Measure
    requires { Closing k n all.long }
    ensures { Shut slots.old k n all result slots.new }
{
    let size = number_long(all.members) + all.long;
    keep(slots, k, size);
    keep(slots, k + 1, all.members);
    Measure {
        next: all.at,
        slot: all.slot,
        long: tuple_long(n, size),
        tuples: all.tuples,
    }
}

// After a member.
fn step(
    s: &[u8],
    g: Shape,
    slots: &mut [u16],
    k: usize,
    n: usize,
    was: Tally,
    member: Measure,
) -> Result<Step, Refused>
    requires { Stepping s.now k n was member.next member.long member.tuples }
    ensures { PartedStep s.now g slots.old k n was member.next member.slot member.long member.tuples (stepped result) slots.new }
{
    match parted_at(s, g, member.next)? {
        Parted::Comma(at) => Ok(Step::On(was.with(member, at))),
        Parted::Closed(at) => Ok(Step::Stop(closed(slots, k, n, was.with(member, at)))),
    }
}

// The value at p, the member n's, at its row. `room` is the nesting left; the slots from k on are free.
pub fn measure(
    d: &[u8],
    s: &[u8],
    room: usize,
    row: usize,
    n: usize,
    p: usize,
    slots: &mut [u16],
    k: usize,
) -> Result<Measure, Refused>
    requires { Stand d.now s.now row n p k }
    ensures { Measured d.now s.now room row n p k slots.old (measured result) slots.new }
{
    match head_at(d, s, room, row, p)? {
        Head::Leaf(v, next) => Ok(Measure {
            next,
            slot: k,
            long: tuple_long(n, value_long(s, v)),
            tuples: 1,
        }),
        Head::Many(g, first) => {
            let mut roll = Roll::new();
            let mut was = Tally {
                at: first,
                slot: k + 2,
                long: 0,
                tuples: 1,
                members: 0,
            };
            // Each turn says where the next begins.
            while was.at < s.len() {
                let key = fresh_key_at(d, s, g, row, was.members, &mut roll, was.at)?;
                let member = measure(
                    d,
                    s,
                    room - 1,
                    key.row,
                    key.number,
                    key.next,
                    slots,
                    was.slot,
                )?;
                match step(s, g, slots, k, n, was, member)? {
                    Step::Stop(group) => return Ok(group),
                    Step::On(now) => was = now,
                }
            }
            Err(Refusal::BadText.at(s.len()))
        }
    }
}
