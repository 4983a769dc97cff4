// The bytes of a desk (specs/Bytes.antt): read and written.
#![tactic(auto)]

ghost use Rattle.std.specs.Prelude.{◌≡◌, ◌+◌, ◌≤◌, length, drop};
ghost use Rattle.numbers.specs.Output.{Room, Added};
ghost use Rattle.desk_bytes.specs.Bytes.{record_bytes, decode_record, encode_record, decode};
ghost use Rattle.desk_bytes.specs.Coded.{Spells, Encoded};

use desk::Desk;
use desk_records::Record;
use numbers::little_at;
use numbers::output::Output;
use paper::DESK_MOST;
use std::array;

const RECORD_BYTES: usize = 16;

const DESK_BYTES: usize = DESK_MOST * RECORD_BYTES;

// The number in so many bytes from `at` on. A field is cut and widened by `as`, proved to fit: with
// u64::from the return of `put_record` was not found.
fn field(s: &[u8], at: usize, width: usize) -> u64
    requires { (width ≤ 4) × (at + width ≤ length s.now) }
    ensures { Spells s.now at width result }
{
    little_at(s, at, at + width, false)
}

fn record_at(s: &[u8], at: usize) -> Record
    requires { at + record_bytes ≤ length s.now }
    ensures { result ≡ decode_record (drop at s.now) }
{
    Record {
        number: field(s, at, 2) as u16,
        kind: field(s, at + 2, 1) as u8,
        state: field(s, at + 3, 1) as u8,
        declared: field(s, at + 4, 4) as u32,
        received: field(s, at + 8, 4) as u32,
        due: field(s, at + 12, 4) as u32,
    }
}

// "Its records are eight": the desk in 128 bytes.
pub fn decode(s: &[u8]) -> Option<Desk>
    ensures { result ≡ decode s.now }
{
    if s.len() != DESK_BYTES {
        return None;
    }
    Some(Desk {
        records: array::from_fn(|i| record_at(s, RECORD_BYTES * i)),
    })
}

fn put_record(out: &mut Output, r: Record)
    requires { Room out.old (encode_record r) }
    ensures { Added out.old (encode_record r) out.new }
{
    out.put_lowest(r.number as u64, 2);
    out.put_lowest(r.kind as u64, 1);
    out.put_lowest(r.state as u64, 1);
    out.put_lowest(r.declared as u64, 4);
    out.put_lowest(r.received as u64, 4);
    out.put_lowest(r.due as u64, 4);
}

// Writes the desk's 128 bytes; a buffer of another length is left as it is.
pub fn encode(d: Desk, out: &mut [u8]) -> bool
    ensures { Encoded d out.old result out.new }
{
    if out.len() != DESK_BYTES {
        return false;
    }
    let mut o = Output { buf: out, pos: 0 };
    for r in d.records {
        put_record(&mut o, r);
    }
    true
}
