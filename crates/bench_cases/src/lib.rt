// Runs a case file on standard input: one case a line, fields parted by tabs (docs/BENCH.md). The programs differ in which of reader and writer
// answers. An error is the reader's or the writer's own.
#![tactic(auto)]

ghost use Rattle.std.specs.Prelude.{◌≡◌, length, OnErr};

use bench_lines::{BUFFER_ROOM, Gathered, HEX_ROOM, Line, Lines, read_case};
use paper::{Done, Refused};
use std::io;
use std::io::{Read, Write};

// Which way a case goes: payload to text with the number for a budget, or text to payload with the number for room. An enum, since it
// decides at two places, the call and how its result is told.
#[derive(Clone, Copy)]
pub enum Way {
    Read,
    Write,
}

// Room for what a case says, and for its result.
#[derive(Drop)]
struct Room<'a> {
    dictionary: [u8; HEX_ROOM],
    bytes: [u8; HEX_ROOM],
    res: &'a mut [u8],
}

impl Room<'_> {
    // What a well-formed line's case answers. Room for more bytes than the buffer has is cut to the buffer.
    fn answered(&mut self, way: Way, line: &[u8]) -> Option<Result<Done, Refused>> {
        let case = read_case(line, &mut self.dictionary, &mut self.bytes)?;
        let dictionary = &self.dictionary[..case.dictionary];
        let bytes = &self.bytes[..case.bytes];
        let number = case.number as usize;
        Some(match way {
            Way::Read => reader::read(dictionary, bytes, number, self.res),
            Way::Write => {
                let room = number.min(self.res.len());
                writer::write(dictionary, bytes, &mut self.res[..room])
            }
        })
    }

    // The number, and the result or, refused, the place. A text is told as it is, a payload in hex.
    fn tell<W: Write>(
        &self,
        out: &mut Gathered<'_, W>,
        way: Way,
        answer: Result<Done, Refused>,
    ) -> io::Result<()> {
        match answer {
            Ok(done) => {
                out.add(b"0")?;
                out.add(b"\t")?;
                match way {
                    Way::Read => out.add_front(self.res, done.length),
                    Way::Write => out.add_hex(self.res, done.length),
                }
            }
            Err(r) => {
                out.add_decimal(u64::from(r.refusal.number()))?;
                out.add(b"\t")?;
                out.add_decimal(r.place as u64)
            }
        }
    }

    // An over-long line is malformed, and an empty one is passed over.
    fn answer<W: Write>(
        &mut self,
        out: &mut Gathered<'_, W>,
        way: Way,
        line: Line<'_>,
    ) -> io::Result<()> {
        let line = match line {
            Line::Whole(b"") => return Ok(()),
            Line::Whole(line) => line,
            Line::Long(front) => return out.add_malformed(front),
        };
        let Some(answer) = self.answered(way, line) else {
            return out.add_malformed(line);
        };
        out.add_name(line)?;
        self.tell(out, way, answer)?;
        out.add(b"\n")
    }

    // Answers every line.
    fn run<R: Read, W: Write>(
        &mut self,
        lines: &mut Lines<'_, R>,
        out: &mut Gathered<'_, W>,
        way: Way,
    ) -> io::Result<()> {
        // A bound, since input may have no end and every function ends.
        for _ in 0..u64::MAX {
            match lines.next_line()? {
                Some(line) => self.answer(out, way, line)?,
                None => break,
            }
        }
        out.send()
    }
}

// Answers the input's lines to the writer; the buffer has room for the longest result. After an error it still has.
pub fn run_file<R: Read, W: Write>(
    input: &mut R,
    to: &mut W,
    way: Way,
    res: &mut [u8],
) -> io::Result<()>
    ensures { OnErr result (length res.new ≡ length res.old) }
{
    let mut buf = [0u8; BUFFER_ROOM];
    let mut out = [0u8; BUFFER_ROOM];
    let mut room = Room {
        dictionary: [0; HEX_ROOM],
        bytes: [0; HEX_ROOM],
        res,
    };
    let mut lines = Lines::new(input, &mut buf);
    let mut gathered = Gathered::new(to, &mut out);
    room.run(&mut lines, &mut gathered, way)
}
