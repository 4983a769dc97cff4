// Runs a script of one desk, line by line; docs/BENCH.md has its form. The desk is fresh and the store all zeros at first; a malformed line
// answers `?`, and an empty one nothing. An error is the reader's or the writer's own, and the program ends with it.
#![tactic(auto)]

use bench_lines::{BUFFER_ROOM, Gathered, HEX_ROOM, Line, Lines};
use bench_script::{Call, told};
use desk::{Desk, Moved};
use desk_records::Finish;
use paper::STORE_BYTES;
use std::io;
use std::io::{Read, Write};

// A desk, the bytes of its operations, room for a fed piece, and what was told. The arrays are its own: a part of a lent slice beside a field
// with a fact isn't covered by the check.
#[derive(Drop)]
struct Talk<'a, W> {
    desk: Desk,
    store: [u8; STORE_BYTES],
    piece: [u8; HEX_ROOM],
    out: Gathered<'a, W>,
}

impl<'a, W: Write> Talk<'a, W> {
    // Answers every line.
    fn run<R: Read>(&mut self, lines: &mut Lines<'_, R>) -> io::Result<()> {
        // A bound, since input may have no end and every function ends.
        for _ in 0..u64::MAX {
            match lines.next_line()? {
                Some(line) => self.answer(line)?,
                None => break,
            }
        }
        self.out.send()
    }

    // An over-long line is malformed, and an empty one is passed over.
    fn answer(&mut self, line: Line<'_>) -> io::Result<()> {
        let call = match line {
            Line::Whole(b"") => return Ok(()),
            Line::Whole(line) => bench_script::call_of(line, &mut self.piece),
            Line::Long(_) => None,
        };
        match call {
            Some(call) => self.perform(call)?,
            None => self.out.add(b"?")?,
        }
        self.out.add(b"\n")
    }

    // Makes the call that a line asks for, and tells what it answers.
    fn perform(&mut self, call: Call) -> io::Result<()> {
        let desk = self.desk;
        let moved = match call {
            Call::Open(n, kind, declared) => desk.open(n, kind, declared),
            // the piece is the front of its buffer
            Call::Feed(n, count) => {
                let end = count.min(self.piece.len());
                desk.feed(&mut self.store, n, &self.piece[..end])
            }
            Call::Start(n) => desk.start(n),
            Call::Failed(n) => desk.finish(n, Finish::Failed),
            Call::Good(n, results) => desk.finish(n, Finish::Good(results)),
            Call::Take(n, amount) => desk.take(n, amount),
            Call::Kill(n) => desk.kill(n),
            Call::Close(n) => desk.close(n),
            Call::Desk(desk) => Moved {
                desk,
                answer: Ok(()),
            },
            Call::Status(n) => return told::add_status(&mut self.out, desk.status(n)),
            Call::List => return told::add_list(&mut self.out, desk.list()),
            Call::Show => return told::add_desk(&mut self.out, desk),
            Call::Bytes(n) => return told::add_received(&mut self.out, desk, &self.store, n),
        };
        self.desk = moved.desk;
        match moved.answer {
            Ok(()) => self.out.add(b"0"),
            Err(k) => self.out.add_decimal(u64::from(k.number())),
        }
    }
}

fn main(rt: HostRuntime) -> io::Result<()> {
    let mut input = rt.stdin();
    let mut to = rt.stdout();
    let mut buf = [0u8; BUFFER_ROOM];
    let mut out = [0u8; BUFFER_ROOM];
    let mut talk = Talk {
        desk: Desk::fresh(),
        store: [0; STORE_BYTES],
        piece: [0; HEX_ROOM],
        out: Gathered::new(&mut to, &mut out),
    };
    talk.run(&mut Lines::new(&mut input, &mut buf))
}
