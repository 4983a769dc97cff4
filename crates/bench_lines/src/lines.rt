// Lines of a reader.
ghost use Rattle.std.specs.Prelude.{◌≡◌, ◌≤◌, ◌<◌, length, IsTrue, IfOk, IfSome, OnErr};
ghost use Rattle.bench_lines.specs.Lined.{bytes_of};

use std::io;
use std::io::Read;

// A line without its line end or, where it is longer than the buffer, its front.
#[derive(Clone, Copy)]
pub enum Line<'a> {
    Whole(&'a [u8]),
    Long(&'a [u8]),
}

// The lines of a reader, in a buffer of one byte more than a line may have: what was read and not yet handed out stands from `rest` up to
// `have`. Where `long` holds, only the front of the last line was handed out. The buffer keeps its length, after an error too.
#[derive(Drop)]
pub struct Lines<'a, R> {
    input: &'a mut R,
    buf: &'a mut [u8],
    rest: usize,
    have: usize,
    long: bool,
    ghost left: { rest ≤ have },
    ghost held: { have ≤ length buf.now },
}

impl<'a, R: Read> Lines<'a, R> {
    // Before the first line.
    pub fn new(input: &'a mut R, buf: &'a mut [u8]) -> Lines<'a, R>
        ensures none { result.have ≡ 0 }
        ensures room { length result.buf.now ≡ length buf.old }
    {
        Lines {
            input,
            buf,
            rest: 0,
            have: 0,
            long: false,
        }
    }

    // The next line; none at the end of input.
    pub fn next_line(&mut self) -> io::Result<Option<Line<'_>>>
        ensures inside { IfOk result (λ found. IfSome found (λ l. length (bytes_of l) ≤ length self.old.buf.now)) }
    {
        let Some((from, end)) = self.advance()? else {
            return Ok(None);
        };
        let line = &self.buf[from..end];
        Ok(Some(if self.long {
            Line::Long(line)
        } else {
            Line::Whole(line)
        }))
    }

    // Where the next line stands in the buffer. All that was read may have no line end: it is too long for the buffer, or "a last line without
    // its line end".
    pub fn advance(&mut self) -> io::Result<Option<(usize, usize)>>
        ensures room { length self.new.buf.now ≡ length self.old.buf.now }
        ensures inside { IfOk result (λ found. IfSome found (λ l. (l.0 ≤ l.1) × (l.1 ≤ self.new.have))) }
    {
        if self.long {
            self.skip()?;
        }
        let found = self.find_end()?;
        let from = self.rest;
        if let Some(end) = found {
            self.rest = end + 1;
            self.long = false;
            return Ok(Some((from, end)));
        }
        self.rest = self.have;
        self.long = self.have == self.buf.len();
        if from == self.have {
            return Ok(None);
        }
        Ok(Some((from, self.have)))
    }

    // The first line end from `from` on.
    fn line_end(&self, from: usize) -> Option<usize>
        requires { from ≤ self.now.have }
        ensures { IfSome result (λ end. (from ≤ end) × (end < self.now.have)) }
    {
        let n = self.buf[from..self.have].iter().position(|c| *c == b'\n')?;
        Some(from + n)
    }

    // Reads once behind what was read, and says whether there was more.
    fn refill(&mut self) -> io::Result<bool>
        ensures room { length self.new.buf.now ≡ length self.old.buf.now }
        ensures rest { self.new.rest ≡ self.old.rest }
        ensures more { IfOk result (λ more. IsTrue more → self.old.have < self.new.have) }
    {
        let have = self.have;
        let n = self.input.read(&mut self.buf[have..])?;
        self.have = have + n;
        Ok(n > 0)
    }

    // The end of the line that is next. Where what was read has none, reads on until there is one, the buffer is full or the input ends.
    fn find_end(&mut self) -> io::Result<Option<usize>>
        ensures room { length self.new.buf.now ≡ length self.old.buf.now }
        ensures inside { IfOk result (λ found. IfSome found (λ end. (self.new.rest ≤ end) × (end < self.new.have))) }
    {
        let rest = self.rest;
        let end = self.line_end(rest);
        if end.is_some() {
            return Ok(end);
        }
        self.buf.copy_within(rest..self.have, 0);
        self.have -= rest;
        self.rest = 0;
        // How much a read gives is the reader's to say.
        while self.have < self.buf.len() {
            let seen = self.have;
            if !self.refill()? {
                break;
            }
            let end = self.line_end(seen);
            if end.is_some() {
                return Ok(end);
            }
        }
        Ok(None)
    }

    // What stands after the end of a line of which the front was handed out.
    fn skip(&mut self) -> io::Result<()>
        ensures { length self.new.buf.now ≡ length self.old.buf.now }
    {
        // A bound, since input may have no end and every function ends.
        for _ in 0..u64::MAX {
            self.rest = 0;
            self.have = 0;
            if !self.refill()? {
                break;
            }
            let rest = self.rest;
            if let Some(end) = self.line_end(rest) {
                self.rest = end + 1;
                break;
            }
        }
        Ok(())
    }
}

// Reads until the buffer is full or the input ends, and answers how many bytes it put in front.
pub fn read_full<R: Read>(input: &mut R, s: &mut [u8]) -> io::Result<usize>
    ensures ok { IfOk result (λ r. r ≤ length s.old) }
    ensures err { OnErr result (length s.new ≡ length s.old) }
{
    let mut have: usize = 0;
    // How much a read gives is the reader's to say.
    while have < s.len() {
        let n = input.read(&mut s[have..])?;
        if n == 0 {
            break;
        }
        have += n;
    }
    Ok(have)
}
