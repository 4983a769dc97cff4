// Output that is gathered for a writer.
ghost use Rattle.std.specs.Prelude.{◌≡◌, ◌+◌, ◌≤◌, ◌<◌, length, OnErr, OnOk};

use crate::TAB;
use crate::fields::part;
use itoa::Buffer;
use std::io;
use std::io::Write;

const NAME_MOST: usize = 255;

// The first `pos` bytes of `out` are gathered and not yet written. The buffer keeps its length, after an error too.
#[derive(Drop)]
pub struct Gathered<'a, W> {
    to: &'a mut W,
    out: &'a mut [u8],
    pos: usize,
    ghost within: { pos ≤ length out.now },
}

impl<'a, W: Write> Gathered<'a, W> {
    // Nothing is gathered yet.
    pub fn new(to: &'a mut W, out: &'a mut [u8]) -> Gathered<'a, W>
        ensures none { result.pos ≡ 0 }
        ensures same_reference { result.out.ghost_name ≡ out.entry.ghost_name }
        ensures same { result.out.now ≡ out.old }
    {
        Gathered { to, out, pos: 0 }
    }

    // Writes what was gathered.
    pub fn send(&mut self) -> io::Result<()>
        ensures same_reference { self.new.out.ghost_name ≡ self.old.out.ghost_name }
        ensures same { self.new.out.now ≡ self.old.out.now }
        ensures none { OnOk result (self.new.pos ≡ 0) }
        ensures err { OnErr result (self.new.pos ≡ self.old.pos) }
    {
        write_front(self.to, self.out, self.pos)?;
        self.pos = 0;
        Ok(())
    }

    // Gathers what has room behind `pos`. The codec's `Output` promises bytes, this lengths and a place: the bench stands on no crate of the codec.
    fn put(&mut self, s: &[u8])
        requires { self.old.pos + length s.now ≤ length self.old.out.now }
        ensures same_reference { self.new.out.ghost_name ≡ self.old.out.ghost_name }
        ensures room { length self.new.out.now ≡ length self.old.out.now }
        ensures pos { self.new.pos ≡ self.old.pos + length s.now }
    {
        let pos = self.pos;
        let end = pos + s.len();
        self.out[pos..end].copy_from_slice(s);
        self.pos = end;
    }

    // Gathers more output. What was gathered is written first where there is no room behind it; where that fails, the buffer is as it was.
    pub fn add(&mut self, s: &[u8]) -> io::Result<()>
        ensures same_reference { self.new.out.ghost_name ≡ self.old.out.ghost_name }
        ensures room { length self.new.out.now ≡ length self.old.out.now }
        ensures err { OnErr result (self.new.out.now ≡ self.old.out.now) }
        ensures none_more { OnErr result (self.new.pos ≤ self.old.pos) }
    {
        if s.len() > self.out.len() - self.pos {
            self.send()?;
            if s.len() > self.out.len() {
                return self.to.write_all(s);
            }
        }
        self.put(s);
        Ok(())
    }

    // The first n bytes, or all where there are fewer.
    pub fn add_front(&mut self, s: &[u8], n: usize) -> io::Result<()>
        ensures same_reference { self.new.out.ghost_name ≡ self.old.out.ghost_name }
        ensures room { length self.new.out.now ≡ length self.old.out.now }
        ensures err { OnErr result (self.new.out.now ≡ self.old.out.now) }
        ensures none_more { OnErr result (self.new.pos ≤ self.old.pos) }
    {
        self.add(&s[..n.min(s.len())])
    }

    pub fn add_decimal(&mut self, n: u64) -> io::Result<()>
        ensures same_reference { self.new.out.ghost_name ≡ self.old.out.ghost_name }
        ensures room { length self.new.out.now ≡ length self.old.out.now }
        ensures err { OnErr result (self.new.out.now ≡ self.old.out.now) }
        ensures none_more { OnErr result (self.new.pos ≤ self.old.pos) }
    {
        self.add(Buffer::new().format(n).as_bytes())
    }

    // The first n bytes in hex, or all where there are fewer.
    pub fn add_hex(&mut self, s: &[u8], n: usize) -> io::Result<()>
        ensures same_reference { self.new.out.ghost_name ≡ self.old.out.ghost_name }
        ensures room { length self.new.out.now ≡ length self.old.out.now }
    {
        for x in &s[..n.min(s.len())] {
            self.add(&[glyph(*x / 16), glyph(*x % 16)])?;
        }
        Ok(())
    }

    // The line's name and a tab.
    pub fn add_name(&mut self, line: &[u8]) -> io::Result<()>
        ensures same_reference { self.new.out.ghost_name ≡ self.old.out.ghost_name }
        ensures room { length self.new.out.now ≡ length self.old.out.now }
    {
        self.add(part(line, TAB, 0))?;
        self.add(b"\t")
    }

    // "a malformed or over-long line answers its name (or what stands before the first tab, at most 255 bytes of it), a tab and `?`"
    pub fn add_malformed(&mut self, line: &[u8]) -> io::Result<()>
        ensures same_reference { self.new.out.ghost_name ≡ self.old.out.ghost_name }
        ensures room { length self.new.out.now ≡ length self.old.out.now }
    {
        self.add_front(part(line, TAB, 0), NAME_MOST)?;
        self.add(b"\t?\n")
    }
}

// Borrowed as `&`, a field's buffer would be unknown afterwards.
fn write_front<W: Write>(to: &mut W, out: &mut [u8], pos: usize) -> io::Result<()>
    requires { pos ≤ length out.old }
    ensures { out.new ≡ out.old }
{
    to.write_all(&out[..pos])
}

fn glyph(d: u8) -> u8
    requires { d < 16 }
{
    if d < 10 { b'0' + d } else { b'a' + (d - 10) }
}
