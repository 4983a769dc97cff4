// What is written: bytes, numbers and integers, each behind what was written before.
ghost use Rattle.std.specs.Prelude.{[], ◌∷◌, ◌+◌, ◌≤◌, ◌<◌, length};
ghost use Rattle.numbers.specs.Bytes.{lowest};
ghost use Rattle.numbers.specs.Number.{number_of};
ghost use Rattle.numbers.specs.Integer.{Held, brief_of};
ghost use Rattle.numbers.specs.Decimal.{decimal, decimal_of};
ghost use Rattle.numbers.specs.Met.{Wrote};
ghost use Rattle.numbers.specs.Output.{Room, Added};

use crate::{Integer, clear_width, number_width};
use paper::lent::copy;

// A lent buffer, and the place up to which it is written.
#[derive(Drop)]
pub struct Output<'a> {
    pub buf: &'a mut [u8],
    pub pos: usize,
}

#[tactic(auto, using(crate::proofs::Writing::one))]
fn digit_at(buf: &mut [u8], pos: usize, x: u8) -> usize
    requires { pos < length buf.old }
    ensures { Wrote buf.old pos (x ∷ []) result buf.new }
{
    buf[pos] = x;
    pos + 1
}

// By a place that goes from call to call: in an output each digit would wait for the place that the one before it stored.
fn digits_at(buf: &mut [u8], pos: usize, n: u64) -> usize
    requires { pos + length (decimal n) ≤ length buf.old }
    ensures { Wrote buf.old pos (decimal n) result buf.new }
{
    if n < 10 {
        digit_at(buf, pos, b'0' + n as u8)
    } else {
        let next = digits_at(buf, pos, n / 10);
        digit_at(buf, next, b'0' + (n % 10) as u8)
    }
}

impl Output<'_> {
    #[tactic(auto, using(crate::proofs::Writing::one))]
    pub fn put(&mut self, x: u8)
        requires { Room self.old (x ∷ []) }
        ensures { Added self.old (x ∷ []) self.new }
    {
        self.buf[self.pos] = x;
        self.pos += 1;
    }

    #[tactic(auto, using(crate::proofs::Writing::copied))]
    pub fn put_bytes(&mut self, t: &[u8])
        requires { Room self.old t.now }
        ensures { Added self.old t.now self.new }
    {
        let end = self.pos + t.len();
        copy(&mut self.buf[self.pos..end], t);
        self.pos = end;
    }

    // The k lowest bytes of n, the least first. A byte by `as`, proved to fit: TryFrom would ask what to do where it doesn't.
    pub fn put_lowest(&mut self, n: u64, k: usize)
        requires { Room self.old (lowest k n) }
        ensures { Added self.old (lowest k n) self.new }
    {
        let mut x = n;
        for _ in 0..k {
            self.put((x % 256) as u8);
            x /= 256;
        }
    }

    pub fn put_number(&mut self, n: usize)
        requires { Room self.old (number_of n) }
        ensures { Added self.old (number_of n) self.new }
    {
        let w = number_width(n);
        self.put(w as u8);
        self.put_lowest(n as u64, w);
    }

    // Complemented bytes are the bytes of the complement.
    pub fn put_integer(&mut self, i: Integer)
        requires held { Held i }
        requires has_room { Room self.old (brief_of i) }
        ensures { Added self.old (brief_of i) self.new }
    {
        match i {
            Integer::Plus(n) => self.put_lowest(n, clear_width(n)),
            Integer::Minus(n) => self.put_lowest(!n, clear_width(n)),
        }
    }

    #[tactic(auto, using(crate::proofs::Adding::written))]
    fn put_digits(&mut self, n: u64)
        requires { Room self.old (decimal n) }
        ensures { Added self.old (decimal n) self.new }
    {
        self.pos = digits_at(self.buf, self.pos, n);
    }

    pub fn put_decimal(&mut self, i: Integer)
        requires held { Held i }
        requires has_room { Room self.old (decimal_of i) }
        ensures { Added self.old (decimal_of i) self.new }
    {
        match i {
            Integer::Plus(n) => self.put_digits(n),
            Integer::Minus(n) => {
                self.put(b'-');
                self.put_digits(n + 1);
            }
        }
    }
}
