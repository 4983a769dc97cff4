// Numbers and integers, between bytes and decimal text. What they mean stands in specs/.
#![tactic(auto)]

pub mod output;

ghost use Rattle.std.specs.Prelude.{◌≡◌, true, ◌+◌, ◌^◌, ◌≤◌, ◌<◌, length};
ghost use Rattle.std.proofs.Math.Seq.{slice};
ghost use Rattle.paper.specs.Limits.{integer_least, integer_most, number_most};
ghost use Rattle.numbers.specs.Number.{found, fewest};
ghost use Rattle.numbers.specs.Integer.{Held, clear, brief_of};
ghost use Rattle.numbers.specs.Decimal.{decimal, decimal_of, digits_only, integral, value_from, integer_said};
ghost use Rattle.numbers.specs.Met.{Widened, turned_byte, Summed, NumberMet, Standing, Taken, IntegerMet, plus_said, minus_said, next, capped, too_large, digit_count};

use paper::{NUMBER_LEAST, NUMBER_MOST, Refusal};

// A number that stands at a place, with the width N of its bytes.
#[derive(Clone, Copy, PartialEq, Eq)]
pub struct Number {
    pub value: usize,
    pub width: usize,
}

// Plus(n) is n, and Minus(n) is -1 - n. Any n at all: the definitions speak of integers that 8 bytes don't hold beside those that they do (`Held`).
#[derive(Clone, Copy, PartialEq, Eq)]
pub enum Integer {
    Plus(u64),
    Minus(u64),
}

// 2 to the 63: the least number that no integer is, but with a sign
const HALF: u64 = 9223372036854775808;

// A byte, complemented in a negative integer.
fn turn(x: u8, minus: bool) -> u64
    ensures { Widened (turned_byte minus x) result }
{
    u64::from(if minus { !x } else { x })
}

// From the highest byte down, so that no power of 256 is kept.
pub fn little_at(s: &[u8], at: usize, end: usize, minus: bool) -> u64
    requires { (at ≤ end) × (end ≤ at + 8) × (end ≤ length s.now) }
    ensures { Summed s.now at end minus result }
{
    let mut n: u64 = 0;
    for i in (at..end).rev() {
        n = n * 256 + turn(s[i], minus);
    }
    n
}

// "In a number, N is judged before its bytes". A part is told by its places, here and above, since a refusal tells one.
#[tactic(auto, using(crate::proofs::Reading::found_rules))]
pub fn number_at(s: &[u8], at: usize, end: usize) -> Result<Number, Refusal>
    requires { end ≤ length s.now }
    ensures { NumberMet s.now at end (found result) }
{
    if end <= at {
        return Err(Refusal::PastEnd);
    }
    let width = usize::from(s[at]);
    if width < NUMBER_LEAST || NUMBER_MOST < width {
        return Err(Refusal::WidthWrong);
    }
    if end - (at + 1) < width {
        return Err(Refusal::PastEnd);
    }
    Ok(Number {
        value: number_value(s, at),
        width,
    })
}

// The value of a number that is known to be well formed: nothing is judged. Its width is its first byte. Most have one.
#[tactic(auto, using(crate::proofs::Reading::taken_rules))]
pub fn number_value(s: &[u8], at: usize) -> usize
    requires { Standing s.now at }
    ensures { Taken s.now at result }
{
    let from = at + 1;
    let width = usize::from(s[at]);
    if width == 1 {
        usize::from(s[from])
    } else {
        little_at(s, from, from + width, false) as usize
    }
}

pub fn integer_at(s: &[u8], at: usize, end: usize) -> Integer
    requires { (at + integer_least ≤ end) × (end ≤ at + integer_most) × (end ≤ length s.now) }
    ensures { IntegerMet (slice at end s.now) result }
{
    if s[end - 1] < 128 {
        Integer::Plus(little_at(s, at, end, false))
    } else {
        Integer::Minus(little_at(s, at, end, true))
    }
}

// Tests and no loop: most are one byte.
#[tactic(auto, using(crate::proofs::Putting::width_rules))]
pub fn number_width(n: usize) -> usize
    ensures { result ≡ length (fewest number_most n) }
{
    match n {
        0..256 => 1,
        256..65536 => 2,
        65536..16777216 => 3,
        _ => NUMBER_MOST,
    }
}

// How many digits n has to the base BASE, if the highest has to be below TOP. The loop goes by what is left, not by a count.
fn digit_count<const TOP: u64, const BASE: u64>(n: u64) -> usize
    requires { (2 ≤ TOP) × (2 ≤ BASE) }
    ensures { result ≡ digit_count TOP BASE n }
{
    let mut x = n;
    let mut k: usize = 1;
    while TOP <= x {
        x /= BASE;
        k += 1;
    }
    k
}

// How many bytes n has whose top bit is clear.
#[tactic(auto, using(crate::proofs::Putting::clear_counted))]
fn clear_width(n: u64) -> usize
    requires { n < 2 ^ 63 }
    ensures { result ≡ length (clear integer_most n) }
{
    digit_count::<128, 256>(n)
}

#[tactic(auto, using(crate::proofs::Putting::brief_rules))]
pub fn integer_width(i: Integer) -> usize
    requires { Held i }
    ensures { result ≡ length (brief_of i) }
{
    match i {
        Integer::Plus(n) | Integer::Minus(n) => clear_width(n),
    }
}

#[tactic(auto, using(crate::proofs::Texts::decimal_counted))]
fn digits_length(n: u64) -> usize
    ensures { result ≡ length (decimal n) }
{
    digit_count::<10, 10>(n)
}

pub fn decimal_length(i: Integer) -> usize
    requires { Held i }
    ensures { result ≡ length (decimal_of i) }
{
    match i {
        Integer::Plus(n) => digits_length(n),
        Integer::Minus(n) => digits_length(n + 1) + 1,
    }
}

// One digit more. What is too large for any integer stays at the least that is: it neither wraps nor comes back.
fn next_value(n: u64, c: u8) -> u64
    requires { (n ≤ too_large) × (48 ≤ c) × (c ≤ 57) }
    ensures { result ≡ capped (next n c) }
{
    if n <= HALF / 10 {
        n * 10 + u64::from(c - b'0')
    } else {
        HALF + 1
    }
}

fn value_at(s: &[u8], at: usize, end: usize) -> u64
    requires { (at ≤ end) × (end ≤ length s.now) × (digits_only (slice at end s.now) ≡ true) }
    ensures { result ≡ capped (value_from 0 (slice at end s.now)) }
{
    let mut n: u64 = 0;
    for c in &s[at..end] {
        n = next_value(n, *c);
    }
    n
}

fn plus_said(n: u64) -> Option<Integer>
    ensures { result ≡ plus_said n }
{
    if n < HALF {
        Some(Integer::Plus(n))
    } else {
        None
    }
}

// "`-0` is 10."
fn minus_said(n: u64) -> Option<Integer>
    ensures { result ≡ minus_said n }
{
    match n {
        0 => None,
        1..=HALF => Some(Integer::Minus(n - 1)),
        _ => None,
    }
}

// The integer that a text says, or none: it is -0, or 8 bytes don't hold it.
#[tactic(auto, using(crate::proofs::Texts::said_rules))]
pub fn integer_said(s: &[u8], at: usize, end: usize) -> Option<Integer>
    requires { (at < end) × (end ≤ length s.now) × (integral (slice at end s.now) ≡ true) }
    ensures { result ≡ integer_said (slice at end s.now) }
{
    if s[at] == b'-' {
        minus_said(value_at(s, at + 1, end))
    } else {
        plus_said(value_at(s, at, end))
    }
}
