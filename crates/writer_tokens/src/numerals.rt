// The numbers of RFC 8259, section 6.
ghost use Rattle.std.specs.Prelude.{◌≡◌};
ghost use Rattle.numbers.specs.Decimal.{plain, integral};
ghost use Rattle.text.specs.Numerals.{some_digits, exponent, fraction, numeral};

use crate::bytes::{digits_only, integer_byte, leading, leading_digits};

// 0, or digits of which the first is not 0.
#[tactic(auto, using(crate::proofs::Grammar::plains))]
fn is_plain(w: &[u8]) -> bool
    ensures { result ≡ plain w.now }
{
    match w {
        [b'0'] => true,
        [b'1'..=b'9', rest @ ..] => digits_only(rest),
        _ => false,
    }
}

#[tactic(auto, using(crate::proofs::Grammar::integrals))]
pub fn is_integral(w: &[u8]) -> bool
    ensures { result ≡ integral w.now }
{
    match w {
        [b'-', rest @ ..] => is_plain(rest),
        _ => is_plain(w),
    }
}

fn some_digits(w: &[u8]) -> bool
    ensures { result ≡ some_digits w.now }
{
    !w.is_empty() && digits_only(w)
}

// ([eE] [+-]? [0-9]+)?
#[tactic(auto, using(crate::proofs::Grammar::exponents))]
fn is_exponent(w: &[u8]) -> bool
    ensures { result ≡ exponent w.now }
{
    match w {
        [] => true,
        [b'e' | b'E', b'+' | b'-', digits @ ..] => some_digits(digits),
        [b'e' | b'E', digits @ ..] => some_digits(digits),
        _ => false,
    }
}

// (. [0-9]+)? and what may follow it
#[tactic(auto, using(crate::proofs::Grammar::fractions))]
fn is_fraction(w: &[u8]) -> bool
    ensures { result ≡ fraction w.now }
{
    match w {
        [b'.', rest @ ..] => {
            let (digits, after) = rest.split_at(leading_digits(rest));
            !digits.is_empty() && is_exponent(after)
        }
        _ => is_exponent(w),
    }
}

pub fn is_numeral(w: &[u8]) -> bool
    ensures { result ≡ numeral w.now }
{
    let (front, rest) = w.split_at(leading(w, integer_byte));
    is_integral(front) && is_fraction(rest)
}
