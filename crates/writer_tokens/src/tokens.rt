// The token at a place, and the spaces before it.
ghost use Rattle.std.specs.Prelude.{◌≡◌, ◌+◌, ◌≤◌, ◌<◌, length};
ghost use Rattle.std.proofs.Math.Seq.{slice};
ghost use Rattle.payload.specs.Strings.{string_byte};
ghost use Rattle.text.specs.Tokens.{space, word_byte};
ghost use Rattle.text.specs.Scanning.{past, string_at, numeral_at, word_at};
ghost use Rattle.writer_tokens.specs.Met.{Passed, meant, Scanned};

use crate::Token;
use crate::bytes::{run_end, sign_byte, space_byte, word_byte};
use crate::numerals::{is_integral, is_numeral};
use paper::{Refusal, Refused};
use payload::strings::string_byte;

// The place of the first byte from `at` on that is no space, or the end. Most often a token begins there at once.
pub fn skip(s: &[u8], at: usize) -> usize
    requires { at ≤ length s.now }
    ensures { Passed space s.now at result }
{
    if at < s.len() && s[at] > b' ' {
        return at;
    }
    run_end(s, at, space_byte)
}

// "a string read byte by byte to its quote"
#[inline(always)]
fn string_at(s: &[u8], at: usize) -> Result<Token, Refused>
    requires { at < length s.now }
    ensures { string_at s.now at (past string_byte s.now (at + 1)) ≡ meant s.now at result }
{
    let q = run_end(s, at + 1, string_byte);
    match s.get(q) {
        Some(b'"') => Ok(Token::String(q)),
        Some(_) => Err(Refusal::BadText.at(at)),
        None => Err(Refusal::BadText.at(q)),
    }
}

// "the longest run of letters, digits and `+-.`, or else one byte"
#[inline(never)]
fn word_at(s: &[u8], at: usize) -> Result<Token, Refused>
    requires { at < length s.now }
    ensures { word_at (slice at (past word_byte s.now at) s.now) at (past word_byte s.now at) ≡ meant s.now at result }
{
    let q = run_end(s, at, word_byte);
    match &s[at..q] {
        b"null" => Ok(Token::Null(q)),
        b"true" => Ok(Token::Boolean(true, q)),
        b"false" => Ok(Token::Boolean(false, q)),
        w if is_integral(w) => Ok(Token::Integer(q)),
        w if is_numeral(w) => Ok(Token::Real(q)),
        _ => Err(Refusal::BadText.at(at)),
    }
}

// The token whose first byte stands at `at`. Inlined where it is asked for: most tokens are signs, and are one byte there.
#[inline(always)]
pub fn token_at(s: &[u8], at: usize) -> Result<Token, Refused>
    ensures { Scanned s.now at result }
{
    match s.get(at) {
        Some(&c) if sign_byte(c) => Ok(Token::Sign(c)),
        Some(b'"') => string_at(s, at),
        Some(_) => word_at(s, at),
        None => Err(Refusal::BadText.at(s.len())),
    }
}
