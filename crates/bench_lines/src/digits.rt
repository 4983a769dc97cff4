// Hex and decimal.
ghost use Rattle.std.specs.Prelude.{◌≤◌};
ghost use Rattle.bench_lines.specs.Digits.{decimal_most};
ghost use Rattle.bench_lines.specs.Fields.{field};
ghost use Rattle.bench_lines.specs.Met.{Pair, Valued, Spelt};

use crate::fields::part;

// What a text of decimal digits says, up to `most`.
pub fn number(s: &[u8], most: u64) -> Option<u64>
    requires { most ≤ decimal_most }
    ensures { Valued s.now most result }
{
    if s.is_empty() {
        return None;
    }
    let mut n = 0;
    for c in s {
        n = n * 10 + u64::from(char::from(*c).to_digit(10)?);
        if n > most {
            return None;
        }
    }
    Some(n)
}

// The byte that two hex digits say.
fn hex_pair(a: u8, b: u8) -> Option<u8>
    ensures { Pair a b result }
{
    let high = char::from(a).to_digit(16)?;
    let low = char::from(b).to_digit(16)?;
    Some((high * 16 + low) as u8)
}

// Puts the bytes that a hex text says in front, and answers how many they are.
pub fn unhex(s: &[u8], out: &mut [u8]) -> Option<usize>
    ensures { Spelt s.now out.old result out.new }
{
    let n = s.len() / 2;
    if s.len() % 2 != 0 || n > out.len() {
        return None;
    }
    // By place: two digits for each byte.
    for i in 0..n {
        out[i] = hex_pair(s[2 * i], s[2 * i + 1])?;
    }
    Some(n)
}

// What the part after so many separators says in hex.
pub fn unhex_part(line: &[u8], x: u8, k: usize, out: &mut [u8]) -> Option<usize>
    ensures { Spelt (field x k line.now) out.old result out.new }
{
    unhex(part(line, x, k), out)
}

// The number that the part after so many separators says.
pub fn number_part(line: &[u8], x: u8, k: usize, most: u64) -> Option<u64>
    requires { most ≤ decimal_most }
    ensures { Valued (field x k line.now) most result }
{
    number(part(line, x, k), most)
}
