// How many bytes numbers, values and tuples have in a shortest payload. What the first pass keeps for the second stands in specs/Plan.
#![tactic(auto)]

ghost use Rattle.std.specs.Prelude.{◌≡◌, ◌<◌, ◌^◌, length};
ghost use Rattle.numbers.specs.Number.{number_of};
ghost use Rattle.writer_parse.specs.Leaves.{Proper, bytes_for};
ghost use Rattle.writer_sizes.specs.Plan.{tuple_long};
ghost use Rattle.writer_sizes.specs.Met.{Long};

use numbers::{integer_width, number_width};
use writer_parse::Value;

#[tactic(auto, using(crate::proofs::Lengthy::number_lengths))]
pub fn number_long(n: usize) -> usize
    ensures { Long (length (number_of n)) 5 result }
{
    number_width(n) + 1
}

// A tuple whose V has `size` bytes.
#[tactic(auto, using(crate::proofs::Lengthy::tuple_lengths))]
pub fn tuple_long(n: usize, size: usize) -> usize
    requires { (n < 2 ^ 31) × (size < 2 ^ 32) }
    ensures { result ≡ tuple_long n size }
{
    number_long(2 * n) + 1 + number_long(size) + size
}

#[tactic(auto, using(crate::proofs::Lengthy::value_lengths))]
pub fn value_long(s: &[u8], v: Value) -> usize
    requires { Proper s.now v }
    ensures { result ≡ length (bytes_for s.now v) }
{
    match v {
        Value::Null => 0,
        Value::Boolean(_) => 1,
        Value::Integer(i) => integer_width(i),
        Value::Option(m) => number_long(m),
        Value::String(a, b) => b - a + 1,
        Value::Empty(_) => 2,
    }
}
