// Fields of a line, parted by one byte.
ghost use Rattle.std.specs.Prelude.{◌≡◌};
ghost use Rattle.bench_lines.specs.Fields.{field};
ghost use Rattle.bench_lines.specs.Met.{Counts};

// How many separators a line has: one fewer than parts.
pub fn separators(s: &[u8], x: u8) -> usize
    ensures { Counts s.now x result }
{
    s.iter().filter(|c| **c == x).count()
}

// The part after so many separators, empty where the line has fewer.
pub fn part(s: &[u8], x: u8, k: usize) -> &[u8]
    ensures { result.now ≡ field x k s.now }
{
    s.split(|c| *c == x).nth(k).unwrap_or(&[])
}
