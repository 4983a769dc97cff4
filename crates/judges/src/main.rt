// Reads one dictionary in hex on standard input and says whether it is accepted. Spaces and line ends between digits are passed over. An error
// is the reader's or the writer's own, and the program ends with it.
#![tactic(auto)]

ghost use Rattle.std.specs.Prelude.{◌≤◌, length};

use std::io;
use std::io::Write;

// More digits and spaces than any dictionary needs; the bytes of that many digits all have room, so that too long a dictionary is not
// accepted and no hex is told from it.
const INPUT_ROOM: usize = 262144;

const BYTES_ROOM: usize = 131072;

// The bench's spaces, which need not be those of a text.
fn is_space(c: u8) -> bool {
    matches!(c, b' ' | b'\n' | b'\r' | b'\t')
}

// In place, so that no second buffer is needed: moves those of the first `have` bytes together that are neither space nor line end, and answers how many they are.
fn squeeze(s: &mut [u8], have: usize) -> usize
    requires { have ≤ length s.old }
    ensures { result ≤ length s.old }
{
    let mut n = 0;
    for i in 0..have {
        let c = s[i];
        if !is_space(c) {
            s[n] = c;
            n += 1;
        }
    }
    n
}

fn say<W: Write>(to: &mut W, digits: &[u8], bytes: &mut [u8]) -> io::Result<()> {
    to.write_all(match bench_lines::unhex(digits, bytes) {
        None => b"?\n",
        Some(n) if checker::accepts(&bytes[..n]) => b"accepted\n",
        Some(_) => b"not accepted\n",
    })
}

fn main(rt: HostRuntime) -> io::Result<()> {
    let mut input = [0u8; INPUT_ROOM];
    let mut bytes = [0u8; BYTES_ROOM];
    let have = bench_lines::read_full(&mut rt.stdin(), &mut input)?;
    let n = squeeze(&mut input, have);
    say(&mut rt.stdout(), &input[..n], &mut bytes)
}
