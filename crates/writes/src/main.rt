// Runs a case file of the writer on standard input: one case a line, fields parted by tabs (name, dictionary hex, text hex, room of the output
// buffer), and writes name, number, and the payload in hex or, refused, the place.
#![tactic(auto)]

use bench_cases::Way;
use bench_lines::PAYLOAD_ROOM;
use std::io;

fn main(rt: HostRuntime) -> io::Result<()> {
    let mut payload = [0u8; PAYLOAD_ROOM];
    bench_cases::run_file(&mut rt.stdin(), &mut rt.stdout(), Way::Write, &mut payload)
}
