// Runs document 01's case file on standard input: "one case a line, fields parted by tabs (name, dictionary hex, payload hex, budget), and
// writes name, number, and the text or, refused, the place".
#![tactic(auto)]

use bench_cases::Way;
use paper::TEXT_MOST;
use std::io;

// "the output buffer has 65,535 bytes"
fn main(rt: HostRuntime) -> io::Result<()> {
    let mut text = [0u8; TEXT_MOST];
    bench_cases::run_file(&mut rt.stdin(), &mut rt.stdout(), Way::Read, &mut text)
}
