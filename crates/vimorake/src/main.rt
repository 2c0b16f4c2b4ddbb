// The program: the file `plan`, draws from standard input, one line to standard output (rules 9).
#![tactic(auto)]

use console::line::LINE_BUFFER;
use console::program::{PLAN_BUFFER, load, serve};

fn main(rt: HostRuntime) {
    let mut words = [0u64; 7690];
    let mut stored = [0u8; PLAN_BUFFER];
    let mut line = [0u8; LINE_BUFFER];
    let mut input = rt.stdin();
    let k = load(&rt, b"plan", &mut stored);
    let n = serve(&stored[..k], &mut input, &mut words, &mut line);
    // A line that cannot be written is no line: the status stays 0.
    let _ = Print::write_all(&rt, &line[..n]);
}
