// The trials that are run (rules 11.2), and the program's other ends: each a run on a plan and an input of data/, one line for each.

#![tactic(auto)]

use bucket_test::drawing::{begin, draw};
use console::line::{LINE_BUFFER, last_line};
use console::program::{PLAN_BUFFER, load, serve};
use std::fs;
use std::rt::Files;
use stored_plan::reading::read_plan;
use walk::WIDE;

// A line that cannot be written is left out, and the next trial goes on.
fn print<R: Print>(rt: &R, line: &[u8]) {
    let _ = rt.write_all(line);
}

// A missing input has a line of its own: the program would print the one of an empty input.
fn trial<R: Files + Print>(rt: &R, plan: &[u8], input: &[u8], words: &mut [u64]) {
    let name = str::from_utf8(input).unwrap_or("");
    let Ok(mut file) = fs::open(rt, name) else {
        return print(rt, b"no input\n");
    };
    let mut stored = [0u8; PLAN_BUFFER];
    let mut line = [0u8; LINE_BUFFER];
    let k = load(rt, plan, &mut stored);
    let n = serve(&stored[..k], &mut file, words, &mut line);
    print(rt, &line[..n])
}

// A draw to plan F after five ones, which have ended its test: no program hands one over.
fn after_the_end<R: Files + Print>(rt: &R, d: u8) {
    let mut bytes = [0u8; PLAN_BUFFER];
    let n = load(rt, b"f.plan", &mut bytes);
    let Ok(p) = read_plan(&bytes[..n]) else {
        // No plan: the test of a plan without thresholds is refused by 1.
        return print(rt, b"refused 1\n");
    };
    let mut words = [0u64; WIDE];
    let mut drawn = begin(&p, &mut words);
    for bit in [1, 1, 1, 1, 1, d] {
        drawn = draw(&p, drawn.state, &mut words, bit);
    }
    let mut out = [0u8; LINE_BUFFER];
    let len = last_line(&p, drawn, &mut out);
    print(rt, &out[..len])
}

fn main(rt: HostRuntime) {
    let mut words = [0u64; 7690];
    trial(&rt, b"f.plan", b"five", &mut words);
    trial(&rt, b"f.plan", b"zeros172", &mut words);
    trial(&rt, b"f.plan", b"zeros173", &mut words);
    trial(&rt, b"n172.plan", b"zeros172", &mut words);
    trial(&rt, b"f.plan", b"none", &mut words);
    trial(&rt, b"empty.plan", b"five", &mut words);
    trial(&rt, b"missing.plan", b"five", &mut words);
    trial(&rt, b"long.plan", b"five", &mut words);
    trial(&rt, b"count0.plan", b"five", &mut words);
    trial(&rt, b"close.plan", b"five", &mut words);
    trial(&rt, b"apart.plan", b"none", &mut words);
    trial(&rt, b"narrower.plan", b"five", &mut words);
    trial(&rt, b"f.plan", b"foreign", &mut words);
    trial(&rt, b"f.plan", b"newlines", &mut words);
    trial(&rt, b"f.plan", b"after", &mut words);
    trial(&rt, b"f.plan", b"far", &mut words);
    trial(&rt, b"longest.plan", b"none", &mut words);
    trial(&rt, b"overlong.plan", b"none", &mut words);
    after_the_end(&rt, 2);
    after_the_end(&rt, 1);
}
