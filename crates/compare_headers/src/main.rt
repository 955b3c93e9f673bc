// Compares the headers: reads cases with the original's answers (oracle/FORMAT.md, kinds 1 to 13), works each answer out with
// the functions of `headers`, `picture_header` and `writers`, and prints how many cases there were and how many differ.
#![tactic(auto)]

mod parsed; // kinds 1 to 7
mod written; // kinds 8 to 13

use std::io;

// The answer of a kind to an input, at the start of out: its length, 0 where the case is malformed.
fn answer(kind: u8, input: &[u8], out: &mut [u8]) -> usize {
    match kind {
        1..=7 => parsed::answer(kind, input, out),
        8..=13 => written::answer(kind, input, out),
        _ => 0,
    }
}

fn main(rt: HostRuntime) -> io::Result<()> {
    let mut buf = [0u8; 65536];
    let mut out = [0u8; 65536];
    let mut counts = cases::Counts::new();
    let mut from = rt.stdin();
    for _ in 0..u64::MAX {
        let Some(case) = cases::read(&mut from, &mut buf, &mut counts)? else {
            break;
        };
        let n = answer(case.kind, &buf[..case.input], &mut out);
        cases::count(&rt, case, n, &buf, &out, &mut counts)?;
    }
    cases::report(&rt, &counts.all, &counts.differ)
}
