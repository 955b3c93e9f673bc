// Compares the writer: reads lists of calls with their answers (oracle/FORMAT.md, kind 19), works each answer out with the
// writer of `rate_control`, and prints how often each answer was given, how many lists there were and how many differ.
#![tactic(auto)]

mod calls; // the writer's answers to a list

use calls::{AGAIN, MISSING, PASSED, SET, WITHDRAWN};
use std::io;

// The answer to a list, at the start of out: its length, 0 where the case is of another kind.
fn answer(kind: u8, input: &[u8], out: &mut [u8], given: &mut [u64]) -> usize {
    match kind {
        19 => calls::list(input, out, given),
        _ => 0,
    }
}

// The names of the answers' numbers (oracle/FORMAT.md).
fn print_name(rt: &impl Print, number: u8) -> io::Result<()> {
    match number {
        0 => rt.print("placed"),
        PASSED => rt.print("check passed"),
        SET => rt.print("set by hand"),
        AGAIN => rt.print("again"),
        WITHDRAWN => rt.print("withdrawn"),
        _ => cases::print(rt, "refused ", u64::from(number)),
    }
}

fn report_number(rt: &impl Print, number: u8, n: u64) -> io::Result<()> {
    if n != 0 {
        print_name(rt, number)?;
        cases::print(rt, ": ", n)?;
        cases::end_line(rt)?;
    }
    Ok(())
}

fn report_numbers(rt: &impl Print, given: &[u64]) -> io::Result<()> {
    for number in 0..MISSING {
        report_number(rt, number, cases::get(given, usize::from(number)))?;
    }
    Ok(())
}

fn main(rt: HostRuntime) -> io::Result<()> {
    let mut buf = [0u8; 65536];
    let mut out = [0u8; 65536];
    let mut counts = cases::Counts::new();
    let mut given = [0u64; MISSING as usize];
    let mut from = rt.stdin();
    for _ in 0..u64::MAX {
        let Some(case) = cases::read(&mut from, &mut buf, &mut counts)? else {
            break;
        };
        let n = answer(case.kind, &buf[..case.input], &mut out, &mut given);
        cases::count(&rt, case, n, &buf, &out, &mut counts)?;
    }
    report_numbers(&rt, &given)?;
    cases::report(&rt, &counts.all, &counts.differ)
}
