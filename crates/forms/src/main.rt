// Runs the forms by reference beside those by value, on the same streams and calls, and counts what they answer.
#![tactic(auto)]

mod bridge; // the forms by reference
mod checks; // streams
mod steps; // calls of the model
mod tally; // what is counted

use std::io;

fn print_count(rt: &impl Print, name: &str, n: u64) -> io::Result<()> {
    cases::print(rt, name, n)?;
    cases::end_line(rt)
}

fn main(rt: HostRuntime) -> io::Result<()> {
    let streams = checks::run();
    print_count(&rt, "streams accepted ", streams.done)?;
    print_count(&rt, "streams refused ", streams.refused)?;
    print_count(&rt, "streams with another answer or record ", streams.other)?;
    let calls = steps::run();
    print_count(&rt, "calls done ", calls.done)?;
    print_count(&rt, "calls refused ", calls.refused)?;
    print_count(&rt, "calls with another answer or model ", calls.other)
}
