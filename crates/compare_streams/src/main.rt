// Compares the buffer model and the check of streams: reads cases with the original's answers (oracle/FORMAT.md, kinds 14 to
// 18 and 20 to 27), works each answer out with the functions of `vbv` and `verify`, and prints how many cases there were and how
// many differ.
#![tactic(auto)]

mod checked; // kinds 17, 18 and 20 to 27
mod model; // kinds 14 to 16

use std::io;
use verify::{VbvMode, VbvStandard};

// The answer of a kind to an input, at the start of out: its length, 0 where the case is malformed.
fn answer(kind: u8, input: &[u8], out: &mut [u8]) -> usize {
    match kind {
        14 => model::frame_rate(input, out),
        15 => model::calls(input, out),
        16 => model::patch(input, out),
        17 => checked::check(input, VbvStandard::Mpeg1, out),
        18 => checked::check(input, VbvStandard::Mpeg2, out),
        20..=27 => checked::check_in_mode(input, mode(kind), out),
        _ => 0,
    }
}

// At a constant rate up to 23, then at a variable one.
fn mode(kind: u8) -> VbvMode {
    match kind {
        20 => of(VbvStandard::Mpeg2, true, false),
        21 => of(VbvStandard::Mpeg2, false, false),
        22 => of(VbvStandard::Mpeg1, false, false),
        23 => of(VbvStandard::Mpeg1, true, false),
        24 => of(VbvStandard::Mpeg2, false, true),
        25 => of(VbvStandard::Mpeg2, true, true),
        26 => of(VbvStandard::Mpeg1, false, true),
        _ => of(VbvStandard::Mpeg1, true, true),
    }
}

// Of MPEG-1 there is neither film nor a variable rate.
fn of(standard: VbvStandard, film: bool, variable: bool) -> VbvMode {
    VbvMode {
        standard,
        film,
        variable,
    }
}

fn main(rt: HostRuntime) -> io::Result<()> {
    let mut buf = [0u8; 65536];
    let mut out = [0u8; 65536];
    let mut counts = cases::Counts::new();
    let mut from = rt.stdin();
    for _ in 0..u64::MAX {
        let Some(case) = cases::read(&mut from, &mut buf, &mut counts)? else {
            break;
        };
        let n = answer(case.kind, &buf[..case.input], &mut out);
        cases::count(&rt, case, n, &buf, &out, &mut counts)?;
    }
    cases::report(&rt, &counts.all, &counts.differ)
}
