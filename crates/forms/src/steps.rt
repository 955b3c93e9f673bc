// The model by reference beside the model by value: each call on the state that the call before left.
use crate::bridge::{removed, started};
use crate::tally::Tally;
use vbv::{RemovalInterval, VbvCbrModel, VbvParams};

fn start(model: &mut VbvCbrModel, delay: u16, position: u64, tally: &mut Tally) {
    let old = *model;
    let by_value = old.start(delay, position);
    let (answer, lent) = started(old, delay, position);
    let same = (answer.err() == by_value.err()) & (lent == by_value.unwrap_or(old));
    tally.count(by_value.is_ok(), same);
    *model = lent;
}

fn remove(model: &mut VbvCbrModel, end: u64, interval: RemovalInterval, tally: &mut Tally) {
    let old = *model;
    let by_value = old.remove_picture(end, interval);
    let (answer, lent) = removed(old, end, interval);
    let same = (answer.err() == by_value.err()) & (lent == by_value.unwrap_or(old));
    tally.count(by_value.is_ok(), same);
    *model = lent;
}

// A list of 64 calls: a start, and removals of n + 500 k bits more each, every fifth for a field.
fn calls(tally: &mut Tally, n: u64) {
    let params = VbvParams {
        bit_rate: 1000000,
        buffer_size_bits: 327680,
        frn: 25,
        frd: 1,
    };
    let mut model = VbvCbrModel {
        params,
        whole: 0,
        rest: 0,
        prev_end_bits: 0,
        removed: 0,
        started: false,
    };
    for k in 0..64u64 {
        if k % 16 == 1 {
            start(&mut model, 22118, n % 30000, tally);
        } else if k % 5 == 0 {
            remove(
                &mut model,
                k * 1000 + n % 100000 * 10,
                RemovalInterval::Field,
                tally,
            );
        } else {
            remove(
                &mut model,
                k * 41000 + n % 100000,
                RemovalInterval::Frame,
                tally,
            );
        }
    }
}

pub(crate) fn run() -> Tally {
    let mut tally = Tally::new();
    for n in 0..100u64 {
        calls(&mut tally, n * 977);
    }
    tally
}
