// Kinds 14 to 16: what the buffer model answers, as oracle/FORMAT.md lays it out. Each function of a kind puts it at the
// start of out and answers its length, 0 where s is malformed.
use cases::put::{put, put_bytes, put_words, put64};
use cases::take::{byte, number16, number64};
use vbv::{
    NotAPicture, RemovalInterval, VbvCbrModel, VbvError, VbvParams, VbvRemovalError, VbvViolation,
};

// The model after a call, and the place after its answer.
#[derive(Drop)]
struct Called {
    model: VbvCbrModel,
    next: usize,
}

pub(crate) fn frame_rate(s: &[u8], out: &mut [u8]) -> usize {
    if s.len() != 3 {
        return 0;
    }
    match vbv::frame_rate_value(byte(s, 0), byte(s, 1), byte(s, 2)) {
        Err(e) => put(out, 0, e.number()),
        Ok((frn, frd)) => {
            let at = put(out, 0, 0);
            put_words(out, at, &[frn, frd])
        }
    }
}

pub(crate) fn patch(s: &[u8], out: &mut [u8]) -> usize {
    if s.len() < 2 {
        return 0;
    }
    let end = put_bytes(out, 1, &s[2..]);
    if end < 1 || out.len() < end {
        return 0;
    }
    match vbv::patch_vbv_delay(&mut out[1..end], number16(s, 0)) {
        Ok(()) => put(out, 0, 0),
        Err(NotAPicture) => put(out, 0, 20),
    };
    end
}

// Four parameters and a list of calls, 11 bytes each.
pub(crate) fn calls(s: &[u8], out: &mut [u8]) -> usize {
    let made = VbvCbrModel::new(VbvParams {
        bit_rate: number64(s, 0),
        buffer_size_bits: number64(s, 8),
        frn: number64(s, 16),
        frd: number64(s, 24),
    });
    match made {
        Err(e) => put(out, 0, e.number()),
        Ok(model) => {
            let at = put(out, 0, 0);
            put_calls(out, at, s, model)
        }
    }
}

fn put_calls(out: &mut [u8], at: usize, s: &[u8], model: VbvCbrModel) -> usize {
    if s.len() < 43 {
        return 0;
    }
    let mut now = model;
    let mut next = at;
    for c in s[32..].chunks_exact(11) {
        let called = call(out, next, c, now);
        now = called.model;
        next = called.next;
    }
    next
}

// Which call, a position or an end, a delay or an interval.
fn call(out: &mut [u8], at: usize, c: &[u8], model: VbvCbrModel) -> Called {
    let place = number64(c, 1);
    let small = number16(c, 9);
    match byte(c, 0) {
        1 => put_changed(
            out,
            at,
            model,
            model.start(small, place).map_err(VbvRemovalError::Model),
        ),
        2 => Called {
            model,
            next: put_number(out, at, model.delay_for_picture(place).map(u64::from)),
        },
        3 => put_changed(out, at, model, model.remove_picture(place, interval(small))),
        4 => Called {
            model,
            next: put_number(out, at, model.max_end_bits()),
        },
        5 => Called {
            model,
            next: put_number(out, at, model.min_end_bits(interval(small))),
        },
        _ => Called {
            model,
            next: put_number(out, at, model.occupancy_before_removal_bits()),
        },
    }
}

fn interval(code: u16) -> RemovalInterval {
    match code {
        0 => RemovalInterval::Frame,
        1 => RemovalInterval::Field,
        2 => RemovalInterval::ThreeFields,
        3 => RemovalInterval::TwoFrames,
        _ => RemovalInterval::ThreeFrames,
    }
}

// The model after an answer that changes it.
fn put_changed(
    out: &mut [u8],
    at: usize,
    before: VbvCbrModel,
    answer: Result<VbvCbrModel, VbvRemovalError>,
) -> Called {
    Called {
        model: answer.unwrap_or(before),
        next: put_answer(out, at, answer, put_model),
    }
}

fn put_number(out: &mut [u8], at: usize, answer: Result<u64, VbvError>) -> usize {
    put_answer(out, at, answer.map_err(VbvRemovalError::Model), put64)
}

// 0 and what `put_value` puts, or the refusal.
fn put_answer<T, F: FnOnce(&mut [u8], usize, T) -> usize>(
    out: &mut [u8],
    at: usize,
    answer: Result<T, VbvRemovalError>,
    put_value: F,
) -> usize
    requires { F.IsAlwaysCallable put_value }
{
    match answer {
        Ok(value) => {
            let next = put(out, at, 0);
            put_value(out, next, value)
        }
        Err(VbvRemovalError::Model(e)) => put(out, at, e.number()),
        Err(VbvRemovalError::Violation(v)) => put_violation(out, at, v),
    }
}

fn put_model(out: &mut [u8], at: usize, m: VbvCbrModel) -> usize {
    put_words(out, at, &[m.whole, m.rest, m.prev_end_bits, m.removed])
}

fn put_violation(out: &mut [u8], at: usize, v: VbvViolation) -> usize {
    let r = v.refusal();
    let next = put(out, at, r.number);
    put64(out, next, r.picture)
}
