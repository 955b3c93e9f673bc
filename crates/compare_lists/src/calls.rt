// What the writer answers to a list of calls, as oracle/FORMAT.md lays it out (kind 19).
ghost use Rattle.std.specs.Prelude.{◌+◌, ◌≤◌, length};

use cadence::{OpenField, VbvCadence};
use cases::add_one;
use cases::put::{put, put_bytes, put_pattern, put_words};
use cases::take::{byte, number16, number32, number64};
use layers::PictureKind;
use rate_control::{CbrConfig, CbrError, CbrGiven, CbrWriter};
use vbv::{RemovalInterval, VbvCbrModel};
use verify::{VbvMode, VbvRefusal, VbvStandard, VbvStreamReport, VbvVerifyError};

// The numbers of answers that are no refusals, beside 0 of a placed picture: oracle/FORMAT.md's.
pub(crate) const PASSED: u8 = 128;

pub(crate) const SET: u8 = 129;

pub(crate) const AGAIN: u8 = 130;

pub(crate) const WITHDRAWN: u8 = 131;

// The number of no answer: bytes or room are missing.
pub(crate) const MISSING: u8 = 132;

// What is called, by its number in oracle/FORMAT.md.
#[derive(Clone, Copy)]
enum Call {
    Withdraw,
    Offer,
    Set,
    Check,
}

// The writer after a call, the place of the next call, the place after the answer, and the answer's number.
#[derive(Drop)]
struct Called {
    writer: CbrWriter,
    at: usize,
    next: usize,
    number: u8,
}

// What stands before a call's bytes: the call, its kind or its mode, the lengths of headers and layer, and that of the output
// part.
#[derive(Drop)]
struct Head {
    call: Call,
    kind: PictureKind,
    mode: VbvMode,
    interval: RemovalInterval,
    last: bool,
    headers: u16,
    layer: u16,
    part: u16,
}

// An answer in a number and four words.
#[derive(Clone, Copy)]
struct Told {
    number: u8,
    words: [u64; 4],
}

// The answer to a list, at the start of out: its length. Each call is counted by its answer's number.
pub(crate) fn list(s: &[u8], out: &mut [u8], given: &mut [u64]) -> usize {
    let created = CbrWriter::create(CbrConfig {
        mode: mode(byte(s, 0)),
        bit_rate_value: number32(s, 1),
        vbv_buffer_size_value: number16(s, 5),
        frame_rate_code: byte(s, 7),
        frame_rate_extension_n: byte(s, 8),
        frame_rate_extension_d: byte(s, 9),
        initial_quantiser_scale_code: byte(s, 10),
        b_between: byte(s, 11),
        anchors_per_gop: byte(s, 12),
    });
    match created {
        Err(e) => {
            let number = e.number();
            add_one(given, usize::from(number));
            put(out, 0, number)
        }
        Ok(writer) => put_created(s, writer, out, given),
    }
}

// The mode of its number: the standard, 4 more for film and 8 more for a variable rate. Those of MPEG-1 with either are none.
fn mode(number: u8) -> VbvMode {
    VbvMode {
        standard: standard(number % 4),
        film: number / 4 % 2 == 1,
        variable: 8 <= number,
    }
}

fn standard(number: u8) -> VbvStandard {
    if number == 1 {
        return VbvStandard::Mpeg1;
    }
    VbvStandard::Mpeg2
}

// Creation's byte and the targets, and what each call is answered.
fn put_created(s: &[u8], writer: CbrWriter, out: &mut [u8], given: &mut [u64]) -> usize {
    let next = put(out, 0, 0);
    let at = put_words(out, next, &writer.target_bits);
    put_calls(s, writer, out, at, given)
}

fn put_calls(s: &[u8], writer: CbrWriter, out: &mut [u8], from: usize, given: &mut [u64]) -> usize {
    let mut now = writer;
    let mut at: usize = 14;
    let mut next = from;
    for _ in 0..byte(s, 13) {
        let called = answer_call(s, at, now, out, next);
        add_one(given, usize::from(called.number));
        now = called.writer;
        at = called.at;
        next = called.next;
    }
    next
}

// Where bytes or room are missing nothing is done, so that the list differs.
fn answer_call(s: &[u8], at: usize, writer: CbrWriter, out: &mut [u8], next: usize) -> Called {
    let nothing = Called {
        writer,
        at,
        next,
        number: MISSING,
    };
    if s.len() < at || out.len() < next {
        return nothing;
    }
    let h = read_head(&s[at..]);
    let middle = 10 + usize::from(h.headers);
    let end = middle + usize::from(h.layer);
    let room = 85 + usize::from(h.part);
    if s.len() - at < end || out.len() - next < room {
        return nothing;
    }
    let first = at + 10;
    let layer = at + middle;
    let after = at + end;
    match h.call {
        Call::Withdraw => withdraw(writer, after, out, next),
        Call::Offer => offer(
            h,
            &s[first..layer],
            &s[layer..after],
            after,
            writer,
            out,
            next,
        ),
        Call::Set => set(writer, &s[first..layer], after, out, next),
        Call::Check => check_sent(h, &s[first..layer], after, writer, out, next),
    }
}

fn read_head(c: &[u8]) -> Head {
    Head {
        call: call_of(byte(c, 0)),
        kind: kind(byte(c, 1)),
        mode: mode(byte(c, 1)),
        interval: interval(byte(c, 2)),
        last: byte(c, 3) == 1,
        headers: number16(c, 4),
        layer: number16(c, 6),
        part: number16(c, 8),
    }
}

fn call_of(number: u8) -> Call {
    match number {
        1 => Call::Offer,
        2 => Call::Set,
        3 => Call::Check,
        _ => Call::Withdraw,
    }
}

fn kind(code: u8) -> PictureKind {
    match code {
        0 => PictureKind::I,
        1 => PictureKind::P,
        _ => PictureKind::B,
    }
}

fn interval(code: u8) -> RemovalInterval {
    match code {
        0 => RemovalInterval::Frame,
        1 => RemovalInterval::Field,
        2 => RemovalInterval::ThreeFields,
        3 => RemovalInterval::TwoFrames,
        _ => RemovalInterval::ThreeFrames,
    }
}

fn offer(
    h: Head,
    headers: &[u8],
    layer: &[u8],
    at: usize,
    writer: CbrWriter,
    out: &mut [u8],
    next: usize,
) -> Called
    requires { next + 85 + h.part ≤ length out.old }
{
    let start = next + 85;
    let end = start + usize::from(h.part);
    put_pattern(out, start, h.part);
    let part = &mut out[start..end];
    let offered = writer.offer(headers, h.kind, h.interval, h.last, layer, part);
    let told = in_words(offered.answer);
    put_told(out, next, told, offered.writer);
    Called {
        writer: offered.writer,
        at,
        next: end,
        number: told.number,
    }
}

// What was handed out, checked in a mode, with the records in the output part.
fn check_sent(
    h: Head,
    stream: &[u8],
    at: usize,
    writer: CbrWriter,
    out: &mut [u8],
    next: usize,
) -> Called
    requires { next + 85 + h.part ≤ length out.old }
{
    let start = next + 85;
    let end = start + usize::from(h.part);
    put_pattern(out, start, h.part);
    let told = verified_in_words(verify::verify_in_mode(stream, h.mode, &mut out[start..end]));
    put_told(out, next, told, writer);
    Called {
        writer,
        at,
        next: end,
        number: told.number,
    }
}

fn verified_in_words(verified: Result<VbvStreamReport, VbvVerifyError>) -> Told {
    match verified {
        Err(e) => refusal_in_words(e.refusal()),
        Ok(report) => report_in_words(report),
    }
}

fn report_in_words(r: VbvStreamReport) -> Told {
    Told {
        number: PASSED,
        words: [
            r.bit_rate,
            r.pictures,
            r.min_occupancy_after_bits,
            r.max_occupancy_before_bits,
        ],
    }
}

fn refusal_in_words(r: VbvRefusal) -> Told {
    Told {
        number: r.number,
        words: [r.picture, u64::from(r.coded), u64::from(r.expected), 0],
    }
}

fn withdraw(writer: CbrWriter, at: usize, out: &mut [u8], next: usize) -> Called {
    let (after, number) = match writer.withdraw() {
        Ok(after) => (after, WITHDRAWN),
        Err(e) => (writer, e.number()),
    };
    let told = Told {
        number,
        words: [0, 0, 0, 0],
    };
    Called {
        writer: after,
        at,
        next: put_told(out, next, told, after),
        number,
    }
}

// The writer with an end and whole bits delivered that no list of calls comes to.
fn set(writer: CbrWriter, far: &[u8], at: usize, out: &mut [u8], next: usize) -> Called {
    let after = CbrWriter {
        model: VbvCbrModel {
            params: writer.model.params,
            whole: number64(far, 8),
            rest: 0,
            prev_end_bits: number64(far, 0),
            removed: 1,
            started: true,
        },
        ..writer
    };
    let told = Told {
        number: SET,
        words: [0, 0, 0, 0],
    };
    Called {
        writer: after,
        at,
        next: put_told(out, next, told, after),
        number: SET,
    }
}

fn in_words(answer: Result<CbrGiven, CbrError>) -> Told {
    match answer {
        Ok(
            CbrGiven::Placed {
                q,
                vbv_delay,
                bytes,
                stuffing_bytes,
            },
        ) => Told {
            number: 0,
            words: [u64::from(q), u64::from(vbv_delay), bytes, stuffing_bytes],
        },
        Ok(CbrGiven::Again(q)) => Told {
            number: AGAIN,
            words: [u64::from(q), 0, 0, 0],
        },
        Err(e) => refusal_in_words(e.refusal()),
    }
}

fn put_told(out: &mut [u8], at: usize, told: Told, writer: CbrWriter) -> usize {
    let next = put(out, at, told.number);
    let state = put_words(out, next, &told.words);
    put_writer(out, state, writer)
}

// The state but for its parameters and targets.
fn put_writer(out: &mut [u8], at: usize, w: CbrWriter) -> usize {
    let model = w.model;
    let pending = put_bytes(out, at, &w.q);
    let finished = put_pending(out, pending, w.pending);
    let mode = put(out, finished, u8::from(w.finished));
    let next = put_cadence(out, mode, w.variable, w.cadence);
    let words = [
        w.stuffing_bytes,
        model.whole,
        model.rest,
        model.prev_end_bits,
        model.removed,
    ];
    put_words(out, next, &words)
}

// The mode's number, the sequence's flags, the previous anchor's, and the open field.
fn put_cadence(out: &mut [u8], at: usize, variable: bool, k: VbvCadence) -> usize {
    let bytes = [
        mode_number(k.film, variable),
        u8::from(k.progressive),
        u8::from(k.low_delay),
        u8::from(k.repeat),
        u8::from(k.top),
        open_code(k.waiting),
    ];
    put_bytes(out, at, &bytes)
}

fn mode_number(film: bool, variable: bool) -> u8 {
    if variable {
        return if film { 14 } else { 10 };
    }
    if film { 6 } else { 2 }
}

fn open_code(waiting: OpenField) -> u8 {
    match waiting {
        OpenField::Closed => 0,
        OpenField::LedByAnchor => 1,
        OpenField::LedByOther => 2,
    }
}

// 0, or the kind's code and 1; and the quantiser.
fn put_pending(out: &mut [u8], at: usize, pending: Option<(PictureKind, u8)>) -> usize {
    match pending {
        None => put_bytes(out, at, &[0, 0]),
        Some((kind, q)) => put_bytes(out, at, &[code(kind), q]),
    }
}

fn code(kind: PictureKind) -> u8 {
    match kind {
        PictureKind::I => 1,
        PictureKind::P => 2,
        PictureKind::B => 3,
    }
}
