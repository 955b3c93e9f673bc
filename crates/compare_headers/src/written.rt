// Kinds 8 to 13: what the writers and the tables answer to the numbers in s, as oracle/FORMAT.md lays it out. Each
// function puts it at the start of out and answers its length, 0 where s is malformed.
ghost use Rattle.std.specs.Prelude.{◌+◌, ◌≤◌, length};

use crate::parsed::low32;
use cases::put::{put, put_bytes, put_numbers, put32};
use cases::take::{byte, is_set, number16, number32, number64};
use headers::Error;
use headers::gop_header::{Mpeg2Gop, TimeCode};
use headers::sequence_extension::ChromaFormat;
use headers::stream_writer::SequenceHeaderParams;

pub(crate) fn answer(kind: u8, s: &[u8], out: &mut [u8]) -> usize {
    match kind {
        8 => write_sequence_header(s, out),
        9 => write_sequence_extension(s, out),
        10 => write_gop_header(s, out),
        11 => time_code(s, out),
        12 => nominal_rate(s, out),
        _ => profile_and_level(s, out),
    }
}

fn write_sequence_header(s: &[u8], out: &mut [u8]) -> usize {
    if s.len() < 142 {
        return 0;
    }
    let params = SequenceHeaderParams {
        horizontal_size: number16(s, 0),
        vertical_size: number16(s, 2),
        aspect_ratio_code: byte(s, 4),
        frame_rate_code: byte(s, 5),
        bit_rate_value: number32(s, 6),
        vbv_buffer_size_value: number16(s, 10),
        intra_quantiser_matrix: matrix(s, 12),
        non_intra_quantiser_matrix: matrix(s, 77),
    };
    put_written(
        out,
        &s[142..],
        |part| writers::stream_writer::write_sequence_header(part, params),
    )
}

fn write_sequence_extension(s: &[u8], out: &mut [u8]) -> usize {
    if s.len() < 2 {
        return 0;
    }
    let Some(format) = chroma(s) else {
        return 0;
    };
    let progressive = is_set(s, 1);
    put_written(
        out,
        &s[2..],
        |part| writers::stream_writer::write_sequence_extension(part, format, progressive),
    )
}

fn write_gop_header(s: &[u8], out: &mut [u8]) -> usize {
    if s.len() < 7 {
        return 0;
    }
    let time_code = TimeCode {
        drop_frame: is_set(s, 0),
        hours: byte(s, 1),
        minutes: byte(s, 2),
        seconds: byte(s, 3),
        pictures: byte(s, 4),
    };
    let gop = Mpeg2Gop {
        time_code,
        closed_gop: is_set(s, 5),
        broken_link: is_set(s, 6),
    };
    put_written(
        out,
        &s[7..],
        |part| writers::gop_header::write_gop_header(part, gop),
    )
}

fn time_code(s: &[u8], out: &mut [u8]) -> usize {
    if s.len() != 9 {
        return 0;
    }
    // 6 is the number of no header's refusal, so this is not put_result.
    let Some(code) = TimeCode::from_display_index(number64(s, 0), byte(s, 8)) else {
        return put(out, 0, 6);
    };
    let at = put(out, 0, 0);
    let numbers = [
        u32::from(code.drop_frame),
        u32::from(code.hours),
        u32::from(code.minutes),
        u32::from(code.seconds),
        u32::from(code.pictures),
    ];
    put_numbers(out, at, &numbers)
}

fn nominal_rate(s: &[u8], out: &mut [u8]) -> usize {
    if s.len() != 1 {
        return 0;
    }
    // 6, as in time_code.
    let Some(pictures) = headers::gop_header::nominal_pictures_per_second(byte(s, 0)) else {
        return put(out, 0, 6);
    };
    let at = put(out, 0, 0);
    put32(out, at, u32::from(pictures))
}

fn profile_and_level(s: &[u8], out: &mut [u8]) -> usize {
    if s.len() != 1 {
        return 0;
    }
    let Some(format) = chroma(s) else {
        return 0;
    };
    let at = put(out, 0, 0);
    let byte = writers::stream_writer::profile_and_level_indication(format);
    put32(out, at, u32::from(byte))
}

// What a writer answers, before the output part that it writes into.
fn put_written<F: FnOnce(&mut [u8]) -> Result<usize, Error>>(
    out: &mut [u8],
    part: &[u8],
    write: F,
) -> usize
    requires { F.IsAlwaysCallable write }
{
    let end = put_bytes(out, 5, part);
    if end < 5 || out.len() < end {
        return 0;
    }
    let (refusal, n) = match write(&mut out[5..end]) {
        Err(e) => (e.number(), 0),
        Ok(n) => (0, low32(n)),
    };
    let at = put(out, 0, refusal);
    put32(out, at, n);
    end
}

// The chroma format of the first byte.
fn chroma(s: &[u8]) -> Option<ChromaFormat> {
    match byte(s, 0) {
        1 => Some(ChromaFormat::Yuv420),
        2 => Some(ChromaFormat::Yuv422),
        3 => Some(ChromaFormat::Yuv444),
        _ => None,
    }
}

// A flag and 64 bytes, which are a matrix where the flag is set.
fn matrix(s: &[u8], at: usize) -> Option<[u8; 64]>
    requires { at + 65 ≤ length s.now }
{
    if !is_set(s, at) {
        return None;
    }
    let mut bytes = [0u8; 64];
    bytes.copy_from_slice(&s[at + 1..at + 65]);
    Some(bytes)
}
