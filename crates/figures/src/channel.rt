// The channel of request 05's figures: fields 2500 and 20, rate code 4, interlaced, low_delay 0; eight frames, the first of 4,021
// bytes, the others of 4,022. A film writer sends it, and both checks look at it; a plain writer refuses its first layer.
use crate::film::facts;
use cases::put::put_bytes;
use cases::take::byte;
use layers::PictureKind;
use rate_control::{CbrConfig, CbrGiven, CbrOffered, CbrWriter};
use std::io;
use vbv::RemovalInterval;
use verify::{VbvMode, VbvStandard, VbvStreamReport, VbvVerifyError};

// 16 by 16, square; interlaced 4:2:0; a closed group at 0.
const HEADERS: [u8; 30] =
    *b"\x00\x00\x01\xB3\x01\x00\x10\x14\x02\x71\x20\xA0\x00\x00\x01\xB5\x14\x82\x00\x01\x00\x00\x00\x00\x01\xB8\x00\x08\x00\x40";

// The pictures in the order of the stream: a letter, and what stands after it.
const PICTURES: [(u8, u8); 8] = [
    (b'I', b'\''),
    (b'P', b' '),
    (b'B', b'\''),
    (b'B', b' '),
    (b'P', b'\''),
    (b'B', b' '),
    (b'B', b'\''),
    (b'P', b' '),
];

fn mode(film: bool) -> VbvMode {
    VbvMode {
        standard: VbvStandard::Mpeg2,
        film,
        variable: false,
    }
}

fn config(film: bool) -> CbrConfig {
    CbrConfig {
        mode: mode(film),
        bit_rate_value: 2500,
        vbv_buffer_size_value: 20,
        frame_rate_code: 4,
        frame_rate_extension_n: 0,
        frame_rate_extension_d: 0,
        initial_quantiser_scale_code: 8,
        b_between: 2,
        anchors_per_gop: 4,
    }
}

fn kind(letter: u8) -> PictureKind {
    match letter {
        b'I' => PictureKind::I,
        b'P' => PictureKind::P,
        _ => PictureKind::B,
    }
}

// Puts a picture header of 8 bytes (I) or 9; the place after it.
fn put_header(layer: &mut [u8], kind: PictureKind) -> usize {
    match kind {
        PictureKind::I => put_bytes(layer, 0, b"\x00\x00\x01\x00\x00\x08\x00\x00"),
        PictureKind::P => put_bytes(layer, 0, b"\x00\x00\x01\x00\x00\x10\x00\x03\x80"),
        PictureKind::B => put_bytes(layer, 0, b"\x00\x00\x01\x00\x00\x18\x00\x03\xB8"),
    }
}

// Puts the last two bytes of the coding extension; the place after them.
fn put_flags(layer: &mut [u8], at: usize, repeat: bool) -> usize {
    if repeat {
        return put_bytes(layer, at, b"\x43\x80");
    }
    put_bytes(layer, at, b"\x41\x80")
}

// Puts a picture's headers and the code of a slice, in which zeros follow.
fn put_layer(layer: &mut [u8], kind: PictureKind, repeat: bool) {
    let extension = put_header(layer, kind);
    let flags = put_bytes(layer, extension, b"\x00\x00\x01\xB5\x8F\xFF\xF3");
    let slice = put_flags(layer, flags, repeat);
    put_bytes(layer, slice, b"\x00\x00\x01\x01");
}

// Offers the picture of a letter: the first, an I, with the headers.
fn offer(writer: CbrWriter, first: bool, letter: u8, mark: u8, stream: &mut [u8]) -> CbrOffered {
    let mut layer = [0u8; 65536];
    let kind = kind(letter);
    let shown = facts(letter, mark);
    put_layer(&mut layer, kind, shown.repeat);
    let frame = RemovalInterval::Frame;
    if first {
        return writer.offer(&HEADERS, kind, frame, false, &layer[0..4021], stream);
    }
    writer.offer(b"", kind, frame, false, &layer[0..4022], stream)
}

// Sends the channel by a writer, and prints delay and stuffing of each placed picture: how many bytes it handed out, 0 where it
// refused one.
fn send(rt: &impl Print, film: bool, stream: &mut [u8]) -> io::Result<usize> {
    let Ok(mut writer) = CbrWriter::create(config(film)) else {
        return Ok(0);
    };
    let mut at: usize = 0;
    for (letter, mark) in PICTURES {
        let Some(part) = stream.get_mut(at..) else {
            break;
        };
        let offered = offer(writer, at == 0, letter, mark, part);
        let number = match offered.answer {
            Ok(
                CbrGiven::Placed {
                    q: _,
                    vbv_delay,
                    bytes,
                    stuffing_bytes,
                },
            ) => {
                println!(rt; "{vbv_delay} {stuffing_bytes}")?;
                writer = offered.writer;
                at = at.wrapping_add(bytes as usize);
                continue;
            }
            Ok(CbrGiven::Again(q)) => q,
            Err(error) => error.refusal().number,
        };
        println!(rt; "refused {number}")?;
        return Ok(0);
    }
    Ok(at)
}

// Prints a check's answer: least occupancy after and greatest before; or number, picture, coded and expected delay.
fn print_verified(
    rt: &impl Print,
    verified: Result<VbvStreamReport, VbvVerifyError>,
) -> io::Result<()> {
    match verified {
        Ok(r) => println!(rt;
            "{} {}",
            r.min_occupancy_after_bits, r.max_occupancy_before_bits
        ),
        Err(e) => {
            let r = e.refusal();
            println!(rt; "refused {} {}", r.number, r.picture)?;
            println!(rt; "{} {}", r.coded, r.expected)
        }
    }
}

fn print_checks(rt: &impl Print, stream: &[u8]) -> io::Result<()> {
    let mut records = [0u8; 320];
    rt.print("film check: least after, greatest before; periods\n")?;
    print_verified(rt, verify::verify_in_mode(stream, mode(true), &mut records))?;
    for two in records.chunks(80) {
        println!(rt; "{} {}", byte(two, 32), byte(two, 72))?;
    }
    rt.print("plain check: picture; coded and expected\n")?;
    print_verified(rt, verify::check_in_mode(stream, mode(false), 8))
}

pub(crate) fn print_channel(rt: &impl Print) -> io::Result<()> {
    let mut stream = [0u8; 65536];
    rt.print("plain writer\n")?;
    send(rt, false, &mut stream)?;
    rt.print("film writer: delay and stuffing\n")?;
    let sent = send(rt, true, &mut stream)?;
    match stream.get(..sent) {
        Some(channel) => print_checks(rt, channel),
        None => Ok(()),
    }
}
