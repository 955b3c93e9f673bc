// Prints the figures of paper 01 that are not proved: the bytes of three headers, and an end that the model accepts; and those of
// requests 02 and 05.
#![tactic(auto)]

mod channel; // request 05: a channel that a film writer sends
mod film; // request 05: how long pictures last
mod rates; // request 02

use headers::Error;
use headers::gop_header::{Mpeg2Gop, TimeCode};
use headers::sequence_extension::ChromaFormat;
use headers::stream_writer::SequenceHeaderParams;
use std::io;
use vbv::{RemovalInterval, VbvCbrModel, VbvParams, VbvRemovalError};
use writers::gop_header::write_gop_header;
use writers::stream_writer::{write_sequence_extension, write_sequence_header};

// Writes the bytes that were written, as two digits each, or the number of a refusal.
fn print_written(rt: &impl Print, written: Result<usize, Error>, bytes: &[u8]) -> io::Result<()> {
    match written {
        Ok(n) => {
            for (k, b) in bytes.iter().take(n).enumerate() {
                let space = if k == 0 { "" } else { " " };
                print!(rt; "{space}{b:02X}")?;
            }
            rt.print("\n")
        }
        Err(error) => println!(rt; "refused {}", error.number()),
    }
}

fn sequence_header(rt: &impl Print) -> io::Result<()> {
    let params = SequenceHeaderParams {
        horizontal_size: 16,
        vertical_size: 16,
        aspect_ratio_code: 1,
        frame_rate_code: 3,
        bit_rate_value: 2500,
        vbv_buffer_size_value: 20,
        intra_quantiser_matrix: None,
        non_intra_quantiser_matrix: None,
    };
    let mut out = [0xFFu8; 16];
    let written = write_sequence_header(&mut out, params);
    rt.print("sequence header, 16 by 16, square, fields 2500 and 20\n")?;
    print_written(rt, written, &out)
}

fn sequence_extension(rt: &impl Print) -> io::Result<()> {
    let mut out = [0xFFu8; 16];
    let written = write_sequence_extension(&mut out, ChromaFormat::Yuv420, false);
    rt.print("sequence extension, interlaced, 4:2:0\n")?;
    print_written(rt, written, &out)
}

fn group_header(rt: &impl Print) -> io::Result<()> {
    rt.print("group header, closed, at 0\n")?;
    let Some(time_code) = TimeCode::from_display_index(0, 3) else {
        return Ok(());
    };
    let gop = Mpeg2Gop {
        time_code,
        closed_gop: true,
        broken_link: false,
    };
    let mut out = [0xFFu8; 16];
    let written = write_gop_header(&mut out, gop);
    print_written(rt, written, &out)
}

// A removal with this end, at R = 1,000,000, B = 327,680 and 25 frames, after a start at 1,000 with the delay 22,118.
fn remove(end_bits: u64) -> Result<VbvCbrModel, VbvRemovalError> {
    let params = VbvParams {
        bit_rate: 1000000,
        buffer_size_bits: 327680,
        frn: 25,
        frd: 1,
    };
    let started = VbvCbrModel::new(params)?.start(22118, 1000)?;
    started.remove_picture(end_bits, RemovalInterval::Frame)
}

fn model_end(rt: &impl Print) -> io::Result<()> {
    rt.print("end 246755 after a start at 1000 with delay 22118\n")?;
    match remove(246755) {
        Ok(_) => rt.print("accepted\n"),
        Err(_) => rt.print("refused\n"),
    }
}

fn main(rt: HostRuntime) -> io::Result<()> {
    sequence_header(&rt)?;
    sequence_extension(&rt)?;
    group_header(&rt)?;
    model_end(&rt)?;
    rates::print_rates(&rt)?;
    film::print_film(&rt)?;
    channel::print_channel(&rt)
}
