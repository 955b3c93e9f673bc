// sequence_extension() (ISO/IEC 13818-2 6.2.2.3), and the sequence header with it.
ghost use Rattle.std.specs.Prelude.{◌≡◌, ◌≤◌};
ghost use Rattle.headers.specs.Answers.{header_answer};
ghost use Rattle.headers.specs.SequenceExtension.{chroma_format, sequence_extension};
ghost use Rattle.headers.specs.SequenceHeader.{sequence_header_bytes};
ghost use Rattle.headers.specs.Sequence.{sequence_of, sequence};

use crate::quant_matrix_extension::matrix_bytes;
use crate::sequence_header::Mpeg2SequenceHeader;
use crate::{Error, next_start_code};
use bits::start_codes::EXTENSION_START;

// extension_start_code_identifier, profile_and_level_indication, progressive_sequence, chroma_format,
// horizontal_size_extension, vertical_size_extension, bit_rate_extension, marker_bit, vbv_buffer_size_extension,
// low_delay, frame_rate_extension_n, frame_rate_extension_d
pub const SEQUENCE_EXTENSION_TABLE: [u8; 36] =
    *b"\x04\x01\x01\x08\x00\x00\x01\x00\x00\x02\x01\x00\x02\x00\x00\x02\x00\x00\x0C\x00\x00\x01\x01\x01\x08\x00\x00\x01\x00\x00\x02\x00\x00\x05\x00\x00";

// chroma_format (Table 6-5).
#[derive(Clone, Copy)]
pub enum ChromaFormat {
    Yuv420,
    Yuv422,
    Yuv444,
}

#[derive(Drop)]
pub struct Mpeg2SequenceExtension {
    pub profile_and_level: u8,
    pub progressive_sequence: bool,
    pub chroma_format: ChromaFormat,
    pub horizontal_size_extension: u8,
    pub vertical_size_extension: u8,
    pub bit_rate_extension: u16,
    pub vbv_buffer_size_extension: u8,
    pub low_delay: bool,
    pub frame_rate_extension_n: u8,
    pub frame_rate_extension_d: u8,
}

// A sequence header and its extension, with the values that the two make together (6.3.3, 6.3.5).
#[derive(Drop)]
pub struct Mpeg2Sequence {
    pub header: Mpeg2SequenceHeader,
    pub extension: Mpeg2SequenceExtension,
    pub horizontal_size: u16,
    pub vertical_size: u16,
    pub bit_rate: u32,
    pub vbv_buffer_size: u32,
}

#[tactic(auto, unfolding(crate::specs::SequenceExtension::chroma_format, bits::specs::Bits::pick))]
fn chroma_format_of(code: u32) -> ChromaFormat
    ensures { result ≡ chroma_format code }
{
    match code {
        1 => ChromaFormat::Yuv420,
        2 => ChromaFormat::Yuv422,
        _ => ChromaFormat::Yuv444,
    }
}

impl Mpeg2SequenceExtension {
    // From a slice that begins at the extension's start code.
    pub fn parse(buf: &[u8]) -> Result<Mpeg2SequenceExtension, Error>
        ensures { header_answer result ≡ sequence_extension buf.now }
    {
        let v = bits::read_header(buf, EXTENSION_START, &SEQUENCE_EXTENSION_TABLE)?;
        Ok(Mpeg2SequenceExtension {
            profile_and_level: v[1] as u8,
            progressive_sequence: v[2] == 1,
            chroma_format: chroma_format_of(v[3]),
            horizontal_size_extension: v[4] as u8,
            vertical_size_extension: v[5] as u8,
            bit_rate_extension: v[6] as u16,
            vbv_buffer_size_extension: v[8] as u8,
            low_delay: v[9] == 1,
            frame_rate_extension_n: v[10] as u8,
            frame_rate_extension_d: v[11] as u8,
        })
    }
}

// The bytes that a parsed header occupies.
fn sequence_header_byte_length(header: Mpeg2SequenceHeader) -> usize
    ensures { result ≡ sequence_header_bytes header }
{
    12 + matrix_bytes(header.intra_quant) + matrix_bytes(header.non_intra_quant)
}

// A header with its extension: the extension's bits stand above the header's.
fn sequence_of(header: Mpeg2SequenceHeader, extension: Mpeg2SequenceExtension) -> Mpeg2Sequence
    requires sizes { (header.width ≤ 4095) × (header.height ≤ 4095) × (header.bit_rate ≤ 262143) × (header.vbv_buffer_size ≤ 1023) }
    requires extensions { (extension.horizontal_size_extension ≤ 3) × (extension.vertical_size_extension ≤ 3) × (extension.bit_rate_extension ≤ 4095) }
    ensures { result ≡ sequence_of header extension }
{
    Mpeg2Sequence {
        horizontal_size: extension.horizontal_size_extension as u16 * 4096 + header.width,
        vertical_size: extension.vertical_size_extension as u16 * 4096 + header.height,
        bit_rate: extension.bit_rate_extension as u32 * 262144 + header.bit_rate,
        vbv_buffer_size: extension.vbv_buffer_size_extension as u32 * 1024
            + header.vbv_buffer_size as u32,
        header,
        extension,
    }
}

impl Mpeg2Sequence {
    // From a slice that begins at the sequence header's start code.
    pub fn from_buf(buf: &[u8]) -> Result<Mpeg2Sequence, Error>
        ensures { header_answer result ≡ sequence buf.now }
    {
        let header = Mpeg2SequenceHeader::parse(buf)?;
        let Some(at) = next_start_code(buf, sequence_header_byte_length(header)) else {
            return Err(Error::InvalidBitstream);
        };
        let extension = Mpeg2SequenceExtension::parse(&buf[at..])?;
        Ok(sequence_of(header, extension))
    }
}
