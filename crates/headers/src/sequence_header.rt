// sequence_header() (ISO/IEC 13818-2 6.2.2.1, 11172-2 2.4.2.3).
ghost use Rattle.std.specs.Prelude.{◌≡◌, ◌≤◌, ◌+◌, ◌*◌};
ghost use Rattle.headers.specs.Answers.{header_answer};
ghost use Rattle.headers.specs.QuantMatrix.{load_flag};
ghost use Rattle.headers.specs.SequenceHeader.{aspect_ratio, sequence_header};

use crate::Error;
use crate::quant_matrix_extension::read_matrix;
use bits::start_codes::SEQUENCE_HEADER;

// horizontal_size_value, vertical_size_value, aspect_ratio_information, frame_rate_code, bit_rate_value, marker_bit,
// vbv_buffer_size_value, constrained_parameters_flag
pub const SEQUENCE_HEADER_TABLE: [u8; 24] =
    *b"\x0C\x01\x00\x0C\x01\x00\x04\x01\x00\x04\x01\x00\x12\x01\x00\x01\x01\x01\x0A\x00\x00\x01\x00\x00";

// aspect_ratio_information (Table 6-3).
#[derive(Clone, Copy)]
pub enum AspectRatio {
    Square,
    Dar3x4,
    Dar9x16,
    Dar1x221,
    Reserved(u8),
}

#[derive(Clone, Copy)]
pub struct Mpeg2SequenceHeader {
    pub width: u16,
    pub height: u16,
    pub aspect_ratio: AspectRatio,
    // A code as it stands: `frame_rate_value` answers to every one, also those that Table 6-4 lacks.
    pub frame_rate_code: u8,
    pub bit_rate: u32,
    pub vbv_buffer_size: u16,
    pub constrained_parameters: bool,
    // The matrices, in zigzag order, where their flags load them.
    pub intra_quant: Option<[u8; 64]>,
    pub non_intra_quant: Option<[u8; 64]>,
}

#[tactic(auto, unfolding(crate::specs::SequenceHeader::aspect_ratio, bits::specs::Bits::pick))]
fn aspect_ratio_of(code: u32) -> AspectRatio
    requires { code ≤ 15 }
    ensures { result ≡ aspect_ratio code }
{
    match code {
        1 => AspectRatio::Square,
        2 => AspectRatio::Dar3x4,
        3 => AspectRatio::Dar9x16,
        4 => AspectRatio::Dar1x221,
        _ => AspectRatio::Reserved(code as u8),
    }
}

// The bit after the intra matrix.
fn after_matrix(intra: Option<[u8; 64]>) -> u32
    ensures { result ≡ 95 + 512 * load_flag intra }
{
    match intra {
        Some(_) => 607,
        None => 95,
    }
}

impl Mpeg2SequenceHeader {
    // From a slice that begins at the header's start code.
    #[tactic(auto, using(crate::proofs::SequenceHeader::header_found))]
    pub fn parse(buf: &[u8]) -> Result<Mpeg2SequenceHeader, Error>
        ensures { header_answer result ≡ sequence_header buf.now }
    {
        let v = bits::read_header(buf, SEQUENCE_HEADER, &SEQUENCE_HEADER_TABLE)?;
        let intra_quant = read_matrix(buf, 94)?;
        let non_intra_quant = read_matrix(buf, after_matrix(intra_quant))?;
        Ok(Mpeg2SequenceHeader {
            width: v[0] as u16,
            height: v[1] as u16,
            aspect_ratio: aspect_ratio_of(v[2]),
            frame_rate_code: v[3] as u8,
            bit_rate: v[4],
            vbv_buffer_size: v[6] as u16,
            constrained_parameters: v[7] == 1,
            intra_quant,
            non_intra_quant,
        })
    }
}
