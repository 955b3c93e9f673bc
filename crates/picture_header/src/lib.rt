// picture_header() (ISO/IEC 13818-2 6.2.3, 11172-2 2.4.2.5) and picture_coding_extension() (6.2.3.1).
#![tactic(auto)]

ghost use Rattle.std.specs.Prelude.{◌≡◌, ℕ, ◌+◌, ◌*◌, ◌/◌, ◌%◌, ◌^◌, ◌≤◌, ◌<◌, [], ◌∷◌, length};
ghost use Rattle.bits.specs.Bits.{bits_at};
ghost use Rattle.bits.specs.Fields.{read_fields};
ghost use Rattle.bits.specs.Refusals.{value};
ghost use Rattle.bits.specs.Answers.{in_places, fields_answer};
ghost use Rattle.headers.specs.Answers.{header_answer};
ghost use Rattle.picture_header.specs.PictureHeader.{coding_type, motion_fields, extra_bit, extra_at, picture_of, picture_header, picture_header_bytes, header_length};
ghost use Rattle.picture_header.specs.CodingExtension.{picture_structure, picture_coding_extension};
ghost use Rattle.picture_header.specs.Picture.{picture};
ghost use Rattle.picture_header.specs.Steps.{usual_header, usual_coding};
ghost use Rattle.picture_header.specs.Answers.{extra_answer};

mod picture_facts; // a picture's delay, and what its headers tell of how long it lasts

pub use crate::picture_facts::{is_anchor, is_field, told, told_with_extension};
use bits::FieldsError;
use bits::start_codes::{EXTENSION_START, PICTURE_START};
use headers::{Error, next_start_code};

// The start codes, as the numbers in their four bytes.
const PICTURE_WORD: u32 = 0x100;

const EXTENSION_WORD: u32 = 0x1B5;

// temporal_reference, picture_coding_type, vbv_delay
const PICTURE_TABLE: [u8; 9] = *b"\x0A\x00\x00\x03\x01\x04\x10\x00\x00";

// full_pel_forward_vector, forward_f_code
const FORWARD_TABLE: [u8; 6] = *b"\x01\x00\x00\x03\x00\x00";

// full_pel_forward_vector, forward_f_code, full_pel_backward_vector, backward_f_code
const BOTH_TABLE: [u8; 12] = *b"\x01\x00\x00\x03\x00\x00\x01\x00\x00\x03\x00\x00";

// extension_start_code_identifier, f_code[0][0], f_code[0][1], f_code[1][0], f_code[1][1]
const MOTION_CODE_TABLE: [u8; 15] =
    *b"\x04\x08\x08\x04\x00\x00\x04\x00\x00\x04\x00\x00\x04\x00\x00";

// intra_dc_precision, picture_structure, top_field_first, frame_pred_frame_dct, concealment_motion_vectors,
// q_scale_type, intra_vlc_format, alternate_scan, repeat_first_field, chroma_420_type, progressive_frame,
// composite_display_flag
const CODING_TABLE: [u8; 36] =
    *b"\x02\x00\x00\x02\x01\x00\x01\x00\x00\x01\x00\x00\x01\x00\x00\x01\x00\x00\x01\x00\x00\x01\x00\x00\x01\x00\x00\x01\x00\x00\x01\x00\x00\x01\x00\x00";

// picture_coding_type (Table 6-12; D pictures are of 11172-2).
#[derive(Clone, Copy, PartialEq, Eq)]
pub enum PictureCodingType {
    Intra,
    Predictive,
    Bidirectional,
    DcIntra,
}

// Flags and codes that only some picture types have are options.
#[derive(Clone, Copy)]
pub struct Mpeg2PictureHeader {
    pub temporal_reference: u16,
    pub picture_coding_type: PictureCodingType,
    pub vbv_delay: u16,
    pub full_pel_forward_vector: Option<bool>,
    pub fwd_f_code: Option<u8>,
    pub full_pel_backward_vector: Option<bool>,
    pub bwd_f_code: Option<u8>,
    // extra_information_picture: how many bytes, and the bit at which the first flag stands, which closes the header where
    // there are none.
    pub extra_information_bytes: usize,
    pub extra_information_bit: u8,
}

// picture_structure (Table 6-14).
#[derive(Clone, Copy, PartialEq, Eq)]
pub enum PictureStructure {
    TopField,
    BottomField,
    Frame,
}

#[derive(Drop)]
pub struct PictureCodingExtension {
    pub f_code_fwd_horiz: u8,
    pub f_code_fwd_vert: u8,
    pub f_code_bwd_horiz: u8,
    pub f_code_bwd_vert: u8,
    pub intra_dc_precision: u8,
    pub picture_structure: PictureStructure,
    pub top_field_first: bool,
    pub frame_pred_frame_dct: bool,
    pub concealment_motion_vectors: bool,
    pub q_scale_type: bool,
    pub intra_vlc_format: bool,
    pub alternate_scan: bool,
    pub repeat_first_field: bool,
    pub chroma_420_type: bool,
    pub progressive_frame: bool,
    pub composite_display_flag: bool,
}

// What both tell of how long a picture lasts: whether it is an I or P picture, whether a field, repeat_first_field and
// top_field_first.
#[derive(Clone, Copy)]
pub struct PictureFacts {
    pub anchor: bool,
    pub field: bool,
    pub repeat: bool,
    pub top: bool,
}

// The number in the four bytes from byte `at` on, high byte first.
fn word(s: &[u8], at: usize) -> u32
    requires { at + 4 ≤ length s.now }
    ensures { result ≡ bits_at s.now (8 * at) 32 }
{
    u32::from_be_bytes([s[at], s[at + 1], s[at + 2], s[at + 3]])
}

// And that in five bytes.
fn long_word(s: &[u8], at: usize) -> u64
    requires { at + 5 ≤ length s.now }
    ensures { result ≡ bits_at s.now (8 * at) 40 }
{
    0x100 * u64::from(word(s, at)) + u64::from(s[at + 4])
}

// picture_coding_type and vbv_delay in the number w of bits 32 to 71.
fn type_in(w: u64) -> u32
    ensures { result ≡ w / 2 ^ 27 % 8 }
{
    ((w >> 27) % 8) as u32
}

fn delay_in(w: u64) -> u16
    ensures { result ≡ w / 2 ^ 11 % 65536 }
{
    ((w >> 11) % 65536) as u16
}

#[tactic(auto, unfolding(crate::specs::PictureHeader::coding_type, bits::specs::Bits::pick))]
fn coding_type_of(code: u32) -> PictureCodingType
    ensures { result ≡ coding_type code }
{
    match code {
        1 => PictureCodingType::Intra,
        2 => PictureCodingType::Predictive,
        3 => PictureCodingType::Bidirectional,
        _ => PictureCodingType::DcIntra,
    }
}

// The fields that a picture type has of its motion vectors, at bit 61.
#[tactic(auto, unfolding(crate::specs::PictureHeader::motion_fields, crate::specs::PictureHeader::vector_fields, crate::specs::PictureHeader::forward, crate::specs::PictureHeader::backward))]
fn read_motion(buf: &[u8], code: u32) -> Result<[u32; 24], FieldsError>
    ensures { fields_answer result ≡ in_places (read_fields (motion_fields code) buf.now 61) }
{
    match code {
        2 => bits::read_fields(buf, 61, &FORWARD_TABLE),
        3 => bits::read_fields(buf, 61, &BOTH_TABLE),
        _ => bits::read_fields(buf, 61, b""),
    }
}

// The bit at which the first extra_bit_picture stands.
#[tactic(auto, unfolding(crate::specs::PictureHeader::extra_bit, crate::specs::PictureHeader::forward, crate::specs::PictureHeader::backward))]
fn extra_bit(code: u32) -> u8
    ensures { result ≡ extra_bit code }
{
    match code {
        2 => 65,
        3 => 69,
        _ => 61,
    }
}

// How many bytes of extra information follow; None where the bits end first. Flag n stands at bit first + 9 * n, which is bit
// first + n of the slice from byte n on.
fn read_extra(buf: &[u8], first: u8) -> Option<usize>
    ensures { extra_answer result ≡ extra_at buf.now first }
{
    for n in 0..buf.len() {
        let flag = bits::read_bits(&buf[n..], usize::from(first) + n, 1)?;
        if flag == 0 {
            return Some(n);
        }
    }
    None
}

// The header of the fields before the motion vectors, of theirs and of n bytes of extra information.
#[tactic(auto, unfolding(crate::specs::PictureHeader::picture_of, crate::specs::PictureHeader::forward, crate::specs::PictureHeader::backward, crate::specs::PictureHeader::flag_if, crate::specs::PictureHeader::code_if))]
fn header_of(
    temporal_reference: u16,
    code: u32,
    vbv_delay: u16,
    m: [u8; 4],
    n: usize,
) -> Mpeg2PictureHeader
    ensures { result ≡ picture_of (temporal_reference ∷ code ∷ vbv_delay ∷ []) m n }
{
    let forward = (code == 2) | (code == 3);
    let backward = code == 3;
    Mpeg2PictureHeader {
        temporal_reference,
        picture_coding_type: coding_type_of(code),
        vbv_delay,
        full_pel_forward_vector: forward.then_some(m[0] == 1),
        fwd_f_code: forward.then_some(m[1]),
        full_pel_backward_vector: backward.then_some(m[2] == 1),
        bwd_f_code: backward.then_some(m[3]),
        extra_information_bytes: n,
        extra_information_bit: extra_bit(code),
    }
}

// Whether `start` in the first four bytes and w in the five after them are those of a picture header without extra
// information: `&`, not `&&`, for one test of each picture.
fn usual_header(start: u32, w: u64) -> bool
    ensures { result ≡ usual_header start w }
{
    let code = type_in(w);
    let first = extra_bit(code);
    let flag = (w >> (71 - first)) % 2;
    (start == PICTURE_WORD) & ((1 <= code) & ((code <= 4) & (flag == 0)))
}

impl Mpeg2PictureHeader {
    // From a slice that begins at the picture's start code; D pictures pass. Where it has nine bytes and no extra
    // information follows, the fields are taken from the number w in bits 32 to 71, and by the table otherwise: by the table
    // alone the check was half as fast as was asked (docs/SPEED.md, 'What was asked').
    pub fn parse(buf: &[u8]) -> Result<Mpeg2PictureHeader, Error>
        ensures { header_answer result ≡ picture_header buf.now }
    {
        if 9 <= buf.len() {
            let w = long_word(buf, 4);
            if usual_header(word(buf, 0), w) {
                let temporal_reference = ((w >> 30) % 1024) as u16;
                let forward_vector = ((w >> 10) % 2) as u8;
                let forward_code = ((w >> 7) % 8) as u8;
                let backward_vector = ((w >> 6) % 2) as u8;
                let backward_code = ((w >> 3) % 8) as u8;
                let m = [forward_vector, forward_code, backward_vector, backward_code];
                return Ok(header_of(temporal_reference, type_in(w), delay_in(w), m, 0));
            }
        }
        header_by_table(buf)
    }

    // With the picture coding extension, which the next start code must be; D pictures are refused (Table 6-12).
    #[tactic(auto, unfolding(crate::specs::Picture::picture, crate::specs::Picture::is_dc, bits::specs::Bits::pick))]
    pub fn parse_with_extension(
        buf: &[u8],
    ) -> Result<(Mpeg2PictureHeader, PictureCodingExtension), Error>
        ensures { header_answer result ≡ picture buf.now }
    {
        let header = Mpeg2PictureHeader::parse(buf)?;
        if header.picture_coding_type == PictureCodingType::DcIntra {
            return Err(Error::InvalidBitstream);
        }
        let Some(at) = next_start_code(buf, byte_length(header)) else {
            return Err(Error::InvalidBitstream);
        };
        let extension = PictureCodingExtension::parse(&buf[at..])?;
        Ok((header, extension))
    }
}

// A header by the tables, whatever the bytes are.
#[tactic(auto, unfolding(crate::specs::PictureHeader::picture_header), using(crate::proofs::Following::read_refused))]
fn header_by_table(buf: &[u8]) -> Result<Mpeg2PictureHeader, Error>
    ensures { header_answer result ≡ picture_header buf.now }
{
    let h = bits::read_header(buf, PICTURE_START, &PICTURE_TABLE)?;
    let code = h[1];
    let m = read_motion(buf, code)?;
    let Some(n) = read_extra(buf, extra_bit(code)) else {
        return Err(Error::ShortHeader);
    };
    let temporal_reference = h[0] as u16;
    let vbv_delay = h[2] as u16;
    let vectors = [m[0] as u8, m[1] as u8, m[2] as u8, m[3] as u8];
    Ok(header_of(temporal_reference, code, vbv_delay, vectors, n))
}

// The bytes that a parsed header occupies: 9 bits for each byte of extra information are that byte and one bit more.
#[tactic(auto, unfolding(crate::specs::PictureHeader::picture_header_bytes, crate::specs::PictureHeader::picture_header_bits))]
fn byte_length(header: Mpeg2PictureHeader) -> usize
    requires { picture_header_bytes header < 2 ^ 64 }
    ensures { result ≡ picture_header_bytes header }
{
    let bit = usize::from(header.extra_information_bit);
    let n = header.extra_information_bytes;
    n + (bit + n + 8) / 8
}

// The bytes that the picture header occupies.
#[tactic(auto, unfolding(crate::specs::PictureHeader::header_length))]
pub fn picture_header_byte_length(buf: &[u8]) -> Result<usize, Error>
    ensures { header_answer result ≡ header_length buf.now }
{
    let header = Mpeg2PictureHeader::parse(buf)?;
    Ok(byte_length(header))
}

#[tactic(auto, unfolding(crate::specs::CodingExtension::picture_structure, bits::specs::Bits::pick))]
fn picture_structure_of(code: u32) -> PictureStructure
    ensures { result ≡ picture_structure code }
{
    match code {
        1 => PictureStructure::TopField,
        2 => PictureStructure::BottomField,
        _ => PictureStructure::Frame,
    }
}

// Whether `start` in the first four bytes and w in the five after them are those of a picture coding extension: one test
// too.
#[tactic(auto, unfolding(crate::specs::Steps::usual_coding))]
fn usual_coding(start: u32, w: u64) -> bool
    ensures { result ≡ usual_coding start w }
{
    let code = (start == EXTENSION_WORD) & (w >> 36 == 8);
    let motion = (1 <= (w >> 32) % 16)
        & ((1 <= (w >> 28) % 16) & ((1 <= (w >> 24) % 16) & (1 <= (w >> 20) % 16)));
    code & (motion & (1 <= (w >> 16) % 4))
}

impl PictureCodingExtension {
    // From a slice that begins at the extension's start code. No f_code may be 0. One that is accepted has nine bytes, and
    // its fields are taken from the number w in bits 32 to 71, as a picture header's are; the tables tell refusals.
    pub fn parse(buf: &[u8]) -> Result<PictureCodingExtension, Error>
        ensures { header_answer result ≡ picture_coding_extension buf.now }
    {
        if 9 <= buf.len() {
            let w = long_word(buf, 4);
            if usual_coding(word(buf, 0), w) {
                let f_code_fwd_horiz = ((w >> 32) % 16) as u8;
                let f_code_fwd_vert = ((w >> 28) % 16) as u8;
                let f_code_bwd_horiz = ((w >> 24) % 16) as u8;
                let f_code_bwd_vert = ((w >> 20) % 16) as u8;
                let structure = ((w >> 16) % 4) as u32;
                let intra_dc_precision = ((w >> 18) % 4) as u8;
                return Ok(PictureCodingExtension {
                    f_code_fwd_horiz,
                    f_code_fwd_vert,
                    f_code_bwd_horiz,
                    f_code_bwd_vert,
                    intra_dc_precision,
                    picture_structure: picture_structure_of(structure),
                    top_field_first: (w >> 15) % 2 == 1,
                    frame_pred_frame_dct: (w >> 14) % 2 == 1,
                    concealment_motion_vectors: (w >> 13) % 2 == 1,
                    q_scale_type: (w >> 12) % 2 == 1,
                    intra_vlc_format: (w >> 11) % 2 == 1,
                    alternate_scan: (w >> 10) % 2 == 1,
                    repeat_first_field: (w >> 9) % 2 == 1,
                    chroma_420_type: (w >> 8) % 2 == 1,
                    progressive_frame: (w >> 7) % 2 == 1,
                    composite_display_flag: (w >> 6) % 2 == 1,
                });
            }
        }
        refused_coding(buf)
    }
}

// What an extension is refused for, by its tables.
#[tactic(auto, unfolding(crate::specs::CodingExtension::picture_coding_extension), using(crate::proofs::Following::read_refused))]
fn refused_coding(buf: &[u8]) -> Result<PictureCodingExtension, Error>
    requires { (x : PictureCodingExtension) → picture_coding_extension buf.now ≡ value x → ⊥ }
    ensures { header_answer result ≡ picture_coding_extension buf.now }
{
    let h = bits::read_header(buf, EXTENSION_START, &MOTION_CODE_TABLE)?;
    if (1 <= h[1]) & ((1 <= h[2]) & ((1 <= h[3]) & (1 <= h[4]))) {
        bits::read_fields(buf, 52, &CODING_TABLE)?; // whatever is refused is refused here
    }
    Err(Error::InvalidBitstream)
}
