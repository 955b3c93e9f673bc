// Kinds 1 to 7: what the parsers answer to the bytes of s, as oracle/FORMAT.md lays it out. Each function puts it at the
// start of out and answers its length.
ghost use Rattle.std.specs.Prelude.{◌<◌};

use cases::put::{put, put_bytes, put_numbers, put32};
use headers::Error;
use headers::sequence_extension::{ChromaFormat, Mpeg2Sequence, Mpeg2SequenceExtension};
use headers::sequence_header::{AspectRatio, Mpeg2SequenceHeader};
use picture_header::{
    Mpeg2PictureHeader, PictureCodingExtension, PictureCodingType, PictureStructure,
};

pub(crate) fn answer(kind: u8, s: &[u8], out: &mut [u8]) -> usize {
    match kind {
        1 => put_result(out, Mpeg2SequenceHeader::parse(s), put_sequence_header),
        2 => put_result(
            out,
            Mpeg2SequenceExtension::parse(s),
            put_sequence_extension,
        ),
        3 => put_result(out, Mpeg2Sequence::from_buf(s), put_sequence),
        4 => put_result(
            out,
            Mpeg2PictureHeader::parse(s),
            |h, out, at| put_picture_header(h, out, at, s),
        ),
        5 => put_result(
            out,
            PictureCodingExtension::parse(s),
            put_picture_coding_extension,
        ),
        6 => put_result(
            out,
            Mpeg2PictureHeader::parse_with_extension(s),
            |(h, e), out, at| {
                let next = put_picture_header(h, out, at, s);
                put_picture_coding_extension(e, out, next)
            },
        ),
        _ => put_result(
            out,
            picture_header::picture_header_byte_length(s),
            |n, out, at| put32(out, at, low32(n)),
        ),
    }
}

// The answer of a parser: the number of what it refused for, or 0 and what it parsed.
fn put_result<T, F: Fn(T, &mut [u8], usize) -> usize>(
    out: &mut [u8],
    parsed: Result<T, Error>,
    put_parsed: F,
) -> usize
    requires { F.IsAlwaysCallable put_parsed }
{
    match parsed {
        Err(e) => put(out, 0, e.number()),
        Ok(x) => {
            let at = put(out, 0, 0);
            put_parsed(x, out, at)
        }
    }
}

fn put_sequence_header(h: Mpeg2SequenceHeader, out: &mut [u8], at: usize) -> usize {
    let numbers = [
        u32::from(h.width),
        u32::from(h.height),
        aspect_code(h.aspect_ratio),
        u32::from(h.frame_rate_code),
        h.bit_rate,
        u32::from(h.vbv_buffer_size),
        u32::from(h.constrained_parameters),
    ];
    let next = put_numbers(out, at, &numbers);
    let last = put_matrix(out, next, h.intra_quant);
    put_matrix(out, last, h.non_intra_quant)
}

// The code of oracle/FORMAT.md: the variant, with a reserved code above it.
fn aspect_code(aspect: AspectRatio) -> u32 {
    match aspect {
        AspectRatio::Square => 1,
        AspectRatio::Dar3x4 => 2,
        AspectRatio::Dar9x16 => 3,
        AspectRatio::Dar1x221 => 4,
        AspectRatio::Reserved(code) => 5 + 256 * u32::from(code),
    }
}

fn put_matrix(out: &mut [u8], at: usize, matrix: Option<[u8; 64]>) -> usize {
    let Some(bytes) = matrix else {
        return put(out, at, 0);
    };
    let next = put(out, at, 1);
    put_bytes(out, next, &bytes)
}

fn put_sequence_extension(e: Mpeg2SequenceExtension, out: &mut [u8], at: usize) -> usize {
    let chroma = e.chroma_format;
    let numbers = [
        u32::from(e.profile_and_level),
        u32::from(e.progressive_sequence),
        chroma_code(chroma),
        u32::from(e.horizontal_size_extension),
        u32::from(e.vertical_size_extension),
        u32::from(e.bit_rate_extension),
        u32::from(e.vbv_buffer_size_extension),
        u32::from(e.low_delay),
        u32::from(e.frame_rate_extension_n),
        u32::from(e.frame_rate_extension_d),
    ];
    put_numbers(out, at, &numbers)
}

// The code of oracle/FORMAT.md.
fn chroma_code(chroma: ChromaFormat) -> u32 {
    match chroma {
        ChromaFormat::Yuv420 => 1,
        ChromaFormat::Yuv422 => 2,
        ChromaFormat::Yuv444 => 3,
    }
}

fn put_sequence(s: Mpeg2Sequence, out: &mut [u8], at: usize) -> usize {
    let header = s.header;
    let extension = s.extension;
    let numbers = [
        u32::from(s.horizontal_size),
        u32::from(s.vertical_size),
        s.bit_rate,
        s.vbv_buffer_size,
    ];
    let next = put_numbers(out, at, &numbers);
    let last = put_sequence_header(header, out, next);
    put_sequence_extension(extension, out, last)
}

fn put_picture_header(h: Mpeg2PictureHeader, out: &mut [u8], at: usize, s: &[u8]) -> usize {
    let coding_type = h.picture_coding_type;
    let forward = h.full_pel_forward_vector;
    let fwd_f_code = h.fwd_f_code;
    let backward = h.full_pel_backward_vector;
    let bwd_f_code = h.bwd_f_code;
    let numbers = [
        u32::from(h.temporal_reference),
        type_code(coding_type),
        u32::from(h.vbv_delay),
        option_code(forward),
        option_code(fwd_f_code),
        option_code(backward),
        option_code(bwd_f_code),
        u32::from(h.extra_information_bit),
        low32(h.extra_information_bytes),
    ];
    let next = put_numbers(out, at, &numbers);
    put_extra(
        out,
        next,
        s,
        h.extra_information_bit,
        h.extra_information_bytes,
    )
}

// The code of oracle/FORMAT.md.
fn type_code(t: PictureCodingType) -> u32 {
    match t {
        PictureCodingType::Intra => 1,
        PictureCodingType::Predictive => 2,
        PictureCodingType::Bidirectional => 3,
        PictureCodingType::DcIntra => 4,
    }
}

// A value that the picture's type does not have is 255.
fn option_code<T>(value: Option<T>) -> u32
where
    u32: From<T>,
{
    value.map_or(255, u32::from)
}

// The byte of extra information after the flag at a bit.
fn extra_byte(s: &[u8], flag: usize) -> u8
    requires { flag < 65536 }
{
    match bits::read_bits(s, flag + 1, 8) {
        None => 0,
        Some(v) => (v % 256) as u8,
    }
}

// The low 32 bits of a count.
pub(crate) fn low32(n: usize) -> u32 {
    (n % 0x1_0000_0000) as u32
}

// The extra information of a picture header, at most 4,096 bytes of it; its first flag is bit `first` of s.
fn put_extra(out: &mut [u8], at: usize, s: &[u8], first: u8, count: usize) -> usize {
    let bit = usize::from(first);
    let mut next = at;
    for k in 0..count.min(4096) {
        next = put(out, next, extra_byte(s, bit + 9 * k));
    }
    next
}

fn put_picture_coding_extension(e: PictureCodingExtension, out: &mut [u8], at: usize) -> usize {
    let structure = e.picture_structure;
    let numbers = [
        u32::from(e.f_code_fwd_horiz),
        u32::from(e.f_code_fwd_vert),
        u32::from(e.f_code_bwd_horiz),
        u32::from(e.f_code_bwd_vert),
        u32::from(e.intra_dc_precision),
        structure_code(structure),
        u32::from(e.top_field_first),
        u32::from(e.frame_pred_frame_dct),
        u32::from(e.concealment_motion_vectors),
        u32::from(e.q_scale_type),
        u32::from(e.intra_vlc_format),
        u32::from(e.alternate_scan),
        u32::from(e.repeat_first_field),
        u32::from(e.chroma_420_type),
        u32::from(e.progressive_frame),
        u32::from(e.composite_display_flag),
    ];
    put_numbers(out, at, &numbers)
}

// The code of oracle/FORMAT.md.
fn structure_code(structure: PictureStructure) -> u32 {
    match structure {
        PictureStructure::TopField => 1,
        PictureStructure::BottomField => 2,
        PictureStructure::Frame => 3,
    }
}
