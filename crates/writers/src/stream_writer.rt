// The writers of sequence_header() (6.2.2.1) and sequence_extension() (6.2.2.3).
ghost use Rattle.std.specs.Prelude.{◌≡◌, true, ◌+◌, ◌*◌, ◌≤◌, length};
ghost use Rattle.bits.specs.Bits.{bit_list, append_bits};
ghost use Rattle.bits.specs.Fields.{field_bits, write_header, fits_all, total};
ghost use Rattle.bits.specs.Answers.{over, write_answer, write_result};
ghost use Rattle.bits.specs.StartCodes.{start_code, sequence_header_code, extension_start_code};
ghost use Rattle.headers.specs.Answers.{header_answer};
ghost use Rattle.headers.specs.QuantMatrix.{matrix_fields, matrix_values};
ghost use Rattle.headers.specs.SequenceHeader.{sequence_header_fields};
ghost use Rattle.headers.specs.SequenceExtension.{sequence_extension_fields, extension_values, chroma_code};
ghost use Rattle.headers.specs.StreamWriter.{params_fields, base_values, params_values, profile_and_level, plain_extension};

use bits::start_codes::{EXTENSION_START, SEQUENCE_HEADER};
use headers::Error;
use headers::quant_matrix_extension::matrix_bytes;
use headers::sequence_extension::{ChromaFormat, SEQUENCE_EXTENSION_TABLE};
use headers::sequence_header::SEQUENCE_HEADER_TABLE;
use headers::stream_writer::SequenceHeaderParams;

// Writes 64 bytes from bit `at` on.
fn append_bytes(out: &mut [u8], at: usize, bytes: [u8; 64])
    requires at_bound { at ≤ 608 }
    requires at_bound_2 { at + 512 ≤ 8 * length out.old }
    ensures { out.new ≡ append_bits out.old at (bit_list bytes) }
{
    for (k, byte) in bytes.iter().enumerate() {
        bits::append_bits(out, at + 8 * k, 8, u32::from(*byte));
    }
}

// Writes a matrix's load flag at bit `at` and, where there is one, the matrix; the bit after it is the answer.
fn append_matrix(out: &mut [u8], at: usize, matrix: Option<[u8; 64]>) -> usize
    requires at_bound { at ≤ 607 }
    requires matrix_bound { at + total (matrix_fields matrix) ≤ 8 * length out.old }
    ensures value { result ≡ at + total (matrix_fields matrix) }
    ensures out_after { out.new ≡ append_bits out.old at (field_bits (matrix_fields matrix) (matrix_values matrix)) }
{
    match matrix {
        None => {
            bits::append_bits(out, at, 1, 0);
            at + 1
        }
        Some(bytes) => {
            bits::append_bits(out, at, 1, 1);
            append_bytes(out, at + 1, bytes);
            at + 513
        }
    }
}

// The values of the fields before the matrices.
fn base_values(p: SequenceHeaderParams) -> [u32; 8]
    ensures { result ≡ base_values p }
{
    [
        u32::from(p.horizontal_size),
        u32::from(p.vertical_size),
        u32::from(p.aspect_ratio_code),
        u32::from(p.frame_rate_code),
        p.bit_rate_value,
        1,
        u32::from(p.vbv_buffer_size_value),
        0,
    ]
}

// Writes a header that fits into the first bytes of out.
fn put_header(out: &mut [u8], p: SequenceHeaderParams)
    requires p_value { fits_all sequence_header_fields (base_values p) ≡ true }
    requires p_bound { 32 + total (params_fields p) ≤ 8 * length out.old }
    ensures { out.new ≡ over (write_header (start_code sequence_header_code) (params_fields p) (params_values p)) out.old }
{
    let values = base_values(p);
    let _ = bits::write_header(out, SEQUENCE_HEADER, &SEQUENCE_HEADER_TABLE, &values);
    let follows = append_matrix(out, 94, p.intra_quantiser_matrix);
    append_matrix(out, follows, p.non_intra_quantiser_matrix);
}

// Writes the header into the first bytes of out; a matrix stands in it where there is one.
pub fn write_sequence_header(out: &mut [u8], p: SequenceHeaderParams) -> Result<usize, Error>
    ensures result_value { header_answer result ≡ write_answer (start_code sequence_header_code) (params_fields p) (params_values p) out.old }
    ensures out_after { out.new ≡ write_result (start_code sequence_header_code) (params_fields p) (params_values p) out.old }
{
    let values = base_values(p);
    let Some(_) = bits::check_fields(&SEQUENCE_HEADER_TABLE, &values) else {
        return Err(Error::FieldToWrite);
    };
    let bytes = 12
        + matrix_bytes(p.intra_quantiser_matrix)
        + matrix_bytes(p.non_intra_quantiser_matrix);
    if out.len() < bytes {
        return Err(Error::ShortOutput);
    }
    put_header(out, p);
    Ok(bytes)
}

fn chroma_format_code(chroma: ChromaFormat) -> u32
    ensures { result ≡ chroma_code chroma }
{
    match chroma {
        ChromaFormat::Yuv420 => 1,
        ChromaFormat::Yuv422 => 2,
        ChromaFormat::Yuv444 => 3,
    }
}

// profile_and_level_indication of a chroma format (Tables 8-2, 8-3).
pub fn profile_and_level_indication(chroma: ChromaFormat) -> u8
    ensures { result ≡ profile_and_level chroma }
{
    match chroma {
        ChromaFormat::Yuv420 => 0x48,
        ChromaFormat::Yuv422 => 0x18,
        ChromaFormat::Yuv444 => 0x18,
    }
}

// The values of the extension's fields.
fn extension_values(chroma: ChromaFormat, progressive: bool) -> [u32; 12]
    ensures { result ≡ extension_values (plain_extension chroma progressive) }
{
    [
        1,
        u32::from(profile_and_level_indication(chroma)),
        u32::from(progressive),
        chroma_format_code(chroma),
        0,
        0,
        0,
        1,
        0,
        0,
        0,
        0,
    ]
}

// Writes the extension, with all size, rate and buffer extensions 0, into the first bytes of out.
pub fn write_sequence_extension(
    out: &mut [u8],
    chroma: ChromaFormat,
    progressive: bool,
) -> Result<usize, Error>
    ensures result_value { header_answer result ≡ write_answer (start_code extension_start_code) sequence_extension_fields (extension_values (plain_extension chroma progressive)) out.old }
    ensures out_after { out.new ≡ write_result (start_code extension_start_code) sequence_extension_fields (extension_values (plain_extension chroma progressive)) out.old }
{
    let values = extension_values(chroma, progressive);
    Ok(bits::write_header(out, EXTENSION_START, &SEQUENCE_EXTENSION_TABLE, &values)?)
}
