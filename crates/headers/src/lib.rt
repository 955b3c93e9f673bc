// The sequence headers of MPEG-1 and MPEG-2 video (ISO/IEC 13818-2 6.2.2, 11172-2 2.4.2.3), read from byte slices, and what all
// headers share; the crate `picture_header` reads those of pictures, `writers` writes.
#![tactic(auto)]

ghost use Rattle.std.specs.Prelude.{◌≡◌, ◌+◌, drop};
ghost use Rattle.headers.specs.Answers.{error_number, fields_error, write_error, next_answer};
ghost use Rattle.headers.specs.StartCode.{leading_zeros, prefix_at, next_start_code};

pub mod gop_header; // group_of_pictures_header(), and the time code
pub mod quant_matrix_extension; // the 64-byte matrices
pub mod sequence_extension; // sequence_extension(), and both sequence headers together
pub mod sequence_header; // sequence_header()
pub mod stream_writer; // what the writer of a sequence header is given

use bits::start_codes::START_CODE_PREFIX;
use bits::{FieldsError, WriteError};

// Why a header is refused, or not written.
#[derive(Clone, Copy, PartialEq, Eq)]
pub enum Error {
    // The bytes end inside the header.
    ShortHeader,
    // A value or a code that the header must not have.
    InvalidBitstream,
    // A field to write that is 0 where it must not be, or too wide.
    FieldToWrite,
    // An output part shorter than the bytes to write.
    ShortOutput,
}

impl Error {
    // The refusal's number (docs/REFUSALS.md), which C is given; `u8::from` would not say what the number is.
    pub fn number(self) -> u8
        ensures { result ≡ error_number self }
    {
        match self {
            Error::ShortHeader => 1,
            Error::InvalidBitstream => 2,
            Error::FieldToWrite => 16,
            Error::ShortOutput => 19,
        }
    }
}

impl From<FieldsError> for Error {
    ghost from_gives = { λ e r. r ≡ fields_error e };

    fn from(e: FieldsError) -> Error {
        match e {
            FieldsError::Short => Error::ShortHeader,
            FieldsError::Bad => Error::InvalidBitstream,
        }
    }
}

impl From<WriteError> for Error {
    ghost from_gives = { λ e r. r ≡ write_error e };

    fn from(e: WriteError) -> Error {
        match e {
            WriteError::Unfit => Error::FieldToWrite,
            WriteError::Full => Error::ShortOutput,
        }
    }
}

// The byte after the zero bytes from `from` on.
fn past_zeros(buf: &[u8], from: usize) -> usize
    ensures { result ≡ from + leading_zeros (drop from buf.now) }
{
    // As a chain of iterators (`skip`, `take_while`, `count`; `position`) it was tried, and the proof did not close.
    let mut at = from;
    while at < buf.len() && buf[at] == 0 {
        at += 1;
    }
    at
}

// Whether 00 00 01 stands at a byte.
#[tactic(auto, unfolding(crate::specs::StartCode::prefix_at))]
pub fn prefix_at(buf: &[u8], at: usize) -> bool
    ensures { result ≡ prefix_at buf.now at }
{
    bits::bytes_at(buf, at, &START_CODE_PREFIX)
}

// next_start_code() (5.2.3): zero bytes are passed over; the byte after them must be 01, with two zero bytes before it,
// which may lie before `from`. Most often it stands at `from`.
pub fn next_start_code(buf: &[u8], from: usize) -> Option<usize>
    ensures { next_answer result ≡ next_start_code buf.now from }
{
    if prefix_at(buf, from) {
        return Some(from);
    }
    let at = past_zeros(buf, from).checked_sub(2)?;
    if prefix_at(buf, at) { Some(at) } else { None }
}
