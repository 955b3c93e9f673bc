// The buffer report of a stream: the check of Annex C, at a constant or a variable rate, over the pictures that its headers show.
#![tactic(auto)]

ghost use Rattle.std.specs.Prelude.{◌≡◌};
ghost use Rattle.verify.specs.Answers.{unread_error, refusal_of};
ghost use Rattle.verify.specs.declared.VbvVerifyError.TheVariants.{Model};
ghost use Rattle.verify.specs.Mode.{plain as plain_of, has_modes, mode_fits};

pub mod lent; // the check with records in a lent slice of structs
mod records; // records as bytes
mod recorder; // the walk over a stream's pictures
mod report; // the check of a stream
mod run; // one removal after another

pub use crate::report::{check_in_mode, check_stream, verify_cbr_stream, verify_in_mode};
pub use bits::{VbvRefusal, plain};
use headers::Error;
use pictures::Unread;
pub use pictures::VbvStandard;
use vbv::{RemovalInterval, VbvCbrModel, VbvError, VbvParams, VbvViolation};

// What a stream is checked as, and a writer writes. Film and a variable rate are MPEG-2's alone: the flags can say what does not
// exist, for `mode_fits` and refusal 12 speak of it.
#[derive(Clone, Copy)]
pub struct VbvMode {
    pub standard: VbvStandard,
    pub film: bool,
    pub variable: bool,
}

// The bytes of a record (docs/LAYOUT.md).
pub const RECORD_BYTES: usize = 40;

// One removal. Occupancy is in whole bits, just before it; the periods are the field periods up to the next removal.
#[derive(Clone, Copy, PartialEq, Eq)]
pub struct VbvPictureRecord {
    pub vbv_delay: u16,
    pub expected_delay: u16,
    pub data_bits: u64,
    pub occupancy_before_bits: u64,
    pub periods: u8,
}

#[derive(Clone, Copy, PartialEq, Eq)]
pub struct VbvStreamReport {
    pub bit_rate: u64,
    pub buffer_size_bits: u64,
    pub pictures: u64,
    pub min_occupancy_after_bits: u64,
    pub max_occupancy_before_bits: u64,
}

// Why a stream is refused.
#[derive(Clone, Copy, PartialEq, Eq)]
pub enum VbvVerifyError {
    // A header.
    Parse(Error),
    // The stream's length, the frame rate code, the parameters, a position or a delay.
    Model(VbvError),
    NoSequenceHeader,
    NoPictures,
    // At a constant rate: the first delay is 0xFFFF.
    VariableRate,
    // At a variable rate: a delay is not 0xFFFF.
    ConstantRate,
    // Fewer record places than pictures.
    RecordPlaces,
    // Overflow, underflow or a delay unlike the expected one.
    Violation(VbvViolation),
}

// A picture as the model sees it: the end of its start code and the end of its data, in bits, its coded delay, and the
// interval up to the next removal.
#[derive(Clone, Copy)]
pub struct CodedPicture {
    pub pos_bits: u64,
    pub end_bits: u64,
    pub vbv_delay: u16,
    pub interval: RemovalInterval,
}

// How far the model has come.
#[derive(Clone, Copy)]
enum Progress {
    // No picture yet.
    Fresh,
    // Refused ahead of the removals and of 15 (5, 25, 12), and why.
    Unmodelled(VbvVerifyError),
    // The model after the last removal and that removal's record; the least occupancy after one so far, the greatest before.
    Running {
        model: VbvCbrModel,
        last: VbvPictureRecord,
        least: u64,
        greatest: u64,
    },
    // A removal was refused.
    Stopped(VbvVerifyError),
}

// What a walk over the pictures comes to: what the stream declares, the number of its pictures and how far the model came.
#[derive(Drop)]
struct Walked {
    params: VbvParams,
    pictures: usize,
    progress: Progress,
}

// Film and a variable rate.
#[tactic(auto, unfolding(crate::specs::Mode::has_modes))]
fn has_modes(standard: VbvStandard) -> bool
    ensures { result ≡ has_modes standard }
{
    matches!(standard, VbvStandard::Mpeg2)
}

impl VbvMode {
    // Outside film, at a constant rate.
    pub fn plain(standard: VbvStandard) -> VbvMode
        ensures { result ≡ plain_of standard }
    {
        VbvMode {
            standard,
            film: false,
            variable: false,
        }
    }

    // Whether there is this mode.
    #[tactic(auto, unfolding(crate::specs::Mode::mode_fits, bits::specs::Bits::pick))]
    pub fn fits(self) -> bool
        ensures { result ≡ mode_fits self }
    {
        let standard = self.standard;
        if self.film | self.variable {
            return has_modes(standard);
        }
        true
    }
}

impl From<VbvError> for VbvVerifyError {
    ghost from_gives = { λ error result. result ≡ Model error };

    fn from(error: VbvError) -> VbvVerifyError {
        VbvVerifyError::Model(error)
    }
}

impl From<Unread> for VbvVerifyError {
    ghost from_gives = { λ unread result. result ≡ unread_error unread };

    #[tactic(auto, unfolding(crate::specs::Answers::unread_error))]
    fn from(unread: Unread) -> VbvVerifyError {
        match unread {
            Unread::Parse(e) => VbvVerifyError::Parse(e),
            Unread::Model(e) => VbvVerifyError::Model(e),
            Unread::NoSequenceHeader => VbvVerifyError::NoSequenceHeader,
            Unread::NoPictures => VbvVerifyError::NoPictures,
        }
    }
}

impl VbvVerifyError {
    // The number, and what the refusal carries (docs/REFUSALS.md), as C is given them: `From` would not say so.
    pub fn refusal(self) -> VbvRefusal
        ensures { result ≡ refusal_of self }
    {
        match self {
            VbvVerifyError::Parse(e) => plain(e.number()),
            VbvVerifyError::Model(e) => plain(e.number()),
            VbvVerifyError::NoSequenceHeader => plain(3),
            VbvVerifyError::NoPictures => plain(4),
            VbvVerifyError::VariableRate => plain(5),
            VbvVerifyError::ConstantRate => plain(25),
            VbvVerifyError::RecordPlaces => plain(15),
            VbvVerifyError::Violation(v) => v.refusal(),
        }
    }
}
