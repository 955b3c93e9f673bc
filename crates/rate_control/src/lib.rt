// The writer, at a constant or a variable rate: creation, offers of pictures and withdrawals (paper 01, 'A placed picture').
#![tactic(auto)]

ghost use Rattle.std.specs.Prelude.{◌≡◌};
ghost use Rattle.rate_control.specs.Answers.{offer_refusal};
ghost use Rattle.rate_control.specs.Steps.{not_removed};
ghost use Rattle.rate_control.specs.declared.CbrError.TheVariants.{Model};
ghost use Rattle.rate_control.specs.declared.Untested.TheVariants.{Refused};

mod create; // creation, and the targets
mod state; // the ranges of a state, and what it keeps for each kind
mod withdraw; // withdrawals
mod measure; // where an offered picture lies in the stream, and what the model says to it
mod flow; // what the model says to it at a variable rate
mod answer; // the writer after an offer
mod output; // the bytes placed
mod offer; // an offer: its tests and its answer

use crate::measure::violated;
use bits::{VbvRefusal, plain};
use cadence::VbvCadence;
use layers::PictureKind;
use vbv::{RemovalInterval, VbvCbrModel, VbvError, VbvRemovalError, VbvViolation};
use verify::VbvMode;

// What a writer is created with: MPEG-2, plain or film, at a constant or a variable rate; the sequence header's fields, the
// quantiser that every kind starts from, B pictures between anchors and anchors in a group. It has no equality, as its mode has none.
#[derive(Clone, Copy)]
pub struct CbrConfig {
    pub mode: VbvMode,
    pub bit_rate_value: u32,
    pub vbv_buffer_size_value: u16,
    // A code as it stands: creation answers 6 to one that Table 6-4 lacks.
    pub frame_rate_code: u8,
    pub frame_rate_extension_n: u8,
    pub frame_rate_extension_d: u8,
    pub initial_quantiser_scale_code: u8,
    pub b_between: u8,
    pub anchors_per_gop: u8,
}

// The model is started once a picture is placed; its previous end is the end of what was handed out. Targets and quantisers are
// those of I, P and B, an array each: the theorem of lists of calls (`holding`) names them so. Pending is the kind of the picture
// that is to be offered again, with the quantiser to encode it with. The cadence is that of the pictures placed; the rate is
// constant or variable. It has no equality, as its cadence has none.
#[derive(Clone, Copy)]
pub struct CbrWriter {
    pub model: VbvCbrModel,
    pub target_bits: [u64; 3],
    pub q: [u8; 3],
    pub pending: Option<(PictureKind, u8)>,
    pub stuffing_bytes: u64,
    pub finished: bool,
    pub cadence: VbvCadence,
    pub variable: bool,
}

// Why an offer is refused.
#[derive(Clone, Copy, PartialEq, Eq)]
pub enum CbrError {
    // The writer's state, a position or an end out of range, or a position beyond the bits delivered.
    Model(VbvError),
    // The bits delivered overflow the buffer: in what creation and calls left only before the first placing.
    Violation(VbvViolation),
    // The kind is unlike the pending one, or the writer is finished.
    Kind,
    Headers,
    Layer,
    // Too large at quantiser 31.
    TooLarge,
    // The stuffed end lies beyond the bits delivered.
    Stuffing,
    // The output part is shorter than the bytes to place.
    Output,
}

// The answer to an offer that is not refused.
#[derive(Clone, Copy, PartialEq, Eq)]
pub enum CbrGiven {
    Placed {
        q: u8,
        vbv_delay: u16,
        bytes: u64,
        stuffing_bytes: u64,
    },
    // To be offered again, encoded with this quantiser.
    Again(u8),
}

// The writer after an offer, beside the answer: a refusal of a picture too large leaves another one than was called.
#[derive(Drop)]
pub struct CbrOffered {
    pub answer: Result<CbrGiven, CbrError>,
    pub writer: CbrWriter,
}

// An offered picture in the stream: where its start code and its data end, in bits, and how many bytes it has without stuffing.
#[derive(Drop)]
struct Extent {
    pub position: u64,
    pub content: u64,
    pub bytes: u64,
}

// How long an offered picture lasts, and the cadence after it.
#[derive(Drop)]
struct Timing {
    pub interval: RemovalInterval,
    pub cadence: VbvCadence,
}

// What is placed: the model after it, the delay, all bytes and the zeros among them.
#[derive(Drop)]
struct Placement {
    pub model: VbvCbrModel,
    pub vbv_delay: u16,
    pub bytes: u64,
    pub stuffing_bytes: u64,
}

// Why a picture is not placed, but for the room in the output part.
#[derive(Drop)]
enum Untested {
    Refused(CbrError),
    TooLarge,
}

impl From<VbvError> for Untested {
    ghost from_gives = { λ e r. r ≡ Refused (Model e) };

    fn from(error: VbvError) -> Untested {
        Untested::Refused(CbrError::Model(error))
    }
}

// At the end of its data: an underflow is a picture too large.
impl From<VbvRemovalError> for Untested {
    ghost from_gives = { λ e r. r ≡ not_removed e };

    #[tactic(auto, unfolding(crate::specs::Steps::not_removed))]
    fn from(error: VbvRemovalError) -> Untested {
        match error {
            VbvRemovalError::Model(error) => Untested::Refused(CbrError::Model(error)),
            VbvRemovalError::Violation(violation) => violated(violation),
        }
    }
}

impl CbrError {
    // The number, and what the refusal carries (docs/REFUSALS.md), as C is given them: `From` would not say so.
    pub fn refusal(self) -> VbvRefusal
        ensures { result ≡ offer_refusal self }
    {
        match self {
            CbrError::Model(e) => plain(e.number()),
            CbrError::Violation(v) => v.refusal(),
            CbrError::Kind => plain(17),
            CbrError::Headers => plain(18),
            CbrError::Layer => plain(20),
            CbrError::TooLarge => plain(21),
            CbrError::Stuffing => plain(22),
            CbrError::Output => plain(19),
        }
    }
}
