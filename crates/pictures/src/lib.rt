// What the headers of a stream show: what its first sequence header declares, and its pictures in stream order.
#![tactic(auto)]

ghost use Rattle.std.specs.Prelude.{◌≡◌};
ghost use Rattle.pictures.specs.declared.Unread.TheVariants.{Parse, Model};

mod cadence_opened; // the cadence that a sequence header opens
mod seen; // the pictures, one after another
mod sequence; // what the first sequence header declares

pub use crate::cadence_opened::{cadence_by, cadence_of};
pub use crate::seen::next_seen;
pub use crate::sequence::{declared_by, opening};
use headers::Error;
use picture_header::PictureFacts;
use vbv::VbvError;

#[derive(Clone, Copy, PartialEq, Eq)]
pub enum VbvStandard {
    Mpeg1,
    Mpeg2,
}

// Why the headers of a stream are refused.
#[derive(Clone, Copy, PartialEq, Eq)]
pub enum Unread {
    // A header.
    Parse(Error),
    // The stream's length, the frame rate code.
    Model(VbvError),
    NoSequenceHeader,
    NoPictures,
}

impl From<Error> for Unread {
    ghost from_gives = { λ e r. r ≡ Parse e };

    fn from(e: Error) -> Unread {
        Unread::Parse(e)
    }
}

impl From<VbvError> for Unread {
    ghost from_gives = { λ e r. r ≡ Model e };

    fn from(e: VbvError) -> Unread {
        Unread::Model(e)
    }
}

// A picture as its headers show it: the end of its start code and the end of its data, in bits, its coded delay, its facts.
#[derive(Drop)]
pub struct SeenPicture {
    pub pos_bits: u64,
    pub end_bits: u64,
    pub vbv_delay: u16,
    pub facts: PictureFacts,
}
