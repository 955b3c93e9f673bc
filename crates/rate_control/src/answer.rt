// The writer after an offer.
ghost use Rattle.std.specs.Prelude.{◌≡◌};
ghost use Rattle.rate_control.specs.Writer.{asked};
ghost use Rattle.rate_control.specs.Steps.{Placeable, placed_by, refused_in_code, too_large_in_code};

use crate::state::{coarser, index, steered};
use crate::{CbrError, CbrGiven, CbrOffered, CbrWriter, Placement};
use cadence::VbvCadence;
use layers::PictureKind;

impl CbrWriter {
    // Nothing changes.
    #[tactic(auto, unfolding(crate::specs::Steps::refused_in_code))]
    pub(crate) fn refused(self, error: CbrError) -> CbrOffered
        ensures { result ≡ refused_in_code self error }
    {
        CbrOffered {
            answer: Err(error),
            writer: self,
        }
    }

    // A coarser quantiser, or at 31 a refusal that closes the pending picture.
    #[tactic(auto, unfolding(crate::specs::Steps::too_large_in_code, bits::specs::Bits::pick))]
    pub(crate) fn too_large(self, kind: PictureKind) -> CbrOffered
        ensures { result ≡ too_large_in_code self kind (asked self kind) }
    {
        let q = self.asked(kind);
        if q == 31 {
            return CbrOffered {
                answer: Err(CbrError::TooLarge),
                writer: self.with_pending(None),
            };
        }
        let next = coarser(q);
        CbrOffered {
            answer: Ok(CbrGiven::Again(next)),
            writer: self.with_pending(Some((kind, next))),
        }
    }

    // The kind's quantiser is steered by the layer's bytes, and the cadence is the one after the picture.
    pub(crate) fn placed(
        self,
        kind: PictureKind,
        layer: u64,
        last: bool,
        placement: Placement,
        cadence: VbvCadence,
    ) -> CbrOffered
        requires { Placeable self kind layer placement }
        ensures { result ≡ placed_by self kind layer last placement cadence }
    {
        let q = self.asked(kind);
        let k = index(kind);
        let mut next = self.q;
        next[k] = steered(q, self.target_bits[k], 8 * layer);
        let stuffing_bytes = placement.stuffing_bytes;
        CbrOffered {
            answer: Ok(CbrGiven::Placed {
                q,
                vbv_delay: placement.vbv_delay,
                bytes: placement.bytes,
                stuffing_bytes,
            }),
            writer: CbrWriter {
                model: placement.model,
                q: next,
                pending: None,
                stuffing_bytes: self.stuffing_bytes + stuffing_bytes,
                finished: last,
                cadence,
                ..self
            },
        }
    }
}
