// Withdrawals.
ghost use Rattle.std.specs.Prelude.{◌≡◌};
ghost use Rattle.vbv.specs.Answers.{model_answer};
ghost use Rattle.rate_control.specs.Offer.{with_pending, withdraw};

use crate::CbrWriter;
use layers::PictureKind;
use vbv::VbvError;

impl CbrWriter {
    #[tactic(auto, unfolding(crate::specs::Offer::with_pending))]
    pub(crate) fn with_pending(self, pending: Option<(PictureKind, u8)>) -> CbrWriter
        ensures { result ≡ with_pending self pending }
    {
        CbrWriter { pending, ..self }
    }

    // Closes a pending picture, if there is one.
    #[tactic(auto, unfolding(crate::specs::Offer::withdraw, bits::specs::Bits::pick))]
    pub fn withdraw(self) -> Result<CbrWriter, VbvError>
        ensures { model_answer result ≡ withdraw self }
    {
        if self.fits() {
            Ok(self.with_pending(None))
        } else {
            Err(VbvError::Params)
        }
    }
}
