// The model by reference: start and removal of a lent model, thin above the model by value. (The Rust lends its model; the
// definitions and all else here speak of values: docs/DECISIONS.md 28.)
ghost use Rattle.std.specs.Prelude.{◌≡◌};
ghost use Rattle.vbv.specs.Model.{start_model, remove_picture};
ghost use Rattle.bits.specs.Refusals.{or_else};
ghost use Rattle.vbv.specs.Answers.{model_answer, removal_answer};
ghost use Rattle.vbv.specs.Lent.{done_answer};

use crate::{RemovalInterval, VbvCbrModel, VbvError, VbvRemovalError};

impl VbvCbrModel {
    // Starts the lent model; a refused start leaves it as it was.
    pub fn start_in_place(&mut self, initial_vbv_delay: u16, pos0_bits: u64) -> Result<(), VbvError>
        ensures { (model_answer result ≡ done_answer (start_model self.old initial_vbv_delay pos0_bits)) × (self.new ≡ or_else self.old (start_model self.old initial_vbv_delay pos0_bits)) }
    {
        *self = self.start(initial_vbv_delay, pos0_bits)?;
        Ok(())
    }

    // Removes the lent model's pending picture, whose data ends at end; a refused removal leaves the model as it was.
    pub fn remove_in_place(
        &mut self,
        end_bits: u64,
        interval: RemovalInterval,
    ) -> Result<(), VbvRemovalError>
        ensures { (removal_answer result ≡ done_answer (remove_picture self.old end_bits interval)) × (self.new ≡ or_else self.old (remove_picture self.old end_bits interval)) }
    {
        *self = self.remove_picture(end_bits, interval)?;
        Ok(())
    }
}
