// The forms by reference, called with what is lent in locals: parameters and results are plain.
ghost use Rattle.std.specs.Prelude.{◌≡◌, replicate};
ghost use Rattle.verify.specs.Answers.{verified_answer};
ghost use Rattle.verify.specs.Check.{verdict, reported, records as records_of};
ghost use Rattle.verify.specs.Mode.{plain as plain_of};
ghost use Rattle.bits.specs.Answers.{over};
ghost use Rattle.vbv.specs.Answers.{model_answer, removal_answer};
ghost use Rattle.vbv.specs.Model.{start_model, remove_picture};
ghost use Rattle.bits.specs.Refusals.{or_else};
ghost use Rattle.vbv.specs.Lent.{done_answer};

use vbv::{RemovalInterval, VbvCbrModel, VbvError, VbvRemovalError};
use verify::{VbvPictureRecord, VbvStandard, VbvStreamReport, VbvVerifyError};

// What the start answers, and the model after it.
pub(crate) fn started(
    model: VbvCbrModel,
    delay: u16,
    position: u64,
) -> (Result<(), VbvError>, VbvCbrModel)
    ensures { (model_answer result.0 ≡ done_answer (start_model model delay position)) × (result.1 ≡ or_else model (start_model model delay position)) }
{
    let mut lent = model;
    let answer = lent.start_in_place(delay, position);
    (answer, lent)
}

// What the removal answers, and the model after it.
pub(crate) fn removed(
    model: VbvCbrModel,
    end: u64,
    interval: RemovalInterval,
) -> (Result<(), VbvRemovalError>, VbvCbrModel)
    ensures { (removal_answer result.0 ≡ done_answer (remove_picture model end interval)) × (result.1 ≡ or_else model (remove_picture model end interval)) }
{
    let mut lent = model;
    let answer = lent.remove_in_place(end, interval);
    (answer, lent)
}

// What the check answers with four places, filled before, and what they hold after it.
pub(crate) fn checked(
    stream: &[u8],
    standard: VbvStandard,
    filling: VbvPictureRecord,
) -> (
    Result<VbvStreamReport, VbvVerifyError>,
    [VbvPictureRecord; 4],
)
    ensures answer { verified_answer result.0 ≡ reported (verdict (plain_of standard) stream.now 4) }
    ensures places { result.1 ≡ over (records_of (verdict (plain_of standard) stream.now 4)) (replicate 4 filling) }
{
    let mut records = [filling; 4];
    let answer = verify::lent::verify_cbr_stream(stream, standard, &mut records);
    (answer, records)
}
