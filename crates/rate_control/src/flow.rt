// What the model says to an offered picture at a variable rate: the size alone.
ghost use Rattle.std.specs.Prelude.{◌≡◌};
ghost use Rattle.rate_control.specs.Steps.{filled_at, by_filled};

use crate::{Extent, Placement, Untested};
use vbv::{RemovalInterval, VbvCbrModel, VbvError};

// The model as it is, or, before the first placing, with a full buffer.
#[tactic(auto, unfolding(crate::specs::Steps::filled_at, bits::specs::Bits::pick), using(vbv::proofs::Numbers::model_case))]
fn filled(model: VbvCbrModel) -> Result<VbvCbrModel, VbvError>
    ensures { result ≡ filled_at model }
{
    if model.started {
        return Ok(model);
    }
    vbr::start(model)
}

// The header tells no time, and no byte is stuffed.
#[tactic(auto, unfolding(crate::specs::Steps::by_filled, crate::specs::Steps::flowed_by), using(vbv::proofs::Numbers::removal_case))]
pub(crate) fn flowed(
    model: VbvCbrModel,
    extent: Extent,
    interval: RemovalInterval,
) -> Result<Placement, Untested>
    ensures { result ≡ by_filled extent interval (filled_at model) }
{
    let begun = filled(model)?;
    let next = vbr::remove_picture(begun, extent.content, interval)?;
    Ok(Placement {
        model: next,
        vbv_delay: 0xFFFF,
        bytes: extent.bytes,
        stuffing_bytes: 0,
    })
}
