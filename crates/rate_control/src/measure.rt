// Where an offered picture lies in the stream, and what the model says to it: 14, 7, 9, the size and 22, in this order; at a
// variable rate 14 and the size.
ghost use Rattle.std.specs.Prelude.{◌≡◌, false, ◌+◌, ◌*◌, ◌≤◌, length};
ghost use Rattle.vbv.specs.Model.{farthest, remove_picture, max_end_bits, min_end_bits};
ghost use Rattle.vbv.specs.Steps.{ParamsFit, model_of, removal_of};
ghost use Rattle.rate_control.specs.Offer.{first_delay, end_code};
ghost use Rattle.rate_control.specs.Steps.{ExtentFits, started_at, stuffing_up_to, violated, by_end, by_most, by_least, measured};

use crate::flow::flowed;
use crate::{CbrError, Extent, Placement, Untested};
use vbv::{
    FARTHEST, RemovalInterval, VbvCbrModel, VbvError, VbvParams, VbvRemovalError, VbvViolation,
};

// Three quarters of the buffer.
fn first_delay(params: VbvParams) -> u16
    requires { ParamsFit params }
    ensures { result ≡ first_delay params }
{
    let delay = 90000 * params.buffer_size_bits * 3 / (4 * params.bit_rate);
    delay as u16
}

// The model as it is, or, before the first placing, started with the first delay.
#[tactic(auto, unfolding(crate::specs::Steps::started_at, bits::specs::Bits::pick), using(vbv::proofs::Numbers::model_case))]
fn started(model: VbvCbrModel, position: u64) -> Result<VbvCbrModel, VbvError>
    requires { ParamsFit model.params }
    ensures { result ≡ started_at model position }
{
    if model.started {
        return Ok(model);
    }
    let params = model.params;
    model.start(first_delay(params), position)
}

// Zero bytes up to the least end; none after the last picture.
#[tactic(auto, unfolding(crate::specs::Steps::stuffing_up_to, bits::specs::Bits::pick))]
fn stuffing(least: u64, content: u64, last: bool) -> u64
    ensures { result ≡ stuffing_up_to least content last }
{
    if last {
        return 0;
    }
    least.saturating_sub(content).div_ceil(8)
}

// An underflow is a picture too large.
#[tactic(auto, unfolding(crate::specs::Steps::violated))]
pub(crate) fn violated(violation: VbvViolation) -> Untested
    ensures { result ≡ violated violation }
{
    match violation {
        VbvViolation::Underflow { .. } => Untested::TooLarge,
        _ => Untested::Refused(CbrError::Violation(violation)),
    }
}

// 22: the stuffed end; and the delay. `map_err` would hold the same match in a closure: no plainer.
#[tactic(auto, unfolding(crate::specs::Steps::by_end, crate::specs::Steps::ready_by), using(vbv::proofs::Numbers::removal_case, vbv::proofs::Numbers::model_case))]
fn stuffed(
    model: VbvCbrModel,
    extent: Extent,
    zeros: u64,
    interval: RemovalInterval,
) -> Result<Placement, Untested>
    requires { ExtentFits extent zeros }
    ensures { result ≡ by_end model extent zeros (removal_of (remove_picture model (extent.content + 8 * zeros) interval)) }
{
    let next = match model.remove_picture(extent.content + 8 * zeros, interval) {
        Ok(next) => next,
        Err(VbvRemovalError::Model(error)) => return Err(Untested::from(error)),
        Err(VbvRemovalError::Violation(_)) => return Err(Untested::Refused(CbrError::Stuffing)),
    };
    let vbv_delay = model.delay_for_picture(extent.position)?;
    Ok(Placement {
        model: next,
        vbv_delay,
        bytes: extent.bytes + zeros,
        stuffing_bytes: zeros,
    })
}

// 7, 9 and the size.
fn removed(
    model: VbvCbrModel,
    extent: Extent,
    zeros: u64,
    interval: RemovalInterval,
) -> Result<Placement, Untested>
    requires { ExtentFits extent zeros }
    ensures { result ≡ by_most model extent zeros interval (model_of (max_end_bits model)) }
{
    let most = model.max_end_bits()?;
    if most < extent.position {
        return Err(Untested::from(VbvError::Early));
    }
    model.remove_picture(extent.content, interval)?;
    stuffed(model, extent, zeros, interval)
}

// 14 of the stuffed end, and what follows.
fn ended(
    model: VbvCbrModel,
    extent: Extent,
    interval: RemovalInterval,
    last: bool,
) -> Result<Placement, Untested>
    requires content_le_farthest { extent.content ≤ farthest }
    requires bytes_le_farthest { extent.bytes ≤ farthest }
    ensures { result ≡ by_least model extent interval last (model_of (min_end_bits model interval)) }
{
    let least = model.min_end_bits(interval)?;
    let zeros = stuffing(least, extent.content, last);
    if FARTHEST / 8 < zeros {
        return Err(Untested::from(VbvError::Range));
    }
    if FARTHEST < extent.content + 8 * zeros {
        return Err(Untested::from(VbvError::Range));
    }
    removed(model, extent, zeros, interval)
}

#[tactic(auto, unfolding(crate::specs::Offer::end_code))]
fn end_code_bytes(last: bool) -> u64
    ensures { (result ≡ length (end_code last)) × (result ≤ 4) }
{
    if last { 4 } else { 0 }
}

// 14 of the position and of the end without stuffing, and what follows. The rate is a flag of the definition (`measured`), so a
// switch is no less plain than a trait with two impls.
#[tactic(auto, unfolding(crate::specs::Steps::measured, crate::specs::Steps::within14, crate::specs::Steps::extent_of, crate::specs::Steps::by_rate, crate::specs::Steps::by_start, bits::specs::Bits::pick))]
pub(crate) fn measured(
    model: VbvCbrModel,
    variable: bool,
    headers: u64,
    layer: u64,
    interval: RemovalInterval,
    last: bool,
) -> Result<Placement, Untested>
    requires prev_end_bits_bound { model.prev_end_bits ≤ farthest }
    requires params_fit { variable ≡ false → ParamsFit model.params }
    ensures { result ≡ measured variable model headers layer interval last }
{
    if FARTHEST / 8 < headers.max(layer) {
        return Err(Untested::from(VbvError::Range));
    }
    let previous = model.prev_end_bits;
    let bytes = headers + layer + end_code_bytes(last);
    let position = previous + 8 * (headers + 4);
    let content = previous + 8 * bytes;
    if FARTHEST < position.max(content) {
        return Err(Untested::from(VbvError::Range));
    }
    let extent = Extent {
        position,
        content,
        bytes,
    };
    if variable {
        return flowed(model, extent, interval);
    }
    let begun = started(model, position)?;
    ended(begun, extent, interval, last)
}
