// The exact variable-rate buffer model of Annex C (C.3.2), in 64 bits, on the state of the constant-rate one: the buffer is full
// at the first removal, gains R times the period after each, and stays at B once it is full.
#![tactic(auto)]

ghost use Rattle.std.specs.Prelude.{◌≡◌, OnOk, true, not, min};
ghost use Rattle.vbv.specs.Annex.{full, overflows};
ghost use Rattle.vbv.specs.Answers.{model_answer, removal_answer};
ghost use Rattle.vbv.specs.Model.{delivered, model_in_range, after_removal};
ghost use Rattle.vbr.specs.Variable.{variable_fits, of_filled, new_variable, start_variable, remove_variable, occupancy_variable};
ghost use Rattle.vbr.specs.Steps.{Ready, Cappable};

use vbv::{RemovalInterval, VbvCbrModel, VbvError, VbvParams, VbvRemovalError, VbvViolation};

// At most a full buffer has arrived.
fn at_most_full(model: VbvCbrModel) -> bool
    requires { model_in_range model ≡ true }
    ensures { result ≡ not (overflows model.params model.prev_end_bits (delivered model)) }
{
    let most = model.prev_end_bits + model.params.buffer_size_bits;
    (model.whole < most) | ((model.whole == most) & (model.rest == 0))
}

// Every field in its range, and at most a full buffer arrived once a model is started.
#[tactic(auto, unfolding(crate::specs::Variable::variable_fits))]
pub fn fits(model: VbvCbrModel) -> bool
    ensures { result ≡ variable_fits model }
{
    model.in_range() && (!model.started || at_most_full(model))
}

// The ratio of buffer and rate is not asked: `new_variable` promises a model where VbvCbrModel::new refuses one.
pub fn new(params: VbvParams) -> Result<VbvCbrModel, VbvError>
    ensures { model_answer result ≡ new_variable params }
{
    if params.in_range() {
        Ok(VbvCbrModel {
            params,
            whole: 0,
            rest: 0,
            prev_end_bits: 0,
            removed: 0,
            started: false,
        })
    } else {
        Err(VbvError::Params)
    }
}

// Every field in its range, and started: the constant model's `ready` asks for the ratio too.
fn ready(model: VbvCbrModel) -> Result<(), VbvError>
    ensures told { model_answer result ≡ of_filled model tt }
    ensures is_ready { OnOk result (Ready model) }
{
    if !fits(model) {
        return Err(VbvError::Params);
    }
    if model.started {
        Ok(())
    } else {
        Err(VbvError::Order)
    }
}

// With a full buffer.
pub fn start(model: VbvCbrModel) -> Result<VbvCbrModel, VbvError>
    ensures { model_answer result ≡ start_variable model }
{
    if !fits(model) {
        return Err(VbvError::Params);
    }
    if model.started {
        return Err(VbvError::Order);
    }
    Ok(VbvCbrModel {
        whole: model.params.buffer_size_bits,
        rest: 0,
        started: true,
        ..model
    })
}

// Removes the pending picture, whose data ends at end, where it is all there. (`gained` refuses no model that fits.)
pub fn remove_picture(
    model: VbvCbrModel,
    end_bits: u64,
    interval: RemovalInterval,
) -> Result<VbvCbrModel, VbvRemovalError>
    ensures { removal_answer result ≡ remove_variable model end_bits interval }
{
    ready(model)?;
    if !model.end_fits(end_bits) {
        return Err(VbvRemovalError::Model(VbvError::Range));
    }
    if model.whole < end_bits {
        return Err(VbvRemovalError::Violation(VbvViolation::Underflow {
            picture: model.removed,
            coded: 0,
            expected: 0,
        }));
    }
    let next = model.gained(interval)?;
    Ok(capped(next, end_bits))
}

// The pending picture taken out of what has arrived by the next removal: no more than a full buffer stays.
fn capped(model: VbvCbrModel, end: u64) -> VbvCbrModel
    requires { Cappable model end }
    ensures { result ≡ after_removal model end (min (delivered model) (full model.params end)) }
{
    let most = end + model.params.buffer_size_bits;
    VbvCbrModel {
        whole: model.whole.min(most),
        rest: if model.whole < most { model.rest } else { 0 },
        prev_end_bits: end,
        removed: model.removed + 1,
        started: true,
        ..model
    }
}

// Whole bits in the buffer just before the pending removal.
pub fn occupancy_before_removal_bits(model: VbvCbrModel) -> Result<u64, VbvError>
    ensures { model_answer result ≡ occupancy_variable model }
{
    ready(model)?;
    Ok(model.whole.saturating_sub(model.prev_end_bits))
}
