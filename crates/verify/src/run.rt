// One removal after another, at a constant or a variable rate, and what the report needs of them. The rate is a flag, as it is of
// the definitions (specs/Check): a trait of both models would have each of the four functions that ask it twice.
ghost use Rattle.std.specs.Prelude.{◌≡◌};
ghost use Rattle.vbv.specs.Answers.{model_answer, removal_answer};
ghost use Rattle.verify.specs.Answers.{verified_answer};
ghost use Rattle.verify.specs.Run.{apart};
ghost use Rattle.verify.specs.Coded.{coded_of};
ghost use Rattle.verify.specs.Steps.{first_model, expected_at, occupancy_at, removed_at, delays_told, removal_error, removed, progressed, gone_on, gone_on_from, advanced};

use crate::{CodedPicture, Progress, VbvPictureRecord, VbvVerifyError};
use pictures::SeenPicture;
use vbv::{
    RemovalInterval, VbvCbrModel, VbvError, VbvParams, VbvRemovalError, VbvViolation, periods,
};

// Whether two delays differ by more than one tick.
#[tactic(auto, unfolding(crate::specs::Run::apart))]
fn are_apart(coded: u16, expected: u16) -> bool
    ensures { result ≡ apart coded expected }
{
    1 < coded.abs_diff(expected)
}

// The model at the first removal. At a constant rate it starts with the coded delay, at a variable one with a full buffer.
fn first_model(
    params: VbvParams,
    variable: bool,
    coded: CodedPicture,
) -> Result<VbvCbrModel, VbvVerifyError>
    ensures { verified_answer result ≡ first_model variable params coded }
{
    if variable {
        let model = vbr::new(params)?;
        return Ok(vbr::start(model)?);
    }
    if coded.vbv_delay == 0xFFFF {
        return Err(VbvVerifyError::VariableRate);
    }
    let model = VbvCbrModel::new(params)?;
    Ok(model.start(coded.vbv_delay, coded.pos_bits)?)
}

// The expected delay, or 7, 8, 11, in this order. At a variable rate no time is expected.
fn expected_delay(
    model: VbvCbrModel,
    variable: bool,
    coded: CodedPicture,
) -> Result<u16, VbvVerifyError>
    ensures { verified_answer result ≡ expected_at variable model coded }
{
    if variable {
        return Ok(0xFFFF);
    }
    let expected = model.delay_for_picture(coded.pos_bits)?;
    if are_apart(coded.vbv_delay, expected) {
        return Err(VbvVerifyError::Violation(VbvViolation::DelayMismatch {
            picture: model.removed,
            coded: coded.vbv_delay,
            expected,
        }));
    }
    Ok(expected)
}

// The occupancy just before the removal, by the model of such a rate.
#[tactic(auto, unfolding(crate::specs::Steps::occupancy_at))]
fn occupancy_before(model: VbvCbrModel, variable: bool) -> Result<u64, VbvError>
    ensures { model_answer result ≡ occupancy_at variable model }
{
    if variable {
        vbr::occupancy_before_removal_bits(model)
    } else {
        model.occupancy_before_removal_bits()
    }
}

// The model after the removal.
#[tactic(auto, unfolding(crate::specs::Steps::removed_at))]
fn model_after(
    model: VbvCbrModel,
    variable: bool,
    coded: CodedPicture,
) -> Result<VbvCbrModel, VbvRemovalError>
    ensures { removal_answer result ≡ removed_at variable model coded }
{
    let interval = coded.interval;
    if variable {
        vbr::remove_picture(model, coded.end_bits, interval)
    } else {
        model.remove_picture(coded.end_bits, interval)
    }
}

// A violation with the delays that the model does not know.
#[tactic(auto, unfolding(crate::specs::Steps::delays_told))]
fn delays_told(violation: VbvViolation, coded: u16, expected: u16) -> VbvViolation
    ensures { result ≡ delays_told coded expected violation }
{
    match violation {
        VbvViolation::Overflow {
            picture,
            coded: _,
            expected: _,
        } => VbvViolation::Overflow {
            picture,
            coded,
            expected,
        },
        VbvViolation::Underflow {
            picture,
            coded: _,
            expected: _,
        } => VbvViolation::Underflow {
            picture,
            coded,
            expected,
        },
        VbvViolation::DelayMismatch {
            picture,
            coded: _,
            expected: _,
        } => VbvViolation::DelayMismatch {
            picture,
            coded,
            expected,
        },
    }
}

// Why a removal is refused, among the refusals of the check.
#[tactic(auto, unfolding(crate::specs::Steps::removal_error))]
fn removal_error(error: VbvRemovalError, coded: u16, expected: u16) -> VbvVerifyError
    ensures { result ≡ removal_error coded expected error }
{
    match error {
        VbvRemovalError::Model(error) => VbvVerifyError::Model(error),
        VbvRemovalError::Violation(violation) => {
            VbvVerifyError::Violation(delays_told(violation, coded, expected))
        }
    }
}

// The record of a removal, and the model after it; or the first refusal: 7, 8, 11, 9, 10 at a constant rate, 10 at a variable one.
fn remove(
    model: VbvCbrModel,
    variable: bool,
    coded: CodedPicture,
) -> Result<(VbvPictureRecord, VbvCbrModel), VbvVerifyError>
    ensures { verified_answer result ≡ removed variable model coded }
{
    let expected = expected_delay(model, variable, coded)?;
    let before = occupancy_before(model, variable)?;
    match model_after(model, variable, coded) {
        Ok(next) => {
            let interval = coded.interval;
            Ok((
                VbvPictureRecord {
                    vbv_delay: coded.vbv_delay,
                    expected_delay: expected,
                    data_bits: coded.end_bits.saturating_sub(model.prev_end_bits),
                    occupancy_before_bits: before,
                    periods: periods(interval),
                },
                next,
            ))
        }
        Err(error) => Err(removal_error(error, coded.vbv_delay, expected)),
    }
}

// The progress after a removal.
#[tactic(auto, unfolding(crate::specs::Steps::progressed, crate::specs::Run::occupancy_after))]
fn go_on(
    removal: Result<(VbvPictureRecord, VbvCbrModel), VbvVerifyError>,
    least: u64,
    greatest: u64,
) -> Progress
    ensures { result ≡ progressed least greatest removal }
{
    match removal {
        Ok((last, model)) => {
            let before = last.occupancy_before_bits;
            Progress::Running {
                model,
                last,
                least: least.min(before.saturating_sub(last.data_bits)),
                greatest: greatest.max(before),
            }
        }
        Err(error) => Progress::Stopped(error),
    }
}

// A picture as the model sees it: it lasts so long.
fn coded_picture(interval: RemovalInterval, seen: SeenPicture) -> CodedPicture
    ensures { result ≡ coded_of interval seen }
{
    CodedPicture {
        pos_bits: seen.pos_bits,
        end_bits: seen.end_bits,
        vbv_delay: seen.vbv_delay,
        interval,
    }
}

// Before a removal: the least occupancy after one so far, the greatest before, and the model; or the progress that no removal
// changes. No occupancy is above B.
fn before_removal(
    progress: Progress,
    params: VbvParams,
    variable: bool,
    coded: CodedPicture,
) -> Result<(u64, u64, VbvCbrModel), Progress>
    ensures { gone_on variable coded result ≡ gone_on_from variable params progress coded }
{
    match progress {
        Progress::Fresh => match first_model(params, variable, coded) {
            Ok(model) => Ok((params.buffer_size_bits, 0, model)),
            Err(error) => Err(Progress::Unmodelled(error)),
        },
        Progress::Running {
            model,
            last: _,
            least,
            greatest,
        } => Ok((least, greatest, model)),
        Progress::Unmodelled(error) => Err(Progress::Unmodelled(error)),
        Progress::Stopped(error) => Err(Progress::Stopped(error)),
    }
}

// The progress after one more picture. At a variable rate another delay than 0xFFFF comes before all that was found so far.
#[tactic(auto, unfolding(crate::specs::Steps::advanced, bits::specs::Bits::pick))]
pub(crate) fn advance(
    progress: Progress,
    params: VbvParams,
    variable: bool,
    interval: RemovalInterval,
    seen: SeenPicture,
) -> Progress
    ensures { result ≡ advanced variable params progress (coded_of interval seen) }
{
    let coded = coded_picture(interval, seen);
    if variable & (coded.vbv_delay != 0xFFFF) {
        return Progress::Unmodelled(VbvVerifyError::ConstantRate);
    }
    match before_removal(progress, params, variable, coded) {
        Ok((least, greatest, model)) => go_on(remove(model, variable, coded), least, greatest),
        Err(stays) => stays,
    }
}
