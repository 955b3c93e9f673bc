// Creation of a writer, and the bits that a picture of each kind is meant to have.
ghost use Rattle.std.specs.Prelude.{◌≡◌};
ghost use Rattle.vbv.specs.Answers.{model_answer};
ghost use Rattle.vbr.specs.Variable.{new_model_at};
ghost use Rattle.rate_control.specs.Create.{within, is_written, config_fits, fresh_writer, create};
ghost use Rattle.rate_control.specs.Due.{Ranges};
ghost use Rattle.rate_control.specs.Steps.{TargetsFit, with_rate};
ghost use Rattle.rate_control.specs.Targets.{targets};

use crate::{CbrConfig, CbrWriter};
use cadence::VbvCadence;
use pictures::VbvStandard;
use vbv::{VbvCbrModel, VbvError, VbvParams};

#[tactic(auto, unfolding(crate::specs::Create::within))]
fn within(low: u64, high: u64, value: u64) -> bool
    ensures { result ≡ within low high value }
{
    (low..=high).contains(&value)
}

// Of the standards MPEG-2 is written.
#[tactic(auto, unfolding(crate::specs::Create::is_written))]
fn is_written(standard: VbvStandard) -> bool
    ensures { result ≡ is_written standard }
{
    matches!(standard, VbvStandard::Mpeg2)
}

// The bits of a group of pictures, shared out by weight.
fn type_target_bits(params: VbvParams, b_between: u64, anchors_per_gop: u64) -> [u64; 3]
    requires { TargetsFit params b_between anchors_per_gop }
    ensures { result ≡ targets params b_between anchors_per_gop }
{
    let pictures = 1 + anchors_per_gop * (b_between + 1);
    let gop_bits = params.bit_rate * params.frd / params.frn * pictures;
    let weight = 40 + 16 * anchors_per_gop + 9 * (anchors_per_gop * b_between);
    [
        gop_bits * 40 / weight,
        gop_bits * 16 / weight,
        gop_bits * 9 / weight,
    ]
}

// At a variable rate the ratio is not asked. The rate is a flag of the definition (`new_model_at`), so a switch is no less plain
// than a trait with two impls.
#[tactic(auto, unfolding(vbr::specs::Variable::new_model_at, bits::specs::Bits::pick))]
fn new_model(params: VbvParams, variable: bool) -> Result<VbvCbrModel, VbvError>
    ensures { model_answer result ≡ new_model_at variable params }
{
    if variable {
        return vbr::new(params);
    }
    VbvCbrModel::new(params)
}

impl CbrConfig {
    // Every field but the rate code in its range.
    fn fits(self) -> bool
        ensures { result ≡ config_fits self }
    {
        is_written(self.mode.standard)
            & (within(1, 262143, self.bit_rate_value as u64)
                & (within(1, 1023, self.vbv_buffer_size_value as u64)
                    & (within(0, 3, self.frame_rate_extension_n as u64)
                        & (within(0, 31, self.frame_rate_extension_d as u64)
                            & (within(1, 31, self.initial_quantiser_scale_code as u64)
                                & (within(0, 15, self.b_between as u64)
                                    & within(1, 255, self.anchors_per_gop as u64)))))))
    }

    // Nothing placed, nothing pending, every kind at the given quantiser.
    fn fresh(self, model: VbvCbrModel) -> CbrWriter
        requires { TargetsFit model.params self.b_between self.anchors_per_gop }
        ensures { result ≡ fresh_writer self model }
    {
        let between = self.b_between as u64;
        let anchors = self.anchors_per_gop as u64;
        let target_bits = type_target_bits(model.params, between, anchors);
        let q = self.initial_quantiser_scale_code;
        CbrWriter {
            model,
            target_bits,
            q: [q, q, q],
            pending: None,
            stuffing_bytes: 0,
            finished: false,
            cadence: VbvCadence::opened(self.mode.film, false, false),
            variable: self.mode.variable,
        }
    }

    #[tactic(auto, using(crate::proofs::Creation::targets_fit, crate::proofs::Creation::way_made))]
    fn with_rate(self, frn: u64, frd: u64) -> Result<CbrWriter, VbvError>
        requires { Ranges self }
        ensures { model_answer result ≡ with_rate self (frn, frd) }
    {
        let buffer = self.vbv_buffer_size_value as u32;
        let params = vbv::params_of(self.bit_rate_value, buffer, frn, frd);
        let model = new_model(params, self.mode.variable)?;
        Ok(self.fresh(model))
    }
}

impl CbrWriter {
    // Refused in this order: 12 for a range, 6 for the rate code, at a constant rate 12 for the ratio.
    #[tactic(auto, using(crate::proofs::Creation::way_12, crate::proofs::Creation::way_rate))]
    pub fn create(config: CbrConfig) -> Result<CbrWriter, VbvError>
        ensures { model_answer result ≡ create config }
    {
        if config.fits() {
            let (frn, frd) = vbv::frame_rate_value(
                config.frame_rate_code,
                config.frame_rate_extension_n,
                config.frame_rate_extension_d,
            )?;
            config.with_rate(frn, frd)
        } else {
            Err(VbvError::Params)
        }
    }
}
