// The exact constant-rate buffer model of Annex C, in 64 bits, and the delay in a picture header. (The variable-rate model is
// crates/vbr.)
#![tactic(auto)]

ghost use Rattle.std.specs.Prelude.{◌≡◌, OnOk, true, ◌+◌, ◌-◌, ◌/◌, ◌^◌, ◌≤◌, ◌<◌, max};
ghost use Rattle.vbv.specs.declared.VbvRemovalError.TheVariants.{Model};
ghost use Rattle.vbv.specs.Annex.{unit};
ghost use Rattle.vbv.specs.Answers.{model_number, model_answer, removal_answer, patch_answer, code_rate, frame_rate, violation_refusal};
ghost use Rattle.vbv.specs.Steps.{Ready, ModelInRange};
ghost use Rattle.vbv.specs.Params.{params_of, same_params};
ghost use Rattle.vbv.specs.Model.{params_in_range, params_fit, delivered, counts_fit, model_fits, of_started, at_delivered, periods as periods_of, next_delivered, model_in_range, gained, new_model, start_model, delay_for_picture, end_fits, remove_picture, max_end_bits, min_end_bits, occupancy_before_removal};
ghost use Rattle.vbv.specs.Patch.{starts_picture, patch_picture, patched};

pub mod lent; // the model by reference

use bits::VbvRefusal;
use bits::start_codes::PICTURE_START;

// Why a call is refused.
#[derive(Clone, Copy, PartialEq, Eq)]
pub enum VbvError {
    // A frame rate code other than 1 to 8.
    FrameRateCode,
    // The position lies beyond the bits delivered.
    Early,
    // The delay is above 0xFFFE.
    DelayTooLong,
    // A parameter or a state out of its range, a frame rate extension too wide, or a full buffer's delay above 0xFFFE.
    Params,
    // Used before its start, or started twice.
    Order,
    // A position, an end or the removals out of range, or an end below the previous one.
    Range,
}

// A removal that Annex C forbids, or a coded delay unlike the expected one: the picture, counted from 0, and the delays,
// 0 where they are not known. (Three cases with the same fields: `violation_refusal` tells their numbers apart by them.)
#[derive(Clone, Copy, PartialEq, Eq)]
pub enum VbvViolation {
    Overflow {
        picture: u64,
        coded: u16,
        expected: u16,
    },
    Underflow {
        picture: u64,
        coded: u16,
        expected: u16,
    },
    DelayMismatch {
        picture: u64,
        coded: u16,
        expected: u16,
    },
}

// Why a picture is not removed.
#[derive(Clone, Copy, PartialEq, Eq)]
pub enum VbvRemovalError {
    Model(VbvError),
    Violation(VbvViolation),
}

impl From<VbvError> for VbvRemovalError {
    ghost from_gives = { λ error e. e ≡ Model error };

    fn from(error: VbvError) -> VbvRemovalError {
        VbvRemovalError::Model(error)
    }
}

// No picture header of 8 bytes.
#[derive(Clone, Copy, PartialEq, Eq)]
pub struct NotAPicture;

// How long up to the next removal, whatever the picture's structure: a field period is half a frame period. Three fields and more
// are for film alone.
#[derive(Clone, Copy, PartialEq, Eq)]
pub enum RemovalInterval {
    Frame,
    Field,
    ThreeFields,
    TwoFrames,
    ThreeFrames,
}

// R in bits a second, B in bits, and frn / frd frames a second.
#[derive(Clone, Copy, PartialEq, Eq)]
pub struct VbvParams {
    pub bit_rate: u64,
    pub buffer_size_bits: u64,
    pub frn: u64,
    pub frd: u64,
}

// Delivered at the pending removal: whole + rest / (180,000 * frn) bits. (`started` stays a flag beside them: `counts_fit` asks
// the others' ranges of a model that is not started, too.)
#[derive(Clone, Copy, PartialEq, Eq)]
pub struct VbvCbrModel {
    pub params: VbvParams,
    pub whole: u64,
    pub rest: u64,
    pub prev_end_bits: u64,
    pub removed: u64,
    pub started: bool,
}

impl VbvError {
    // The refusal's number (docs/REFUSALS.md), which C is given; `u8::from` would not say what the number is.
    pub fn number(self) -> u8
        ensures { result ≡ model_number self }
    {
        match self {
            VbvError::FrameRateCode => 6,
            VbvError::Early => 7,
            VbvError::DelayTooLong => 8,
            VbvError::Params => 12,
            VbvError::Order => 13,
            VbvError::Range => 14,
        }
    }
}

impl VbvViolation {
    // The refusal by its number (docs/REFUSALS.md), as C is given it.
    pub fn refusal(self) -> VbvRefusal
        ensures { result ≡ violation_refusal self }
    {
        match self {
            VbvViolation::Overflow {
                picture,
                coded,
                expected,
            } => VbvRefusal {
                number: 9,
                picture,
                coded,
                expected,
            },
            VbvViolation::Underflow {
                picture,
                coded,
                expected,
            } => VbvRefusal {
                number: 10,
                picture,
                coded,
                expected,
            },
            VbvViolation::DelayMismatch {
                picture,
                coded,
                expected,
            } => VbvRefusal {
                number: 11,
                picture,
                coded,
                expected,
            },
        }
    }
}

// Table 6-4.
#[tactic(auto, unfolding(bits::specs::Bits::pick, crate::specs::Answers::code_rate))]
fn code_rate(frame_rate_code: u8) -> Result<(u64, u64), VbvError>
    ensures { model_answer result ≡ code_rate frame_rate_code }
{
    match frame_rate_code {
        1 => Ok((24000, 1001)),
        2 => Ok((24, 1)),
        3 => Ok((25, 1)),
        4 => Ok((30000, 1001)),
        5 => Ok((30, 1)),
        6 => Ok((50, 1)),
        7 => Ok((60000, 1001)),
        8 => Ok((60, 1)),
        _ => Err(VbvError::FrameRateCode),
    }
}

// The code's rate times (n + 1) / (d + 1), not reduced (6.3.5).
pub fn frame_rate_value(frame_rate_code: u8, n: u8, d: u8) -> Result<(u64, u64), VbvError>
    ensures { model_answer result ≡ frame_rate frame_rate_code n d }
{
    if (n <= 3) & (d <= 31) {
        let (frn, frd) = code_rate(frame_rate_code)?;
        Ok((frn * (u64::from(n) + 1), frd * (u64::from(d) + 1)))
    } else {
        Err(VbvError::Params)
    }
}

// 2^48: no stream, position, end or number of removals is greater.
pub const FARTHEST: u64 = 281474976710656;

// 2^57: more bits than a run delivers.
pub const MOST_DELIVERED: u64 = 144115188075855872;

// The rate field counts units of 400 bits a second, the buffer field units of 16 * 1024 bits.
pub const RATE_UNIT: u64 = 400;

pub const BUFFER_UNIT: u64 = 16384;

// R, B and the frame rate by a sequence header's rate and buffer fields and frn / frd.
#[tactic(auto, unfolding(crate::specs::Params::params_of))]
pub fn params_of(rate: u32, buffer: u32, frn: u64, frd: u64) -> VbvParams
    ensures { result ≡ params_of rate buffer (frn, frd) }
{
    VbvParams {
        bit_rate: RATE_UNIT * u64::from(rate),
        buffer_size_bits: BUFFER_UNIT * u64::from(buffer),
        frn,
        frd,
    }
}

impl VbvParams {
    // Each parameter in its range; the ratio is not asked.
    pub fn in_range(self) -> bool
        ensures { result ≡ params_in_range self }
    {
        (1 <= self.bit_rate)
            & (self.bit_rate <= 429496729200)
            & (1 <= self.buffer_size_bits)
            & (self.buffer_size_bits <= 4294950912)
            & (1 <= self.frn)
            & (self.frn <= 240000)
            & (1 <= self.frd)
            & (self.frd <= 32032)
    }

    // Whether R, B and the value of the frame rate are the same, whatever its numerator and denominator. Parameters out of
    // their ranges are the same as none.
    pub fn same(self, other: VbvParams) -> bool
        ensures { result ≡ same_params self other }
    {
        (self.in_range() & other.in_range())
            && (other.bit_rate == self.bit_rate)
                & (other.buffer_size_bits == self.buffer_size_bits)
                & (other.frn * self.frd == self.frn * other.frd)
    }

    // And a full buffer's delay below 0xFFFF.
    #[tactic(auto, unfolding(crate::specs::Model::ratio_fits, crate::specs::Model::params_fit))]
    fn fit(self) -> bool
        ensures { result ≡ params_fit self }
    {
        self.in_range() && 90000 * self.buffer_size_bits <= 65534 * self.bit_rate
    }
}

impl VbvCbrModel {
    // What is counted is in its range.
    fn counts_fit(self) -> bool
        requires { self.params.frn ≤ 240000 }
        ensures { result ≡ counts_fit self }
    {
        // Both counts have one bound: a test less.
        (self.whole <= MOST_DELIVERED)
            & (self.rest < 180000 * self.params.frn)
            & (self.prev_end_bits.max(self.removed) <= FARTHEST)
    }

    // Every field in its range.
    #[tactic(auto, unfolding(crate::specs::Model::model_fits))]
    pub fn fits(self) -> bool
        ensures { result ≡ model_fits self }
    {
        self.params.fit() && self.counts_fit()
    }

    // Every field in its range; the ratio is not asked.
    #[tactic(auto, unfolding(crate::specs::Model::model_in_range))]
    pub fn in_range(self) -> bool
        ensures { result ≡ model_in_range self }
    {
        self.params.in_range() && self.counts_fit()
    }

    pub fn new(params: VbvParams) -> Result<VbvCbrModel, VbvError>
        ensures { model_answer result ≡ new_model params }
    {
        if params.fit() {
            Ok(VbvCbrModel {
                params,
                whole: 0,
                rest: 0,
                prev_end_bits: 0,
                removed: 0,
                started: false,
            })
        } else {
            Err(VbvError::Params)
        }
    }

    // Every field in its range, and started.
    fn ready(self) -> Result<(), VbvError>
        ensures told { model_answer result ≡ of_started self tt }
        ensures is_ready { OnOk result (Ready self) }
    {
        if !self.fits() {
            return Err(VbvError::Params);
        }
        if self.started {
            Ok(())
        } else {
            Err(VbvError::Order)
        }
    }

    // With the first picture's coded delay and the end of its start code.
    pub fn start(self, initial_vbv_delay: u16, pos0_bits: u64) -> Result<VbvCbrModel, VbvError>
        ensures { model_answer result ≡ start_model self initial_vbv_delay pos0_bits }
    {
        if !self.fits() {
            return Err(VbvError::Params);
        }
        if self.started {
            return Err(VbvError::Order);
        }
        if FARTHEST < pos0_bits {
            return Err(VbvError::Range);
        }
        // pos0 + delay * R / 90,000 bits delivered.
        let params = self.params;
        let ticks = u64::from(initial_vbv_delay) * params.bit_rate;
        Ok(VbvCbrModel {
            whole: pos0_bits + ticks / 90000,
            rest: (ticks % 90000) * 2 * params.frn,
            started: true,
            ..self
        })
    }

    // The delay to code for the pending picture, whose start code ends at pos.
    pub fn delay_for_picture(self, pos_bits: u64) -> Result<u16, VbvError>
        ensures { model_answer result ≡ delay_for_picture self pos_bits }
    {
        self.ready()?;
        if FARTHEST < pos_bits {
            return Err(VbvError::Range);
        }
        if self.whole < pos_bits {
            return Err(VbvError::Early);
        }
        // Ticks, halves up: a second's bits are 90,000.
        let params = self.params;
        let bits = self.whole - pos_bits;
        if params.bit_rate <= bits {
            return Err(VbvError::DelayTooLong);
        }
        let delay = (180000 * bits + self.rest / params.frn + params.bit_rate)
            / (2 * params.bit_rate);
        if delay <= 65534 {
            Ok(delay as u16)
        } else {
            Err(VbvError::DelayTooLong)
        }
    }

    // The end, and a removal more, in their ranges, and the end not below the previous one.
    #[tactic(auto, unfolding(crate::specs::Model::end_fits))]
    pub fn end_fits(self, end_bits: u64) -> bool
        ensures { result ≡ end_fits self end_bits }
    {
        (end_bits <= FARTHEST) & (self.prev_end_bits <= end_bits) & (self.removed < FARTHEST)
    }

    // Removes the pending picture, whose data ends at end. Overflow before underflow.
    pub fn remove_picture(
        self,
        end_bits: u64,
        interval: RemovalInterval,
    ) -> Result<VbvCbrModel, VbvRemovalError>
        ensures { removal_answer result ≡ remove_picture self end_bits interval }
    {
        self.ready()?;
        if !self.end_fits(end_bits) {
            return Err(VbvRemovalError::Model(VbvError::Range));
        }
        let picture = self.removed;
        let params = self.params;
        if self.prev_end_bits + params.buffer_size_bits < self.rounded_up() {
            return Err(VbvRemovalError::Violation(VbvViolation::Overflow {
                picture,
                coded: 0,
                expected: 0,
            }));
        }
        if self.whole < end_bits {
            return Err(VbvRemovalError::Violation(VbvViolation::Underflow {
                picture,
                coded: 0,
                expected: 0,
            }));
        }
        let next = self.advanced(interval);
        Ok(VbvCbrModel {
            prev_end_bits: end_bits,
            removed: picture + 1,
            ..next
        })
    }

    // Bits delivered, a started one counted whole.
    fn rounded_up(self) -> u64
        requires whole_bound { self.whole < 2 ^ 63 }
        requires rest_bound { self.rest < unit self.params }
        ensures { result ≡ (delivered self + (unit self.params - 1)) / unit self.params }
    {
        if 0 < self.rest {
            self.whole + 1
        } else {
            self.whole
        }
    }

    // The removal after the pending one becomes the pending one.
    fn advanced(self, interval: RemovalInterval) -> VbvCbrModel
        requires { ModelInRange self }
        ensures { result ≡ at_delivered self (next_delivered self interval) }
    {
        let params = self.params;
        let unit = 180000 * params.frn;
        let fields = 2 * params.frn;
        let count = u64::from(periods(interval));
        let gain = params.bit_rate * params.frd * count;
        let sum = self.rest + gain % fields * 90000;
        VbvCbrModel {
            whole: self.whole + gain / fields + sum / unit,
            rest: sum % unit,
            started: true,
            ..self
        }
    }

    // What the interval brings is delivered too, whatever the ratio; nothing is removed. (For crates/vbr, which caps it.)
    pub fn gained(self, interval: RemovalInterval) -> Result<VbvCbrModel, VbvError>
        ensures { model_answer result ≡ gained self interval }
    {
        if !self.in_range() {
            return Err(VbvError::Params);
        }
        if self.started {
            Ok(self.advanced(interval))
        } else {
            Err(VbvError::Order)
        }
    }

    // The greatest end that does not underflow at the pending removal.
    pub fn max_end_bits(self) -> Result<u64, VbvError>
        ensures { model_answer result ≡ max_end_bits self }
    {
        self.ready()?;
        Ok(self.whole)
    }

    // The least end that does not overflow at the removal after the pending one.
    pub fn min_end_bits(self, interval: RemovalInterval) -> Result<u64, VbvError>
        ensures { model_answer result ≡ min_end_bits self interval }
    {
        self.ready()?;
        let params = self.params;
        let next = self.advanced(interval);
        Ok(next.rounded_up().saturating_sub(params.buffer_size_bits))
    }

    // Whole bits in the buffer just before the pending removal.
    pub fn occupancy_before_removal_bits(self) -> Result<u64, VbvError>
        ensures { model_answer result ≡ occupancy_before_removal self }
    {
        self.ready()?;
        Ok(self.whole.saturating_sub(self.prev_end_bits))
    }
}

// How many field periods an interval has.
pub fn periods(interval: RemovalInterval) -> u8
    ensures { result ≡ periods_of interval }
{
    match interval {
        RemovalInterval::Frame => 2,
        RemovalInterval::Field => 1,
        RemovalInterval::ThreeFields => 3,
        RemovalInterval::TwoFrames => 4,
        RemovalInterval::ThreeFrames => 6,
    }
}

// Eight bytes at least, from 00 00 01 00 on.
fn starts_picture(s: &[u8]) -> bool
    ensures { result ≡ starts_picture s.now }
{
    8 <= s.len() && bits::starts_with(s, &PICTURE_START)
}

// Bits 45 to 60 become the delay: the low 3 bits of byte 5, byte 6 and the high 5 bits of byte 7.
pub fn patch_vbv_delay(picture: &mut [u8], vbv_delay: u16) -> Result<(), NotAPicture>
    ensures result_value { patch_answer result ≡ patch_picture picture.old }
    ensures picture_after { picture.new ≡ patched picture.old vbv_delay }
{
    if !starts_picture(picture) {
        return Err(NotAPicture);
    }
    picture[5] = picture[5] / 8 * 8 + (vbv_delay / 8192) as u8;
    picture[6] = (vbv_delay / 32 % 256) as u8;
    picture[7] = (vbv_delay % 32 * 8) as u8 + picture[7] % 8;
    Ok(())
}
