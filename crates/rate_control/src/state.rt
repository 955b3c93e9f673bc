// The ranges of a writer's state, and what it keeps for each kind of picture.
ghost use Rattle.std.specs.Prelude.{◌≡◌, ◌+◌, ◌-◌, ◌≤◌, ◌<◌, min, max, leb};
ghost use Rattle.rate_control.specs.Writer.{quantiser_fits, all_fit, pending_fits, writer_fits, index, clashes, asked, coarser, steered};
ghost use Rattle.vbv.specs.Model.{farthest};
ghost use Rattle.vbr.specs.Variable.{model_fits_at};

use crate::CbrWriter;
use layers::PictureKind;
use vbv::FARTHEST;

#[tactic(auto, unfolding(crate::specs::Writer::quantiser_fits, crate::specs::Create::within))]
fn quantiser(q: u8) -> bool
    ensures { result ≡ quantiser_fits q }
{
    (1 <= q) & (q <= 31)
}

#[tactic(auto, unfolding(crate::specs::Writer::all_fit))]
fn all_quantisers(q: [u8; 3]) -> bool
    ensures { result ≡ all_fit quantiser_fits q }
{
    quantiser(q[0]) & (quantiser(q[1]) & quantiser(q[2]))
}

#[tactic(auto, unfolding(crate::specs::Writer::all_fit))]
fn all_targets(target_bits: [u64; 3]) -> bool
    ensures { result ≡ all_fit (λ t. leb t farthest) target_bits }
{
    target_bits[0].max(target_bits[1]).max(target_bits[2]) <= FARTHEST
}

#[tactic(auto, unfolding(crate::specs::Writer::pending_fits))]
fn pending_fits(pending: Option<(PictureKind, u8)>) -> bool
    ensures { result ≡ pending_fits pending }
{
    match pending {
        None => true,
        Some((_, q)) => quantiser(q),
    }
}

pub(crate) fn index(kind: PictureKind) -> usize
    ensures { (result ≡ index kind) × (result < 3) }
{
    match kind {
        PictureKind::I => 0,
        PictureKind::P => 1,
        PictureKind::B => 2,
    }
}

// Whether the pending picture is of another kind.
#[tactic(auto, unfolding(crate::specs::Writer::clashes, crate::specs::Writer::index))]
pub(crate) fn clashes(pending: Option<(PictureKind, u8)>, kind: PictureKind) -> bool
    ensures { result ≡ clashes pending kind }
{
    match pending {
        None => false,
        Some((other, _)) => other != kind,
    }
}

// The quantiser with which a picture that is too large is to be encoded again.
#[tactic(auto, unfolding(crate::specs::Writer::coarser))]
pub(crate) fn coarser(q: u8) -> u8
    ensures { result ≡ coarser q }
{
    let wide = q as u16;
    (wide + 1 + wide / 4).min(31) as u8
}

// The kind's next quantiser, from the one just placed and the layer's bits; a target of 0 counts as 1.
#[tactic(auto, unfolding(crate::specs::Writer::steered, bits::specs::Bits::pick))]
pub(crate) fn steered(q: u8, target: u64, bits: u64) -> u8
    requires target_le_farthest { target ≤ farthest }
    requires bits_le_farthest { bits ≤ farthest }
    ensures { result ≡ steered q target bits }
{
    let aim = target.max(1);
    if 6 * aim < 5 * bits {
        return q.min(30) + 1;
    }
    if 10 * bits < 7 * aim {
        return q.max(2) - 1;
    }
    q
}

impl CbrWriter {
    // The quantiser that a layer is asked for with: the pending picture's, or the kind's.
    #[tactic(auto, unfolding(crate::specs::Writer::asked, crate::specs::Writer::pending_or, crate::specs::Writer::of))]
    pub(crate) fn asked(self, kind: PictureKind) -> u8
        ensures { result ≡ asked self kind }
    {
        match self.pending {
            None => self.q[index(kind)],
            Some((_, q)) => q,
        }
    }

    // The model's ranges at its rate: a flag of the definition (`model_fits_at`), so a switch is no less plain than two impls.
    #[tactic(auto, unfolding(vbr::specs::Variable::model_fits_at, bits::specs::Bits::pick))]
    fn model_fits(self) -> bool
        ensures { result ≡ model_fits_at self.variable self.model }
    {
        if self.variable {
            return vbr::fits(self.model);
        }
        self.model.fits()
    }

    // Every field in its range. What was handed out is whole bytes, at least as many as pictures, and as bytes of stuffing:
    // both in one test, as the targets are, so that the function stays small enough to be joined with its callers.
    pub fn fits(self) -> bool
        ensures { result ≡ writer_fits self }
    {
        let bits = self.model.prev_end_bits;
        self.model_fits()
            & ((bits % 8 == 0)
                & ((self.model.removed.max(self.stuffing_bytes) <= bits / 8)
                    & (all_targets(self.target_bits)
                        & (all_quantisers(self.q)
                            & (pending_fits(self.pending) & self.cadence.fits())))))
    }
}
