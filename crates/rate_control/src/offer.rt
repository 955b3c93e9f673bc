// An offer: its tests in paper 01's order, and its answer.
ghost use Rattle.std.specs.Prelude.{◌≡◌};
ghost use Rattle.rate_control.specs.Answers.{offer_answer};
ghost use Rattle.rate_control.specs.Offer.{cadence_at, offer, left, out_after};
ghost use Rattle.rate_control.specs.Steps.{tested, timing};

use crate::measure::measured;
use crate::output::put_placed;
use crate::state::clashes;
use crate::{CbrError, CbrOffered, CbrWriter, Placement, Timing, Untested};
use cadence::VbvCadence;
use layers::PictureKind;
use pictures::cadence_by;
use vbv::{RemovalInterval, VbvError};

// Outside film a picture lasts as offered and moves no cadence: a layer's facts are read in film alone.
fn timing(cadence: VbvCadence, interval: RemovalInterval, layer: &[u8]) -> Timing
    ensures { result ≡ timing cadence interval layer.now }
{
    if cadence.film {
        let facts = layers::layer_facts(layer);
        return Timing {
            interval: cadence.interval(facts),
            cadence: cadence.after(facts),
        };
    }
    Timing { interval, cadence }
}

impl CbrWriter {
    // The cadence before the picture: until one is placed, that which its own headers open.
    #[tactic(auto, unfolding(crate::specs::Offer::cadence_at, bits::specs::Bits::pick))]
    fn cadence_at(self, headers: &[u8]) -> VbvCadence
        ensures { result ≡ cadence_at self headers.now }
    {
        if self.model.started {
            return self.cadence;
        }
        cadence_by(headers, self.cadence.film)
    }

    // 12 for the state, 17, 18 and 20, then what lengths and model say to a picture that lasts so long.
    #[tactic(auto, unfolding(crate::specs::Steps::tested, bits::specs::Bits::pick), using(crate::proofs::Offering::end_of, crate::proofs::Offering::params_of))]
    fn tested(
        self,
        headers: &[u8],
        kind: PictureKind,
        interval: RemovalInterval,
        last: bool,
        layer: &[u8],
        lasts: RemovalInterval,
    ) -> Result<Placement, Untested>
        ensures { result ≡ tested self headers.now kind interval last layer.now lasts }
    {
        if !self.fits() {
            return Err(Untested::from(VbvError::Params));
        }
        if self.finished | clashes(self.pending, kind) {
            return Err(Untested::Refused(CbrError::Kind));
        }
        let model = self.model;
        if !layers::headers_fit(headers, model.params, model.started) {
            return Err(Untested::Refused(CbrError::Headers));
        }
        if !layers::layer_fits(layer, self.cadence.film, kind, interval) {
            return Err(Untested::Refused(CbrError::Layer));
        }
        let ahead = headers.len() as u64;
        let bytes = layer.len() as u64;
        measured(model, self.variable, ahead, bytes, lasts, last)
    }

    // Places a picture in the output part, asks for it again with a coarser quantiser, or refuses it.
    pub fn offer(
        self,
        headers: &[u8],
        kind: PictureKind,
        interval: RemovalInterval,
        last: bool,
        layer: &[u8],
        out: &mut [u8],
    ) -> CbrOffered
        ensures answer_value { offer_answer result.answer ≡ offer self (record { headers = headers.now; kind = kind; interval = interval; last = last; layer = layer.now; out = out.old }) }
        ensures writer_value { result.writer ≡ left self (record { headers = headers.now; kind = kind; interval = interval; last = last; layer = layer.now; out = out.old }) }
        ensures out_after { out.new ≡ out_after self (record { headers = headers.now; kind = kind; interval = interval; last = last; layer = layer.now; out = out.old }) }
    {
        let timing = timing(self.cadence_at(headers), interval, layer);
        let lasts = timing.interval;
        match self.tested(headers, kind, interval, last, layer, lasts) {
            Err(Untested::Refused(error)) => self.refused(error),
            Err(Untested::TooLarge) => self.too_large(kind),
            Ok(placement) => {
                let bytes = placement.bytes;
                let room = out.len() as u64;
                if room < bytes {
                    return self.refused(CbrError::Output);
                }
                let zeros = placement.stuffing_bytes as usize;
                put_placed(out, headers, layer, placement.vbv_delay, zeros, last);
                let layer_bytes = layer.len() as u64;
                let cadence = timing.cadence;
                self.placed(kind, layer_bytes, last, placement, cadence)
            }
        }
    }
}
