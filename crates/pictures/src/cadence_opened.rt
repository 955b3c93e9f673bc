// The cadence that a sequence header opens.
ghost use Rattle.std.specs.Prelude.{◌≡◌};
ghost use Rattle.pictures.specs.Cadence.{cadence_by, cadence_of};

use cadence::VbvCadence;
use headers::sequence_extension::Mpeg2Sequence;
use scan::first_sequence;

// By the sequence header that a part begins with. Outside film it is not read.
#[tactic(auto, unfolding(crate::specs::Cadence::cadence_by), using(crate::proofs::Cadences::plain_by))]
pub fn cadence_by(part: &[u8], film: bool) -> VbvCadence
    ensures { result ≡ cadence_by film part.now }
{
    if !film {
        return VbvCadence::opened(false, false, false);
    }
    match Mpeg2Sequence::from_buf(part) {
        Ok(sequence) => {
            let extension = sequence.extension;
            VbvCadence::opened(true, extension.progressive_sequence, extension.low_delay)
        }
        Err(_) => VbvCadence::opened(true, false, false),
    }
}

// By the first sequence header of a stream.
#[tactic(auto, unfolding(crate::specs::Cadence::cadence_of, crate::specs::Cadence::opened_at), using(crate::proofs::Cadences::plain_of, bits::proofs::Reading::rest_is))]
pub fn cadence_of(stream: &[u8], film: bool) -> VbvCadence
    ensures { result ≡ cadence_of film stream.now }
{
    if !film {
        return VbvCadence::opened(false, false, false);
    }
    match first_sequence(stream) {
        Some(code) => cadence_by(&stream[code.offset..], true),
        None => VbvCadence::opened(true, false, false),
    }
}
