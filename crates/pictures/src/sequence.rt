// What the first sequence header of a stream declares.
ghost use Rattle.std.specs.Prelude.{◌≡◌};
ghost use Rattle.pictures.specs.Answers.{unread_answer};
ghost use Rattle.pictures.specs.Front.{opening as opening_of};
ghost use Rattle.pictures.specs.Sequence.{rated, declared_by, declared};

use crate::{Unread, VbvStandard};
use headers::sequence_extension::Mpeg2Sequence;
use headers::sequence_header::Mpeg2SequenceHeader;
use scan::first_sequence;
use vbv::{FARTHEST, VbvError, VbvParams, frame_rate_value, params_of};

// By the two fields, and the frame rate of a code and its extensions.
#[tactic(auto, unfolding(crate::specs::Sequence::rated))]
fn rated_by(rate: u32, buffer: u32, code: u8, n: u8, d: u8) -> Result<VbvParams, Unread>
    ensures { unread_answer result ≡ rated rate buffer code n d }
{
    let (frn, frd) = frame_rate_value(code, n, d)?;
    Ok(params_of(rate, buffer, frn, frd))
}

// What the sequence header that a part begins with declares.
#[tactic(auto, unfolding(crate::specs::Sequence::declared_by))]
pub fn declared_by(part: &[u8], standard: VbvStandard) -> Result<VbvParams, Unread>
    ensures { unread_answer result ≡ declared_by standard part.now }
{
    match standard {
        VbvStandard::Mpeg1 => {
            let header = Mpeg2SequenceHeader::parse(part)?;
            rated_by(
                header.bit_rate,
                u32::from(header.vbv_buffer_size),
                header.frame_rate_code,
                0,
                0,
            )
        }
        VbvStandard::Mpeg2 => {
            let sequence = Mpeg2Sequence::from_buf(part)?;
            let header = sequence.header;
            let extension = sequence.extension;
            rated_by(
                sequence.bit_rate,
                sequence.vbv_buffer_size,
                header.frame_rate_code,
                extension.frame_rate_extension_n,
                extension.frame_rate_extension_d,
            )
        }
    }
}

// What the first sequence header declares.
#[tactic(auto, unfolding(crate::specs::Sequence::declared, crate::specs::Sequence::declared_at), using(bits::proofs::Reading::rest_is))]
fn declared_params(stream: &[u8], standard: VbvStandard) -> Result<VbvParams, Unread>
    ensures { unread_answer result ≡ declared standard stream.now }
{
    let Some(code) = first_sequence(stream) else {
        return Err(Unread::NoSequenceHeader);
    };
    declared_by(&stream[code.offset..], standard)
}

// What every report asks before the pictures: 14 for a stream above 2^48 bits, 3, sequence header, extension, 6.
#[tactic(auto, unfolding(crate::specs::Front::opening, bits::specs::Bits::pick))]
pub fn opening(stream: &[u8], standard: VbvStandard) -> Result<VbvParams, Unread>
    ensures { unread_answer result ≡ opening_of standard stream.now }
{
    if FARTHEST / 8 < stream.len() as u64 {
        return Err(Unread::Model(VbvError::Range));
    }
    declared_params(stream, standard)
}
