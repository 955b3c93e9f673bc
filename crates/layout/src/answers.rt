// Report, refusal and the answer to an offer in their places; a place that is too short is left alone.
// Words and codes are the C interface (docs/LAYOUT.md), and so numbers.
ghost use Rattle.std.specs.Prelude.{◌≡◌};
ghost use Rattle.words.specs.Words.{words_bytes, laid};
ghost use Rattle.bits.specs.Refusals.{refused};
ghost use Rattle.rate_control.specs.Answers.{offer_answer};
ghost use Rattle.layout.specs.Answers.{report_words, refusal_words, answer_words};

use bits::VbvRefusal;
use rate_control::{CbrError, CbrGiven};
use verify::VbvStreamReport;
use words::put_words;

// The report of a stream.
#[tactic(auto, unfolding(crate::specs::Answers::report_words))]
pub fn put_report(place: &mut [u8], r: VbvStreamReport)
    ensures { place.new ≡ laid (words_bytes (report_words r)) place.old }
{
    let words = [
        r.bit_rate,
        r.buffer_size_bits,
        r.pictures,
        r.min_occupancy_after_bits,
        r.max_occupancy_before_bits,
    ];
    put_words(place, &words);
}

// The refusal of a stream.
#[tactic(auto, unfolding(crate::specs::Answers::refusal_words))]
pub fn put_refusal(place: &mut [u8], r: VbvRefusal)
    ensures { place.new ≡ laid (words_bytes (refusal_words r)) place.old }
{
    let words = [
        u64::from(r.number),
        r.picture,
        u64::from(r.coded),
        u64::from(r.expected),
    ];
    put_words(place, &words);
}

#[tactic(auto, unfolding(crate::specs::Answers::answer_words))]
fn refused_words(refusal: VbvRefusal) -> [u64; 9]
    ensures { result ≡ answer_words (refused refusal.«number» refusal.picture refusal.coded refusal.expected) }
{
    [
        2,
        u64::from(refusal.number),
        refusal.picture,
        u64::from(refusal.coded),
        u64::from(refusal.expected),
        0,
        0,
        0,
        0,
    ]
}

#[tactic(auto, unfolding(crate::specs::Answers::answer_words))]
fn words_of(answer: Result<CbrGiven, CbrError>) -> [u64; 9]
    ensures { result ≡ answer_words (offer_answer answer) }
{
    match answer {
        Ok(
            CbrGiven::Placed {
                q,
                vbv_delay,
                bytes,
                stuffing_bytes,
            },
        ) => [
            0,
            0,
            0,
            0,
            0,
            u64::from(q),
            u64::from(vbv_delay),
            bytes,
            stuffing_bytes,
        ],
        Ok(CbrGiven::Again(q)) => [1, 0, 0, 0, 0, u64::from(q), 0, 0, 0],
        Err(error) => refused_words(error.refusal()),
    }
}

// A refused offer.
pub fn put_refused(place: &mut [u8], refusal: VbvRefusal)
    ensures { place.new ≡ laid (words_bytes (answer_words (refused refusal.«number» refusal.picture refusal.coded refusal.expected))) place.old }
{
    put_words(place, &refused_words(refusal));
}

// The answer to an offer.
pub fn put_answer(place: &mut [u8], answer: Result<CbrGiven, CbrError>)
    ensures { place.new ≡ laid (words_bytes (answer_words (offer_answer answer))) place.old }
{
    put_words(place, &words_of(answer));
}
