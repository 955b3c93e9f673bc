// The check of a stream, its report, records and refusal as bytes.
ghost use Rattle.std.specs.Prelude.{◌≡◌};
ghost use Rattle.bits.specs.Refusals.{number};
ghost use Rattle.verify.specs.Answers.{verified_answer};
ghost use Rattle.verify.specs.Check.{reported};
ghost use Rattle.words.specs.Words.{words_bytes, laid};
ghost use Rattle.layout.specs.Answers.{refusal_words};
ghost use Rattle.hipokuta.specs.Steps.{asked};
ghost use Rattle.hipokuta.specs.Check.{checked_in, report_after, records_after, refusal_after};

use bits::{VbvRefusal, plain};
use layout::{REFUSAL_BYTES, REPORT_BYTES, is_mode, mode_for, put_refusal, put_report};
use verify::{VbvMode, VbvStreamReport, VbvVerifyError, verify_in_mode};

// A refusal in its place: its number.
pub(crate) fn refuse(place: &mut [u8], r: VbvRefusal) -> u64
    ensures value { result ≡ r.«number» }
    ensures place_after { place.new ≡ laid (words_bytes (refusal_words r)) place.old }
{
    put_refusal(place, r);
    u64::from(r.number)
}

// The mode to check a stream in, or the refusal where a place is too short, or else the number is no mode's.
#[tactic(auto, unfolding(crate::specs::Steps::asked, bits::specs::Bits::pick))]
pub(crate) fn asked(mode: u8, report: &[u8], refusal: &[u8]) -> Result<VbvMode, VbvRefusal>
    ensures { result ≡ asked mode report.now refusal.now }
{
    if (refusal.len() < REFUSAL_BYTES) | (report.len() < REPORT_BYTES) {
        return Err(plain(19));
    }
    let number = u64::from(mode);
    if is_mode(number) {
        return Ok(mode_for(number));
    }
    Err(plain(12))
}

// What the check answered, in its places.
#[tactic(auto, unfolding(crate::specs::Check::report_after, crate::specs::Check::refusal_after))]
pub(crate) fn answer(
    verified: Result<VbvStreamReport, VbvVerifyError>,
    report: &mut [u8],
    refusal: &mut [u8],
) -> u64
    ensures value { result ≡ number (verified_answer verified) }
    ensures report_after { report.new ≡ report_after (verified_answer verified) report.old }
    ensures refusal_after { refusal.new ≡ refusal_after (verified_answer verified) refusal.old }
{
    match verified {
        Ok(r) => {
            put_report(report, r);
            0
        }
        Err(error) => refuse(refusal, error.refusal()),
    }
}

// The buffer report of a stream with its records, or why it is refused: 0, or the refusal's number.
#[unsafe(no_mangle)]
pub extern "C" fn vbv_check(
    stream: &[u8],
    mode: u8,
    report: &mut [u8],
    records: &mut [u8],
    refusal: &mut [u8],
) -> u64
    ensures value { result ≡ number (checked_in stream mode report records refusal) }
    ensures report_after { report.new ≡ report_after (reported (checked_in stream mode report records refusal)) report.old }
    ensures records_after { records.new ≡ records_after (checked_in stream mode report records refusal) records.old }
    ensures refusal_after { refusal.new ≡ refusal_after (checked_in stream mode report records refusal) refusal.old }
{
    match asked(mode, report, refusal) {
        Ok(mode) => answer(verify_in_mode(stream, mode, records), report, refusal),
        Err(why) => refuse(refusal, why),
    }
}
