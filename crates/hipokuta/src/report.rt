// The report of a stream without its records, and its refusal as bytes.
ghost use Rattle.std.specs.Prelude.{◌≡◌};
ghost use Rattle.bits.specs.Refusals.{number};
ghost use Rattle.hipokuta.specs.Check.{report_alone_in, report_after, refusal_after};

use crate::check::{answer, asked, refuse};
use verify::check_in_mode;

// The buffer report of a stream, or why it is refused, but never for want of record places: 0, or the refusal's number. A
// stream has no more pictures than bytes.
#[unsafe(no_mangle)]
pub extern "C" fn vbv_report(stream: &[u8], mode: u8, report: &mut [u8], refusal: &mut [u8]) -> u64
    ensures value { result ≡ number (report_alone_in stream mode report refusal) }
    ensures report_after { report.new ≡ report_after (report_alone_in stream mode report refusal) report.old }
    ensures refusal_after { refusal.new ≡ refusal_after (report_alone_in stream mode report refusal) refusal.old }
{
    let places = stream.len();
    match asked(mode, report, refusal) {
        Ok(mode) => answer(check_in_mode(stream, mode, places), report, refusal),
        Err(why) => refuse(refusal, why),
    }
}
