// The check, outside film and at a constant rate, with records in a lent slice of structs, as the Rust gives them; C and all else
// take bytes.
ghost use Rattle.std.specs.Prelude.{◌≡◌, length};
ghost use Rattle.bits.specs.Answers.{over};
ghost use Rattle.verify.specs.Answers.{verified_answer};
ghost use Rattle.verify.specs.Check.{verdict, reported, records as records_of};
ghost use Rattle.verify.specs.Mode.{plain as plain_of};

use crate::recorder::VbvRecorder;
use crate::report::checked;
use crate::{VbvMode, VbvPictureRecord, VbvStreamReport, VbvVerifyError};
use pictures::VbvStandard;

// The buffer report of a stream with its records, or why it is refused. The records of an accepted stream are stored from
// the first place on; the places past them, and all places on a refusal, keep what they hold.
pub fn verify_cbr_stream(
    stream: &[u8],
    standard: VbvStandard,
    records: &mut [VbvPictureRecord],
) -> Result<VbvStreamReport, VbvVerifyError>
    ensures result_value { verified_answer result ≡ reported (verdict (plain_of standard) stream.now (length records.old)) }
    ensures records_after { records.new ≡ over (records_of (verdict (plain_of standard) stream.now (length records.old))) records.old }
{
    let mode = VbvMode::plain(standard);
    let (report, beginning) = checked(stream, mode, records.len())?;
    let mut recorder = VbvRecorder::new(mode, beginning);
    let count = report.pictures as usize;
    for place in records[..count].iter_mut() {
        if let Some(record) = recorder.next_record(stream) {
            *place = record;
        }
    }
    Ok(report)
}
