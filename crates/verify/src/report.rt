// The check of a stream. A first walk reads every picture's headers and runs the model; a second one stores the records of
// an accepted stream. Both go by what the first headers declare, which is read once.
ghost use Rattle.std.specs.Prelude.{◌≡◌, ◌*◌, ◌/◌, ◌≤◌, length};
ghost use Rattle.vbv.specs.Model.{farthest};
ghost use Rattle.bits.specs.Answers.{over};
ghost use Rattle.verify.specs.Mode.{plain as plain_of};
ghost use Rattle.verify.specs.Answers.{verified_answer};
ghost use Rattle.verify.specs.Check.{verdict, reported, records as records_of};
ghost use Rattle.verify.specs.Layout.{record_size, records_bytes};
ghost use Rattle.verify.specs.Steps.{recorder_of, walked_from, if_placed, judgement, checked};

use crate::recorder::{VbvBeginning, VbvRecorder, beginning};
use crate::records::put_record;
use crate::{Progress, RECORD_BYTES, VbvMode, VbvStreamReport, VbvVerifyError, Walked};
use pictures::VbvStandard;
use vbv::VbvError;

// Every picture header in stream order. The model runs along, so that the stream is walked over once.
fn walk(stream: &[u8], mode: VbvMode, beginning: VbvBeginning) -> Result<Walked, VbvVerifyError>
    requires { 8 * length stream.now ≤ farthest }
    ensures { verified_answer result ≡ walked_from (recorder_of mode beginning) stream.now }
{
    let mut recorder = VbvRecorder::new(mode, beginning);
    let mut pictures: usize = 0;
    while recorder.step(stream)? {
        pictures += 1;
    }
    Ok(Walked {
        params: recorder.params,
        pictures,
        progress: recorder.progress,
    })
}

// An answer for which the record places are asked first.
#[tactic(auto, unfolding(crate::specs::Steps::if_placed, bits::specs::Bits::pick))]
fn if_placed(
    pictures: usize,
    places: usize,
    answer: Result<VbvStreamReport, VbvVerifyError>,
) -> Result<VbvStreamReport, VbvVerifyError>
    ensures { result ≡ if_placed pictures places answer }
{
    if pictures <= places {
        return answer;
    }
    Err(VbvVerifyError::RecordPlaces)
}

// A refusal of the run comes after every other one.
#[tactic(auto, unfolding(crate::specs::Steps::judgement))]
fn judge(walked: Walked, places: usize) -> Result<VbvStreamReport, VbvVerifyError>
    ensures { result ≡ judgement walked.params places walked.pictures walked.progress }
{
    let params = walked.params;
    let pictures = walked.pictures;
    match walked.progress {
        Progress::Fresh => Err(VbvVerifyError::NoPictures),
        Progress::Unmodelled(error) => Err(error),
        Progress::Running {
            model: _,
            last: _,
            least,
            greatest,
        } => {
            let report = VbvStreamReport {
                bit_rate: params.bit_rate,
                buffer_size_bits: params.buffer_size_bits,
                pictures: pictures as u64,
                min_occupancy_after_bits: least,
                max_occupancy_before_bits: greatest,
            };
            if_placed(pictures, places, Ok(report))
        }
        Progress::Stopped(error) => if_placed(pictures, places, Err(error)),
    }
}

// The buffer report of a stream in a mode, given so many record places, or why it is refused; and what its first headers
// declare, for a second walk.
pub(crate) fn checked(
    stream: &[u8],
    mode: VbvMode,
    places: usize,
) -> Result<(VbvStreamReport, VbvBeginning), VbvVerifyError>
    ensures { verified_answer result ≡ checked mode stream.now (reported (verdict mode stream.now places)) }
{
    if !mode.fits() {
        return Err(VbvVerifyError::Model(VbvError::Params));
    }
    let beginning = beginning(stream, mode)?;
    let walked = walk(stream, mode, beginning)?;
    let report = judge(walked, places)?;
    Ok((report, beginning))
}

// The buffer report of a stream in a mode, given so many record places, without its records; or why it is refused.
pub fn check_in_mode(
    stream: &[u8],
    mode: VbvMode,
    places: usize,
) -> Result<VbvStreamReport, VbvVerifyError>
    ensures { verified_answer result ≡ reported (verdict mode stream.now places) }
{
    let (report, _) = checked(stream, mode, places)?;
    Ok(report)
}

// The buffer report of a stream in a mode with its records, or why it is refused. A place has the bytes of a record.
pub fn verify_in_mode(
    stream: &[u8],
    mode: VbvMode,
    records: &mut [u8],
) -> Result<VbvStreamReport, VbvVerifyError>
    ensures result_value { verified_answer result ≡ reported (verdict mode stream.now (length records.old / record_size)) }
    ensures records_after { records.new ≡ over (records_bytes (records_of (verdict mode stream.now (length records.old / record_size)))) records.old }
{
    let (report, beginning) = checked(stream, mode, records.len() / RECORD_BYTES)?;
    let mut recorder = VbvRecorder::new(mode, beginning);
    for i in 0..report.pictures as usize {
        if let Some(record) = recorder.next_record(stream) {
            put_record(records, RECORD_BYTES * i, record);
        }
    }
    Ok(report)
}

// Outside film, at a constant rate.
pub fn check_stream(
    stream: &[u8],
    standard: VbvStandard,
    places: usize,
) -> Result<VbvStreamReport, VbvVerifyError>
    ensures { verified_answer result ≡ reported (verdict (plain_of standard) stream.now places) }
{
    check_in_mode(stream, VbvMode::plain(standard), places)
}

// Outside film, at a constant rate, with the records.
pub fn verify_cbr_stream(
    stream: &[u8],
    standard: VbvStandard,
    records: &mut [u8],
) -> Result<VbvStreamReport, VbvVerifyError>
    ensures result_value { verified_answer result ≡ reported (verdict (plain_of standard) stream.now (length records.old / record_size)) }
    ensures records_after { records.new ≡ over (records_bytes (records_of (verdict (plain_of standard) stream.now (length records.old / record_size)))) records.old }
{
    verify_in_mode(stream, VbvMode::plain(standard), records)
}
