// A walk over the pictures of a stream, with the model running along.
ghost use Rattle.std.specs.Prelude.{◌≡◌};
ghost use Rattle.verify.specs.Answers.{verified_answer};
ghost use Rattle.verify.specs.Steps.{beginning, recorder_of, last_of, stepped, steps, next_record};

use crate::run::advance;
use crate::{Progress, VbvMode, VbvPictureRecord, VbvVerifyError};
use cadence::VbvCadence;
use pictures::{cadence_of, next_seen, opening};
use vbv::VbvParams;

// What a stream's first headers declare: the parameters, and the cadence before the first picture.
#[derive(Clone, Copy)]
pub(crate) struct VbvBeginning {
    pub(crate) params: VbvParams,
    pub(crate) cadence: VbvCadence,
}

// Where the walk goes on, the cadence before the next picture, and how far the model has come.
#[derive(Drop)]
pub(crate) struct VbvRecorder {
    pub(crate) mode: VbvMode,
    pub(crate) params: VbvParams,
    pub(crate) at: usize,
    pub(crate) cadence: VbvCadence,
    pub(crate) progress: Progress,
}

// The last removal's record.
#[tactic(auto, unfolding(crate::specs::Steps::last_of))]
fn last_of(progress: Progress) -> Option<VbvPictureRecord>
    ensures { result ≡ last_of progress }
{
    if let Progress::Running {
        model: _,
        last,
        least: _,
        greatest: _,
    } = progress
    {
        return Some(last);
    }
    None
}

// The first headers: 14, 3, sequence header, extension, 6.
pub(crate) fn beginning(stream: &[u8], mode: VbvMode) -> Result<VbvBeginning, VbvVerifyError>
    ensures { verified_answer result ≡ beginning mode stream.now }
{
    let params = opening(stream, mode.standard)?;
    let cadence = cadence_of(stream, mode.film);
    Ok(VbvBeginning { params, cadence })
}

impl VbvRecorder {
    // Before the first picture.
    #[tactic(auto, unfolding(crate::specs::Steps::recorder_of))]
    pub(crate) fn new(mode: VbvMode, beginning: VbvBeginning) -> VbvRecorder
        ensures { result ≡ recorder_of mode beginning }
    {
        VbvRecorder {
            mode,
            params: beginning.params,
            at: 0,
            cadence: beginning.cadence,
            progress: Progress::Fresh,
        }
    }

    // The next picture taken, or false where there is none.
    pub(crate) fn step(&mut self, stream: &[u8]) -> Result<bool, VbvVerifyError>
        ensures recorder_after { self.new ≡ stepped stream.now self.old }
        ensures result_value { verified_answer result ≡ steps stream.now self.old }
    {
        let Some((seen, next)) = next_seen(stream, self.mode.standard, self.at)? else {
            return Ok(false);
        };
        let facts = seen.facts;
        let interval = self.cadence.interval(facts);
        // Outside film it stays: one test instead of six bytes moved.
        if self.cadence.film {
            self.cadence = self.cadence.after(facts);
        }
        self.at = next;
        self.progress = advance(
            self.progress,
            self.params,
            self.mode.variable,
            interval,
            seen,
        );
        Ok(true)
    }

    // The next picture's record.
    pub(crate) fn next_record(&mut self, stream: &[u8]) -> Option<VbvPictureRecord>
        ensures { (self.new, result) ≡ next_record stream.now self.old }
    {
        let Ok(more) = self.step(stream) else {
            return None;
        };
        if more { last_of(self.progress) } else { None }
    }
}
