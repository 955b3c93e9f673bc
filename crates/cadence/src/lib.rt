// How long a picture lasts (paper 02, request 05): field periods up to the next removal, outside film by the picture's structure, in film mode
// by Annex C.
#![tactic(auto)]

ghost use Rattle.std.specs.Prelude.{◌≡◌};
ghost use Rattle.cadence.specs.Cadence.{lasting as lasting_of, interval as interval_of, after as after_of, opened as opened_of, with as with_of, cadence_fits};

use picture_header::PictureFacts;
use vbv::RemovalInterval;

// A field that waits for the second of its pair.
#[derive(Clone, Copy, PartialEq, Eq)]
pub enum OpenField {
    Closed,
    LedByAnchor,
    LedByOther,
}

// Film mode or not; progressive_sequence and low_delay; the flags of the previous anchor, false where there is none; the field
// that waits. (Outside film all are false, which `cadence_fits` asks of one that comes as bytes.)
#[derive(Clone, Copy)]
pub struct VbvCadence {
    pub film: bool,
    pub progressive: bool,
    pub low_delay: bool,
    pub repeat: bool,
    pub top: bool,
    pub waiting: OpenField,
}

// A frame by these flags.
#[tactic(auto, unfolding(crate::specs::Cadence::lasting, bits::specs::Bits::pick))]
fn lasting(progressive: bool, repeat: bool, top: bool) -> RemovalInterval
    ensures { result ≡ lasting_of progressive repeat top }
{
    match (repeat, progressive, top) {
        (false, _, _) => RemovalInterval::Frame,
        (true, false, _) => RemovalInterval::ThreeFields,
        (true, true, false) => RemovalInterval::TwoFrames,
        (true, true, true) => RemovalInterval::ThreeFrames,
    }
}

impl VbvCadence {
    // Before the first picture of a sequence. Outside film its flags are not kept.
    #[tactic(auto, unfolding(crate::specs::Cadence::opened))]
    pub fn opened(film: bool, progressive: bool, low_delay: bool) -> VbvCadence
        ensures { result ≡ opened_of film progressive low_delay }
    {
        VbvCadence {
            film,
            progressive: film && progressive,
            low_delay: film && low_delay,
            repeat: false,
            top: false,
            waiting: OpenField::Closed,
        }
    }

    // Outside film nothing is kept.
    #[tactic(auto, unfolding(crate::specs::Cadence::cadence_fits, crate::specs::Cadence::is_closed, bits::specs::Bits::pick))]
    pub fn fits(self) -> bool
        ensures { result ≡ cadence_fits self }
    {
        self.film
            || !self.progressive
                && !self.low_delay
                && !self.repeat
                && !self.top
                && self.waiting == OpenField::Closed
    }

    // How long up to the removal after this picture's. A field that lasts as long as a frame has the interval Frame.
    #[tactic(auto, unfolding(crate::specs::Cadence::interval, crate::specs::Cadence::field_interval, crate::specs::Cadence::frame_interval, crate::specs::Cadence::led_by_anchor, vbv::specs::Model::interval_of, bits::specs::Bits::pick))]
    pub fn interval(self, facts: PictureFacts) -> RemovalInterval
        ensures { result ≡ interval_of self facts }
    {
        if !self.film {
            return if facts.field {
                RemovalInterval::Field
            } else {
                RemovalInterval::Frame
            };
        }
        let led = self.waiting == OpenField::LedByAnchor;
        if facts.field {
            if led && self.repeat && !self.progressive && !self.low_delay {
                return RemovalInterval::Frame;
            }
            return RemovalInterval::Field;
        }
        if facts.anchor && !self.low_delay {
            return lasting(self.progressive, self.repeat && !led, self.top);
        }
        lasting(self.progressive, facts.repeat, facts.top)
    }

    // What this picture leaves to those that follow.
    #[tactic(auto, unfolding(crate::specs::Cadence::after, crate::specs::Cadence::after_field, crate::specs::Cadence::after_frame, crate::specs::Cadence::closed, crate::specs::Cadence::is_closed, crate::specs::Cadence::led_by_anchor, bits::specs::Bits::pick))]
    pub fn after(self, facts: PictureFacts) -> VbvCadence
        ensures { result ≡ after_of self facts }
    {
        if !self.film {
            return self;
        }
        let led = self.waiting == OpenField::LedByAnchor;
        if facts.field {
            if self.waiting == OpenField::Closed {
                if facts.anchor {
                    return self.with(self.repeat, self.top, OpenField::LedByAnchor);
                }
                return self.with(self.repeat, self.top, OpenField::LedByOther);
            }
            return self.with(self.repeat && !led, self.top && !led, OpenField::Closed);
        }
        if facts.anchor {
            return self.with(facts.repeat, facts.top, OpenField::Closed);
        }
        self.with(self.repeat && !led, self.top && !led, OpenField::Closed)
    }

    // The same sequence, with these flags of the previous anchor and this open field.
    #[tactic(auto, unfolding(crate::specs::Cadence::with))]
    fn with(self, repeat: bool, top: bool, waiting: OpenField) -> VbvCadence
        ensures { result ≡ with_of self repeat top waiting }
    {
        VbvCadence {
            repeat,
            top,
            waiting,
            ..self
        }
    }
}
