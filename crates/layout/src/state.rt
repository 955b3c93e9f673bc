// A writer's state as bytes, and the writer that a place holds. Words and codes are the C interface (docs/LAYOUT.md).
ghost use Rattle.std.specs.Prelude.{◌≡◌};
ghost use Rattle.headers.specs.Answers.{flag_of};
ghost use Rattle.words.specs.Words.{laid};
ghost use Rattle.verify.specs.Mode.{mpeg2};
ghost use Rattle.layout.specs.Mode.{mode_number};
ghost use Rattle.layout.specs.State.{pending_code, pending_quantiser, open_code, pending_of, open_of, cadence_codes_fit, cadence_in, writer_at, state_bytes, state_at};
ghost use Rattle.layout.specs.Steps.{Narrow, narrow};

use crate::STATE_BYTES;
use crate::mode::{
    MPEG1, MPEG2, MPEG2_FILM, MPEG2_FILM_VARIABLE, MPEG2_VARIABLE, is_mode, mode_for,
};
use cadence::{OpenField, VbvCadence};
use layers::PictureKind;
use rate_control::CbrWriter;
use vbv::{VbvCbrModel, VbvParams};
use words::{put_words, word_at};

// 0 where no picture is pending, 1 I, 2 P, 3 B.
#[tactic(auto, unfolding(crate::specs::State::pending_code))]
fn pending_code(pending: Option<(PictureKind, u8)>) -> u64
    ensures { result ≡ pending_code pending }
{
    match pending {
        None => 0,
        Some((PictureKind::I, _)) => 1,
        Some((PictureKind::P, _)) => 2,
        Some((PictureKind::B, _)) => 3,
    }
}

#[tactic(auto, unfolding(crate::specs::State::pending_quantiser))]
fn pending_quantiser(pending: Option<(PictureKind, u8)>) -> u64
    ensures { result ≡ pending_quantiser pending }
{
    match pending {
        None => 0,
        Some((_, q)) => u64::from(q),
    }
}

// 0 where no field is open, 1 led by I or P, 2 by B.
#[tactic(auto, unfolding(crate::specs::State::open_code))]
fn open_code(waiting: OpenField) -> u64
    ensures { result ≡ open_code waiting }
{
    match waiting {
        OpenField::Closed => 0,
        OpenField::LedByAnchor => 1,
        OpenField::LedByOther => 2,
    }
}

// The mode of a writer.
fn mode_word(film: bool, variable: bool) -> u64
    ensures { result ≡ mode_number (mpeg2 film variable) }
{
    match (film, variable) {
        (false, false) => MPEG2,
        (true, false) => MPEG2_FILM,
        (false, true) => MPEG2_VARIABLE,
        (true, true) => MPEG2_FILM_VARIABLE,
    }
}

// A writer's state over the first bytes of a place; a place that is too short is left alone.
pub fn put_state(place: &mut [u8], writer: CbrWriter)
    ensures { place.new ≡ laid (state_bytes writer) place.old }
{
    let words = [
        writer.model.params.bit_rate,
        writer.model.params.buffer_size_bits,
        writer.model.params.frn,
        writer.model.params.frd,
        writer.model.whole,
        writer.model.rest,
        writer.model.prev_end_bits,
        writer.model.removed,
        u64::from(writer.model.started),
        writer.target_bits[0],
        writer.target_bits[1],
        writer.target_bits[2],
        u64::from(writer.q[0]),
        u64::from(writer.q[1]),
        u64::from(writer.q[2]),
        pending_code(writer.pending),
        pending_quantiser(writer.pending),
        writer.stuffing_bytes,
        u64::from(writer.finished),
        mode_word(writer.cadence.film, writer.variable),
        u64::from(writer.cadence.progressive),
        u64::from(writer.cadence.low_delay),
        u64::from(writer.cadence.repeat),
        u64::from(writer.cadence.top),
        open_code(writer.cadence.waiting),
    ];
    put_words(place, &words);
}

fn model_at(place: &[u8]) -> VbvCbrModel
    ensures { result ≡ (writer_at place.now).model }
{
    let params = VbvParams {
        bit_rate: word_at(place, 0),
        buffer_size_bits: word_at(place, 1),
        frn: word_at(place, 2),
        frd: word_at(place, 3),
    };
    VbvCbrModel {
        params,
        whole: word_at(place, 4),
        rest: word_at(place, 5),
        prev_end_bits: word_at(place, 6),
        removed: word_at(place, 7),
        started: word_at(place, 8) == 1,
    }
}

// The words of the cadence: a writer's mode, flags, an open field.
#[tactic(auto, unfolding(crate::specs::State::cadence_codes_fit))]
fn cadence_fits(place: &[u8]) -> bool
    ensures { result ≡ cadence_codes_fit place.now }
{
    let mode = word_at(place, 19);
    (is_mode(mode) & (mode != MPEG1))
        & ((word_at(place, 20) <= 1)
            & ((word_at(place, 21) <= 1)
                & ((word_at(place, 22) <= 1)
                    & ((word_at(place, 23) <= 1) & (word_at(place, 24) <= 2)))))
}

// The words that a writer has in fewer bits: flags, the pending picture, quantisers up to 31.
fn narrow(place: &[u8]) -> bool
    ensures { result ≡ narrow place.now }
{
    let code = word_at(place, 15);
    let q = word_at(place, 16);
    let told = (code != 0) | (q == 0);
    let finished = word_at(place, 18) <= 1;
    let codes = (word_at(place, 8) <= 1)
        & ((code <= 3) & (told & (finished & cadence_fits(place))));
    let kinds = (word_at(place, 12) <= 31)
        & ((word_at(place, 13) <= 31) & (word_at(place, 14) <= 31));
    codes & (kinds & (q <= 31))
}

#[tactic(auto, unfolding(crate::specs::State::pending_of, bits::specs::Bits::pick))]
fn pending_at(code: u64, q: u8) -> Option<(PictureKind, u8)>
    ensures { result ≡ pending_of code q }
{
    match code {
        0 => None,
        1 => Some((PictureKind::I, q)),
        2 => Some((PictureKind::P, q)),
        _ => Some((PictureKind::B, q)),
    }
}

#[tactic(auto, unfolding(crate::specs::State::open_of, bits::specs::Bits::pick))]
fn open_at(code: u64) -> OpenField
    ensures { result ≡ open_of code }
{
    match code {
        0 => OpenField::Closed,
        1 => OpenField::LedByAnchor,
        _ => OpenField::LedByOther,
    }
}

#[tactic(auto, unfolding(crate::specs::State::cadence_in))]
fn cadence_at(place: &[u8]) -> VbvCadence
    ensures { result ≡ cadence_in place.now }
{
    let mode = mode_for(word_at(place, 19));
    VbvCadence {
        film: mode.film,
        progressive: word_at(place, 20) == 1,
        low_delay: word_at(place, 21) == 1,
        repeat: word_at(place, 22) == 1,
        top: word_at(place, 23) == 1,
        waiting: open_at(word_at(place, 24)),
    }
}

fn writer_at(place: &[u8]) -> CbrWriter
    requires { Narrow place.now }
    ensures { result ≡ writer_at place.now }
{
    let model = model_at(place);
    let target_bits = [word_at(place, 9), word_at(place, 10), word_at(place, 11)];
    let i = word_at(place, 12) as u8;
    let p = word_at(place, 13) as u8;
    let b = word_at(place, 14) as u8;
    let waits = word_at(place, 16) as u8;
    let mode = mode_for(word_at(place, 19));
    CbrWriter {
        model,
        target_bits,
        q: [i, p, b],
        pending: pending_at(word_at(place, 15), waits),
        stuffing_bytes: word_at(place, 17),
        finished: word_at(place, 18) == 1,
        cadence: cadence_at(place),
        variable: mode.variable,
    }
}

// The writer that a place holds: none where it is too short or has a value out of its range.
pub fn read_state(place: &[u8]) -> Option<CbrWriter>
    ensures { result ≡ state_at place.now }
{
    if place.len() < STATE_BYTES || !narrow(place) {
        return None;
    }
    let writer = writer_at(place);
    if writer.fits() { Some(writer) } else { None }
}
