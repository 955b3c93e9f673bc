// The writer, its state as bytes.
ghost use Rattle.std.specs.Prelude.{◌≡◌};
ghost use Rattle.bits.specs.Refusals.{number};
ghost use Rattle.vbv.specs.Answers.{model_answer};
ghost use Rattle.rate_control.specs.Answers.{offer_answer};
ghost use Rattle.hipokuta.specs.Send.{state_after, config_of, create_in, create_with, brought, kind_for, interval_for, offer_in, offer_state, offer_out, offer_place, withdraw_in};

use bits::plain;
use layers::PictureKind;
use layout::{
    ANSWER_BYTES, CONFIG_BYTES, STATE_BYTES, create_from, is_mode, put_answer, put_refused,
    put_state, read_state,
};
use rate_control::{CbrConfig, CbrError, CbrGiven, CbrWriter};
use vbv::{RemovalInterval, VbvError};
use verify::{VbvMode, VbvStandard};
use words::word_at;

// The state of a writer, if there is one, in a place: 0, or the refusal's number.
fn put_writer(state: &mut [u8], writer: Result<CbrWriter, VbvError>) -> u64
    ensures value { result ≡ number (model_answer writer) }
    ensures state_after { state.new ≡ state_after (model_answer writer) state.old }
{
    match writer {
        Ok(writer) => {
            put_state(state, writer);
            0
        }
        Err(error) => u64::from(error.number()),
    }
}

// A new plain MPEG-2 writer in the place for its state, its frame rate that of the code: 0, or the refusal's number.
#[unsafe(no_mangle)]
pub extern "C" fn cbr_create(
    bit_rate_value: u32,
    vbv_buffer_size_value: u16,
    frame_rate_code: u8,
    quantiser: u8,
    b_between: u8,
    anchors_per_gop: u8,
    state: &mut [u8],
) -> u64
    ensures value { result ≡ number (create_in (config_of bit_rate_value vbv_buffer_size_value frame_rate_code quantiser b_between anchors_per_gop) state.old) }
    ensures state_after { state.new ≡ state_after (create_in (config_of bit_rate_value vbv_buffer_size_value frame_rate_code quantiser b_between anchors_per_gop) state.old) state.old }
{
    if state.len() < STATE_BYTES {
        return 19;
    }
    let config = CbrConfig {
        mode: VbvMode::plain(VbvStandard::Mpeg2),
        bit_rate_value,
        vbv_buffer_size_value,
        frame_rate_code,
        frame_rate_extension_n: 0,
        frame_rate_extension_d: 0,
        initial_quantiser_scale_code: quantiser,
        b_between,
        anchors_per_gop,
    };
    put_writer(state, CbrWriter::create(config))
}

// A new writer by a configuration's words: mode, bit_rate_value, vbv_buffer_size_value, frame_rate_code, n, d, quantiser,
// b_between, anchors_per_gop.
#[tactic(auto, using(crate::proofs::Sending::config_short, crate::proofs::Sending::config_short_leaves))]
#[unsafe(no_mangle)]
pub extern "C" fn cbr_create_config(config: &[u8], state: &mut [u8]) -> u64
    ensures value { result ≡ number (create_with config.now state.old) }
    ensures state_after { state.new ≡ state_after (create_with config.now state.old) state.old }
{
    if config.len() < CONFIG_BYTES {
        return 12;
    }
    if state.len() < STATE_BYTES {
        return 19;
    }
    if is_mode(word_at(config, 0)) {
        return put_writer(state, create_from(config));
    }
    12
}

// Kinds 0 I, 1 P, 2 B: the C interface passes numbers.
#[tactic(auto, unfolding(crate::specs::Send::kind_for, bits::specs::Bits::pick))]
fn kind_of(kind: u8) -> PictureKind
    ensures { result ≡ kind_for kind }
{
    match kind {
        0 => PictureKind::I,
        1 => PictureKind::P,
        _ => PictureKind::B,
    }
}

// Intervals 1 a field, 2 a frame: numbers of the C interface too.
#[tactic(auto, unfolding(crate::specs::Send::interval_for, bits::specs::Bits::pick))]
fn interval_of(interval: u8) -> RemovalInterval
    ensures { result ≡ interval_for interval }
{
    if interval == 1 {
        return RemovalInterval::Field;
    }
    RemovalInterval::Frame
}

fn answer_number(answer: Result<CbrGiven, CbrError>) -> u64
    ensures { result ≡ number (offer_answer answer) }
{
    match answer {
        Ok(_) => 0,
        Err(error) => u64::from(error.refusal().number),
    }
}

// Offers a picture: 0 where it is placed or wanted again, as the answer place says, or the refusal's number.
#[unsafe(no_mangle)]
pub extern "C" fn cbr_offer(
    state: &mut [u8],
    headers: &[u8],
    kind: u8,
    interval: u8,
    last: u8,
    layer: &[u8],
    out: &mut [u8],
    answer: &mut [u8],
) -> u64
    ensures value { result ≡ number (offer_in state.old (brought headers kind interval last layer out answer)) }
    ensures state_after { state.new ≡ offer_state state.old (brought headers kind interval last layer out answer) }
    ensures out_after { out.new ≡ offer_out state.old (brought headers kind interval last layer out answer) }
    ensures answer_after { answer.new ≡ offer_place state.old (brought headers kind interval last layer out answer) }
{
    if let Some(writer) = read_state(state) {
        if answer.len() < ANSWER_BYTES {
            return 19;
        }
        if (kind <= 2) & (((1 <= interval) & (interval <= 2)) & (last <= 1)) {
            let offered = writer.offer(
                headers,
                kind_of(kind),
                interval_of(interval),
                last == 1,
                layer,
                out,
            );
            put_state(state, offered.writer);
            let said = offered.answer;
            put_answer(answer, said);
            return answer_number(said);
        }
    }
    put_refused(answer, plain(12));
    12
}

// Closes the pending picture, if there is one: 0, or 12 where the state holds no writer.
#[unsafe(no_mangle)]
pub extern "C" fn cbr_withdraw(state: &mut [u8]) -> u64
    ensures value { result ≡ number (withdraw_in state.old) }
    ensures state_after { state.new ≡ state_after (withdraw_in state.old) state.old }
{
    match read_state(state) {
        Some(writer) => put_writer(state, writer.withdraw()),
        None => 12,
    }
}
