// The entries of `hipokuta` as C calls them (include/hipokuta.h): each calls the library's function of its name and promises
// the same. (A crate is a library, for the crates above, or a static library, for C.)
#![tactic(auto)]

ghost use Rattle.std.specs.Prelude.{◌≡◌};
ghost use Rattle.bits.specs.Refusals.{number};
ghost use Rattle.verify.specs.Check.{reported};
ghost use Rattle.vbv.specs.Patch.{patch_picture, patched};
ghost use Rattle.hipokuta.specs.Check.{checked_in, report_alone_in, report_after, records_after, refusal_after};
ghost use Rattle.hipokuta.specs.Send.{state_after, config_of, create_in, create_with, brought, offer_in, offer_state, offer_out, offer_place, withdraw_in};

// The buffer report of a stream with its records, or why it is refused: 0, or the refusal's number.
#[unsafe(no_mangle)]
pub extern "C" fn vbv_check(
    stream: &[u8],
    mode: u8,
    report: &mut [u8],
    records: &mut [u8],
    refusal: &mut [u8],
) -> u64
    ensures value { result ≡ number (checked_in stream mode report records refusal) }
    ensures report_after { report.new ≡ report_after (reported (checked_in stream mode report records refusal)) report.old }
    ensures records_after { records.new ≡ records_after (checked_in stream mode report records refusal) records.old }
    ensures refusal_after { refusal.new ≡ refusal_after (checked_in stream mode report records refusal) refusal.old }
{
    hipokuta::vbv_check(stream, mode, report, records, refusal)
}

// The buffer report of a stream, or why it is refused, but never for want of record places: 0, or the refusal's number.
#[unsafe(no_mangle)]
pub extern "C" fn vbv_report(stream: &[u8], mode: u8, report: &mut [u8], refusal: &mut [u8]) -> u64
    ensures value { result ≡ number (report_alone_in stream mode report refusal) }
    ensures report_after { report.new ≡ report_after (report_alone_in stream mode report refusal) report.old }
    ensures refusal_after { refusal.new ≡ refusal_after (report_alone_in stream mode report refusal) refusal.old }
{
    hipokuta::vbv_report(stream, mode, report, refusal)
}

// Writes the delay into a picture header: 0, or 20 where none begins there.
#[unsafe(no_mangle)]
pub extern "C" fn vbv_patch_delay(picture: &mut [u8], vbv_delay: u16) -> u64
    ensures value { result ≡ number (patch_picture picture.old) }
    ensures picture_after { picture.new ≡ patched picture.old vbv_delay }
{
    hipokuta::vbv_patch_delay(picture, vbv_delay)
}

// A new plain MPEG-2 writer in the place for its state, its frame rate that of the code: 0, or the refusal's number.
#[unsafe(no_mangle)]
pub extern "C" fn cbr_create(
    bit_rate_value: u32,
    vbv_buffer_size_value: u16,
    frame_rate_code: u8,
    quantiser: u8,
    b_between: u8,
    anchors_per_gop: u8,
    state: &mut [u8],
) -> u64
    ensures value { result ≡ number (create_in (config_of bit_rate_value vbv_buffer_size_value frame_rate_code quantiser b_between anchors_per_gop) state.old) }
    ensures state_after { state.new ≡ state_after (create_in (config_of bit_rate_value vbv_buffer_size_value frame_rate_code quantiser b_between anchors_per_gop) state.old) state.old }
{
    hipokuta::cbr_create(
        bit_rate_value,
        vbv_buffer_size_value,
        frame_rate_code,
        quantiser,
        b_between,
        anchors_per_gop,
        state,
    )
}

// A new writer by a configuration's words: mode, bit_rate_value, vbv_buffer_size_value, frame_rate_code, n, d, quantiser,
// b_between, anchors_per_gop.
#[unsafe(no_mangle)]
pub extern "C" fn cbr_create_config(config: &[u8], state: &mut [u8]) -> u64
    ensures value { result ≡ number (create_with config.now state.old) }
    ensures state_after { state.new ≡ state_after (create_with config.now state.old) state.old }
{
    hipokuta::cbr_create_config(config, state)
}

// Offers a picture: 0 where it is placed or wanted again, as the answer place says, or the refusal's number.
#[unsafe(no_mangle)]
pub extern "C" fn cbr_offer(
    state: &mut [u8],
    headers: &[u8],
    kind: u8,
    interval: u8,
    last: u8,
    layer: &[u8],
    out: &mut [u8],
    answer: &mut [u8],
) -> u64
    ensures value { result ≡ number (offer_in state.old (brought headers kind interval last layer out answer)) }
    ensures state_after { state.new ≡ offer_state state.old (brought headers kind interval last layer out answer) }
    ensures out_after { out.new ≡ offer_out state.old (brought headers kind interval last layer out answer) }
    ensures answer_after { answer.new ≡ offer_place state.old (brought headers kind interval last layer out answer) }
{
    hipokuta::cbr_offer(state, headers, kind, interval, last, layer, out, answer)
}

// Closes the pending picture, if there is one: 0, or 12 where the state holds no writer.
#[unsafe(no_mangle)]
pub extern "C" fn cbr_withdraw(state: &mut [u8]) -> u64
    ensures value { result ≡ number (withdraw_in state.old) }
    ensures state_after { state.new ≡ state_after (withdraw_in state.old) state.old }
{
    hipokuta::cbr_withdraw(state)
}
