// Kinds 17, 18 and 20 to 27: what the check answers to a stream, as oracle/FORMAT.md lays it out: at the start of out, its length
// returned, 0 where s is malformed.
use cases::put::{put, put_pattern, put_words};
use cases::take::number16;
use verify::{RECORD_BYTES, VbvMode, VbvRefusal, VbvStandard, VbvStreamReport, VbvVerifyError};

// The length of the record part, and the stream.
pub(crate) fn check(s: &[u8], standard: VbvStandard, out: &mut [u8]) -> usize {
    put_checked(
        s,
        out,
        |stream, records| verify::verify_cbr_stream(stream, standard, records),
    )
}

// The same in a mode. The check without records has to answer alike; where it does not, the answer is a byte, which differs.
pub(crate) fn check_in_mode(s: &[u8], mode: VbvMode, out: &mut [u8]) -> usize {
    let end = put_checked(
        s,
        out,
        |stream, records| verify::verify_in_mode(stream, mode, records),
    );
    let (Some(part), Some(stream)) = (end.checked_sub(41), s.get(2..)) else {
        return 0;
    };
    let mut alone = [0u8; 41];
    put_verified(
        &mut alone,
        verify::check_in_mode(stream, mode, part / RECORD_BYTES),
    );
    if out.starts_with(&alone) {
        return end;
    }
    1
}

// What `verify` answers to the stream, and the record part that it is lent.
fn put_checked<F: FnOnce(&[u8], &mut [u8]) -> Result<VbvStreamReport, VbvVerifyError>>(
    s: &[u8],
    out: &mut [u8],
    verify: F,
) -> usize
    requires { F.IsAlwaysCallable verify }
{
    if s.len() < 2 {
        return 0;
    }
    let end = put_pattern(out, 41, number16(s, 0));
    if end < 41 || out.len() < end {
        return 0;
    }
    let verified = verify(&s[2..], &mut out[41..end]);
    put_verified(out, verified);
    end
}

fn put_verified(out: &mut [u8], verified: Result<VbvStreamReport, VbvVerifyError>) -> usize {
    match verified {
        Ok(report) => put_report(out, report),
        Err(error) => put_refusal(out, error.refusal()),
    }
}

fn put_refusal(out: &mut [u8], r: VbvRefusal) -> usize {
    let at = put(out, 0, r.number);
    put_words(
        out,
        at,
        &[r.picture, u64::from(r.coded), u64::from(r.expected), 0, 0],
    )
}

fn put_report(out: &mut [u8], r: VbvStreamReport) -> usize {
    let at = put(out, 0, 0);
    put_words(
        out,
        at,
        &[
            r.bit_rate,
            r.buffer_size_bits,
            r.pictures,
            r.min_occupancy_after_bits,
            r.max_occupancy_before_bits,
        ],
    )
}
