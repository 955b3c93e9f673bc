// The bytes placed: headers, layer with its delay, stuffing, and the sequence's end after the last picture.
ghost use Rattle.std.specs.Prelude.{◌≡◌, ◌++◌, ◌+◌, ◌≤◌, length, replicate};
ghost use Rattle.std.proofs.lemmas.List.Edits.{sets};
ghost use Rattle.bits.specs.Answers.{over};
ghost use Rattle.vbv.specs.Patch.{patched};
ghost use Rattle.rate_control.specs.Offer.{end_code};

use bits::start_codes::SEQUENCE_END;

// Bytes from place `at` on.
fn put(out: &mut [u8], at: usize, bytes: &[u8])
    requires { at + length bytes.now ≤ length out.old }
    ensures { out.new ≡ sets out.old at bytes.now }
{
    for k in 0..bytes.len() {
        out[at + k] = bytes[k];
    }
}

// So many zeros from place `at` on.
fn put_zeros(out: &mut [u8], at: usize, zeros: usize)
    requires { at + zeros ≤ length out.old }
    ensures { out.new ≡ sets out.old at (replicate zeros 0) }
{
    out[at..at + zeros].fill(0);
}

// The sequence's end at place `at`, after the last picture.
fn put_end(out: &mut [u8], at: usize, last: bool)
    requires { at + length (end_code last) ≤ length out.old }
    ensures { out.new ≡ sets out.old at (end_code last) }
{
    if last {
        put(out, at, &SEQUENCE_END);
    }
}

// All of it, over the first bytes of the part.
pub(crate) fn put_placed(
    out: &mut [u8],
    headers: &[u8],
    layer: &[u8],
    vbv_delay: u16,
    zeros: usize,
    last: bool,
)
    requires { length headers.now + length layer.now + zeros + length (end_code last) ≤ length out.old }
    ensures { out.new ≡ over (headers.now ++ (patched layer.now vbv_delay ++ (replicate zeros 0 ++ end_code last))) out.old }
{
    let picture = headers.len();
    let after = picture + layer.len();
    put(out, 0, headers);
    put(out, picture, layer);
    let _patched = vbv::patch_vbv_delay(&mut out[picture..after], vbv_delay);
    put_zeros(out, after, zeros);
    put_end(out, after + zeros, last);
}
