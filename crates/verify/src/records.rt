// Records as bytes (docs/LAYOUT.md): five words each.
ghost use Rattle.std.specs.Prelude.{◌≡◌, ◌+◌, ◌≤◌, length};
ghost use Rattle.std.proofs.lemmas.List.Edits.{sets};
ghost use Rattle.verify.specs.Layout.{record_size, record_bytes};

use crate::VbvPictureRecord;
use words::put_words;

// A record, from byte `at` on.
pub(crate) fn put_record(out: &mut [u8], at: usize, record: VbvPictureRecord)
    requires { at + record_size ≤ length out.old }
    ensures { out.new ≡ sets out.old at (record_bytes «record») }
{
    let words = [
        record.vbv_delay as u64,
        record.expected_delay as u64,
        record.data_bits,
        record.occupancy_before_bits,
        record.periods as u64,
    ];
    put_words(&mut out[at..], &words);
}
