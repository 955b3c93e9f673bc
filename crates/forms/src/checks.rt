// A stream with every byte set to every value in turn: the check with records in a lent slice of structs beside the check
// with records as bytes.
use crate::bridge::checked;
use crate::tally::Tally;
use cases::put::put_words;
use verify::{VbvPictureRecord, VbvStandard, verify_cbr_stream};

// The stream of paper 01, with a second picture.
const STREAM: [u8; 80] =
    *b"\x00\x00\x01\xB3\x01\x00\x10\x13\x02\x71\x20\xA0\x00\x00\x01\xB5\x14\x82\x00\x01\x00\x00\x00\x00\x01\xB8\x00\x08\x00\x40\x00\x00\x01\x00\x00\x0A\xB3\x30\x00\x00\x01\xB5\x8F\xFF\xF3\x41\x80\x00\x00\x01\x01\x12\x34\x00\x00\x01\x00\x00\x0B\x23\x28\x00\x00\x01\xB5\x8F\xFF\xF3\x41\x80\x00\x00\x01\x01\x12\x34\x00\x00\x01\xB7";

// What each place holds before the check.
const FILLING: VbvPictureRecord = VbvPictureRecord {
    vbv_delay: 7,
    expected_delay: 8,
    data_bits: 9,
    occupancy_before_bits: 10,
    periods: 11,
};

fn put_records(out: &mut [u8], records: [VbvPictureRecord; 4]) {
    let mut at = 0;
    for record in records {
        let words = [
            record.vbv_delay as u64,
            record.expected_delay as u64,
            record.data_bits,
            record.occupancy_before_bits,
            record.periods as u64,
        ];
        at = put_words(out, at, &words);
    }
}

// Whether both forms give the same answer and leave the same four places.
fn compare(tally: &mut Tally, stream: &[u8], standard: VbvStandard) {
    let mut bytes = [0u8; 160];
    put_records(&mut bytes, [FILLING; 4]);
    let by_bytes = verify_cbr_stream(stream, standard, &mut bytes);
    let (by_structs, records) = checked(stream, standard, FILLING);
    let mut lent_bytes = [0u8; 160];
    put_records(&mut lent_bytes, records);
    let same = (by_bytes == by_structs) & (bytes == lent_bytes);
    tally.count(by_structs.is_ok(), same);
}

pub(crate) fn run() -> Tally {
    let mut tally = Tally::new();
    for i in 0..STREAM.len() {
        for byte in 0..=255u8 {
            let mut stream = STREAM;
            stream[i] = byte;
            compare(&mut tally, &stream, VbvStandard::Mpeg2);
            compare(&mut tally, &stream, VbvStandard::Mpeg1);
        }
    }
    tally
}
