// What is printed. Each function puts its text at `at` of a part and answers the place after it.
ghost use Rattle.std.specs.Prelude.{◌≡◌, ◌+◌, ◌*◌, ◌≤◌, [], ◌∷◌, ◌++◌, length, take, drop};
ghost use Rattle.verify.specs.Layout.{record_size};
ghost use Rattle.vbvcheck.specs.Text.{ascii, decimal, line, report_text, refusal_text, printed};
ghost use Rattle.vbvcheck.specs.Steps.{IsPrefixLen, line_of, lines_of};

use bits::VbvRefusal;
use itoa::Buffer;
use verify::{RECORD_BYTES, VbvStandard, VbvStreamReport, verify_cbr_stream};
use words::word_at;

// The longest stream, in bytes.
const LONGEST: usize = 65536;

fn put(out: &mut [u8], at: usize, text: &[u8]) -> usize
    requires { at + length text.now ≤ length out.old }
    ensures value { result ≡ at + length text.now }
    ensures out_after { take result out.new ≡ take at out.old ++ text.now }
{
    let end = at + text.len();
    out[at..end].copy_from_slice(text);
    end
}

// A number and what ends it.
fn put_number(out: &mut [u8], at: usize, n: u64, end: u8) -> usize
    requires { at + 21 ≤ length out.old }
    ensures upper_bound { result ≤ at + 21 }
    ensures out_after { take result out.new ≡ take at out.old ++ (decimal 20 n ++ (end ∷ [])) }
{
    let mut digits = Buffer::new();
    let next = put(out, at, digits.format(n).as_bytes());
    out[next] = end;
    next + 1
}

// Numbers, a space between them and a line end after them.
fn put_line(out: &mut [u8], at: usize, numbers: &[u64]) -> usize
    requires { at + 21 * length numbers.now ≤ length out.old }
    ensures upper_bound { result ≤ at + 21 * length numbers.now }
    ensures out_after { take result out.new ≡ take at out.old ++ line numbers.now }
{
    let mut next = at;
    for (k, &number) in numbers.iter().enumerate() {
        let end = if k + 1 < numbers.len() { b' ' } else { b'\n' };
        next = put_number(out, next, number, end);
    }
    next
}

// The record at place k, as a line.
fn put_record(out: &mut [u8], at: usize, records: &[u8], k: usize) -> usize
    requires at_in_bounds { at + 105 ≤ length out.old }
    requires k_in_bounds { record_size * (k + 1) ≤ length records.now }
    ensures upper_bound { result ≤ at + 105 }
    ensures out_after { take result out.new ≡ take at out.old ++ line_of (drop (record_size * k) records.now) }
{
    let from = RECORD_BYTES * k;
    let record = &records[from..];
    let numbers = [
        word_at(record, 0),
        word_at(record, 1),
        word_at(record, 2),
        word_at(record, 3),
        word_at(record, 4),
    ];
    put_line(out, at, &numbers)
}

// The records of the first n places, a line each.
fn put_records(out: &mut [u8], at: usize, records: &[u8], n: usize) -> usize
    requires n_in_bounds { at + 105 * n ≤ length out.old }
    requires n_in_bounds_2 { record_size * n ≤ length records.now }
    ensures upper_bound { result ≤ at + 105 * n }
    ensures out_after { take result out.new ≡ take at out.old ++ lines_of n records.now }
{
    let mut next = at;
    for k in 0..n {
        next = put_record(out, next, records, k);
    }
    next
}

// Numbers as a line below their heading.
fn put_headed(out: &mut [u8], heading: &[u8], numbers: &[u64]) -> usize
    requires { length heading.now + 21 * length numbers.now ≤ length out.old }
    ensures upper_bound { result ≤ length heading.now + 21 * length numbers.now }
    ensures out_after { take result out.new ≡ heading.now ++ line numbers.now }
{
    let next = put(out, 0, heading);
    put_line(out, next, numbers)
}

#[tactic(auto, unfolding(crate::specs::Text::report_text))]
fn put_report(out: &mut [u8], r: VbvStreamReport) -> usize
    requires { 200 ≤ length out.old }
    ensures upper_bound { result ≤ 200 }
    ensures out_after { take result out.new ≡ report_text r }
{
    let numbers = [
        r.bit_rate,
        r.buffer_size_bits,
        r.pictures,
        r.min_occupancy_after_bits,
        r.max_occupancy_before_bits,
    ];
    put_headed(
        out,
        b"bit_rate buffer_bits pictures min_after max_before\n",
        &numbers,
    )
}

#[tactic(auto, unfolding(crate::specs::Text::refusal_text))]
fn put_refusal(out: &mut [u8], r: VbvRefusal) -> usize
    requires { 200 ≤ length out.old }
    ensures upper_bound { result ≤ 200 }
    ensures out_after { take result out.new ≡ refusal_text r }
{
    let numbers = [
        u64::from(r.number),
        r.picture,
        u64::from(r.coded),
        u64::from(r.expected),
    ];
    put_headed(out, b"refused picture coded expected\n", &numbers)
}

// A report and the lines of its records: 200 bytes, a heading of 50, and 105 a record.
fn put_accepted(out: &mut [u8], r: VbvStreamReport, records: &[u8]) -> usize
    requires in_bounds { 110000 ≤ length out.old }
    requires pictures_in_bounds { record_size * r.pictures ≤ length records.now }
    requires pictures_bound { r.pictures ≤ 1024 }
    ensures upper_bound { result ≤ length out.new }
    ensures out_after { take result out.new ≡ report_text r ++ (ascii "delay expected data_bits occupancy_before periods\n" ++ lines_of r.pictures records.now) }
{
    let head = put_report(out, r);
    let next = put(
        out,
        head,
        b"delay expected data_bits occupancy_before periods\n",
    );
    put_records(out, next, records, r.pictures as usize)
}

// What is printed of a stream, from byte 0 on; `records` is where its records go meanwhile.
pub(crate) fn put_printed(stream: &[u8], records: &mut [u8; 40960], out: &mut [u8; 131072]) -> usize
    ensures prefix_len { IsPrefixLen result out.new }
    ensures out_after { take result out.new ≡ printed stream.now }
{
    if LONGEST < stream.len() {
        return put(out, 0, b"too long\n");
    }
    match verify_cbr_stream(stream, VbvStandard::Mpeg2, records) {
        Ok(r) => put_accepted(out, r, records),
        Err(error) => put_refusal(out, error.refusal()),
    }
}
