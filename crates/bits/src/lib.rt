// Bit fields in byte slices, high bit first.
#![tactic(auto)]

ghost use Rattle.std.specs.Prelude.{◌≡◌, true, ◌+◌, ◌<◌, ◌≤◌, ◌*◌, ◌/◌, ◌%◌, ◌^◌, length, take, drop};
ghost use Rattle.bits.specs.Bits.{bits_at, there, append_bits};
ghost use Rattle.bits.specs.Fields.{field, obeys, read_fields, same_bytes, read_header, fits_field, fits_all, field_bits, total};
ghost use Rattle.bits.specs.Refusals.{plain as plain_of};
ghost use Rattle.bits.specs.Answers.{over, read_bits, bits_answer, wrote_bits, greatest, table_of, in_places, fields_answer, check_fields, checked_answer, write_answer, wrote_answer, write_result};

pub mod start_codes; // Table 6-1

// A refusal by its number (docs/REFUSALS.md), as C is given it.
#[derive(Clone, Copy, PartialEq, Eq)]
pub struct VbvRefusal {
    pub number: u8,
    pub picture: u64,
    pub coded: u16,
    pub expected: u16,
}

// Why a table is not read.
#[derive(Clone, Copy, PartialEq, Eq)]
pub enum FieldsError {
    // The bits end in it.
    Short,
    // A value breaks its field's rule.
    Bad,
}

// Why a header is not written.
#[derive(Clone, Copy, PartialEq, Eq)]
pub enum WriteError {
    // A value does not fit its field.
    Unfit,
    // The bytes lent are too few.
    Full,
}

// A refusal that carries its number alone.
pub fn plain(number: u8) -> VbvRefusal
    ensures { result ≡ plain_of number }
{
    VbvRefusal {
        number,
        picture: 0,
        coded: 0,
        expected: 0,
    }
}

fn pow2(k: usize) -> u64
    requires { k ≤ 40 }
    ensures { result ≡ 2 ^ k }
{
    1 << k
}

// The number in the n bits from bit i; None where n is above 32 or fewer remain.
pub fn read_bits(s: &[u8], i: usize, n: usize) -> Option<u32>
    ensures { bits_answer result ≡ read_bits s.now i n }
{
    if 32 < n {
        return None;
    }
    let first = i / 8;
    let offset = i % 8;
    let count = (offset + n + 7) / 8;
    if s.len() < first + count {
        return None;
    }
    let mut acc: u64 = 0;
    for &byte in &s[first..first + count] {
        acc = acc * 256 + u64::from(byte);
    }
    let tail = 8 * count - offset - n;
    Some(((acc >> tail) % pow2(n)) as u32)
}

// The greatest value of a field of w bits (0: what the width allows), as a table has it.
fn top(w: usize, most: u8) -> u64
    requires { w ≤ 32 }
    ensures { result ≡ greatest w most }
{
    if most == 0 {
        return pow2(w) - 1;
    }
    u64::from(most)
}

// Whether a value keeps its field's rule, as a table has it.
fn obeys(w: usize, least: u8, most: u8, v: u32) -> bool
    requires { w ≤ 32 }
    ensures { result ≡ obeys (field w least (greatest w most)) v }
{
    let v = u64::from(v);
    (u64::from(least) <= v) & (v <= top(w, most))
}

// How many fields of a table are read: three bytes have one.
fn field_count(table: &[u8]) -> usize
    ensures { result ≡ length (table_of 24 table.now) }
{
    (table.len() / 3).min(24)
}

// Reads a table from bit start on. A field has three bytes in the table: width, least value, greatest value (0: what the
// width allows). 24 fields at most are read.
pub fn read_fields(s: &[u8], start: u32, table: &[u8]) -> Result<[u32; 24], FieldsError>
    ensures { fields_answer result ≡ in_places (read_fields (table_of 24 table.now) s.now start) }
{
    let mut values = [0u32; 24];
    let mut at = start as usize;
    for k in 0..field_count(table) {
        let w = usize::from(table[3 * k]);
        let Some(v) = read_bits(s, at, w) else {
            return Err(FieldsError::Short);
        };
        if !obeys(w, table[3 * k + 1], table[3 * k + 2], v) {
            return Err(FieldsError::Bad);
        }
        values[k] = v;
        at += w;
    }
    Ok(values)
}

// Whether s begins with these bytes.
pub fn starts_with(s: &[u8], bytes: &[u8]) -> bool
    ensures { result ≡ same_bytes (take (length bytes.now) s.now) bytes.now }
{
    s.starts_with(bytes)
}

// Whether these bytes stand in s from byte `at` on.
pub fn bytes_at(s: &[u8], at: usize, bytes: &[u8]) -> bool
    ensures { result ≡ same_bytes (take (length bytes.now) (drop at s.now)) bytes.now }
{
    s[at.min(s.len())..].starts_with(bytes)
}

// Reads a header: its start code, then its table.
pub fn read_header(s: &[u8], code: [u8; 4], table: &[u8]) -> Result<[u32; 24], FieldsError>
    ensures { fields_answer result ≡ in_places (read_header code (table_of 24 table.now) s.now) }
{
    if s.len() < 4 {
        Err(FieldsError::Short)
    } else if starts_with(s, &code) {
        read_fields(s, 32, table)
    } else {
        Err(FieldsError::Bad)
    }
}

// The bits before bit i in its byte.
fn kept(s: &[u8], i: usize) -> u64
    requires { i ≤ 8 * length s.now }
    ensures { result ≡ bits_at s.now (8 * (i / 8)) (i % 8) }
{
    let offset = i % 8;
    if offset == 0 {
        return 0;
    }
    u64::from(s[i / 8]) / pow2(8 - offset)
}

// Puts the n low bits of v at bit i of out, and zeros after them to a whole byte; false where n is above 32 or they do
// not fit.
pub fn append_bits(out: &mut [u8], i: usize, n: usize, v: u32) -> bool
    ensures value { result ≡ there out.old i n }
    ensures out_after { out.new ≡ wrote_bits out.old i n v }
{
    if 32 < n {
        return false;
    }
    let first = i / 8;
    let offset = i % 8;
    let count = (offset + n + 7) / 8;
    if out.len() < first + count {
        return false;
    }
    let acc = (kept(out, i) * pow2(n) + u64::from(v) % pow2(n)) * pow2(8 * count - offset - n);
    out[first..first + count].copy_from_slice(&acc.to_be_bytes()[8 - count..]);
    true
}

// Whether a value can be written in a field: its width, and its rule as a table has it.
#[tactic(auto, unfolding(crate::specs::Fields::fits_field))]
fn fits(w: usize, least: u8, most: u8, v: u32) -> bool
    ensures { result ≡ fits_field (field w least (greatest w most)) v }
{
    w <= 32 && u64::from(v) < pow2(w) && obeys(w, least, most, v)
}

// Whether the values are as many as the table's fields and each fits its own.
pub fn check_fields(table: &[u8], values: &[u32]) -> Option<usize>
    ensures { checked_answer result ≡ check_fields (table_of 24 table.now) values.now }
{
    let n = field_count(table);
    if values.len() != n {
        return None;
    }
    let mut bits: usize = 0;
    for k in 0..n {
        let w = usize::from(table[3 * k]);
        if !fits(w, table[3 * k + 1], table[3 * k + 2], values[k]) {
            return None;
        }
        bits += w;
    }
    Some(bits)
}

// Writes the fields from bit 32 on.
fn put_fields(out: &mut [u8], table: &[u8], values: &[u32])
    requires values_value { fits_all (table_of 24 table.now) values.now ≡ true }
    requires table_bound { 32 + total (table_of 24 table.now) ≤ 8 * length out.old }
    ensures { out.new ≡ append_bits out.old 32 (field_bits (table_of 24 table.now) values.now) }
{
    let mut at: usize = 32;
    for k in 0..values.len() {
        let w = usize::from(table[3 * k]);
        append_bits(out, at, w, values[k]);
        at += w;
    }
}

// Writes a header: its start code, then its fields, and zeros to a whole byte. The bytes after it keep what they hold.
pub fn write_header(
    out: &mut [u8],
    code: [u8; 4],
    table: &[u8],
    values: &[u32],
) -> Result<usize, WriteError>
    ensures result_value { wrote_answer result ≡ write_answer code (table_of 24 table.now) values.now out.old }
    ensures out_after { out.new ≡ write_result code (table_of 24 table.now) values.now out.old }
{
    let Some(bits) = check_fields(table, values) else {
        return Err(WriteError::Unfit);
    };
    let bytes = 4 + (bits + 7) / 8;
    if out.len() < bytes {
        return Err(WriteError::Full);
    }
    out[..4].copy_from_slice(&code);
    put_fields(out, table, values);
    Ok(bytes)
}
