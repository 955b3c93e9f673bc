// Start codes of a stream, and the walk from picture to picture.
#![tactic(auto)]

ghost use Rattle.std.specs.Prelude.{◌≡◌, ℕ, Bool, Some, eqb, length, ◌+◌, ◌-◌, ◌≤◌};
ghost use Rattle.bits.specs.Bits.{pick};
ghost use Rattle.bits.specs.StartCodes.{sequence_end_code};
ghost use Rattle.scan.specs.Codes.{found, next_code, codes, codes_at};
ghost use Rattle.scan.specs.Pictures.{is_slice, skip, Decides, not_sequence, not_picture, after_slices, next_picture};
ghost use Rattle.scan.specs.Scanned.{scanned};
ghost use Rattle.scan.specs.Steps.{zero_one};

use bits::start_codes::{
    FIRST_SLICE_CODE, LAST_SLICE_CODE, PICTURE_START, PICTURE_START_CODE, SEQUENCE_END,
    SEQUENCE_HEADER_CODE, START_CODE_PREFIX,
};

// The quiet bytes after which a search goes by larger blocks.
const NEAR: usize = 1024;

// Where a start code is, and its fourth byte.
#[derive(Clone, Copy)]
pub struct StartCode {
    pub offset: usize,
    pub code: u8,
}

// A start code, or none, and how many places a scan looked at.
#[derive(Clone, Copy)]
pub struct Scanned {
    pub found: Option<StartCode>,
    pub looked: usize,
}

// A picture: its start code, the end of its data, and where the walk goes on.
#[derive(Clone, Copy)]
pub struct PictureSpan {
    pub at: usize,
    pub end: usize,
    pub next: usize,
}

// Whether 00 01 stands where the second and third byte of a start code would be that begins in the `n` bytes from `at`.
// The loop has no branch: where the compiler knows `n`, it looks at 16 places at once.
#[tactic(auto, using(crate::proofs::Blocks::no_place, crate::proofs::Blocks::one_more_lem))]
fn has_zero_one(s: &[u8], at: usize, n: usize) -> bool
    requires { at + n + 2 ≤ length s.now }
    ensures { result ≡ zero_one s.now at n }
{
    let mut some = false;
    for k in 0..n {
        let i = at + k;
        some |= (s[i + 1] == 0) & (s[i + 2] == 1);
    }
    some
}

// How many places have `n` bytes before `end`: those below the answer.
fn places(end: usize, n: usize) -> usize
    requires { 1 ≤ n }
    ensures { result ≡ end + 1 - n }
{
    end.saturating_sub(n - 1)
}

// The scan of a part whose places with four bytes are those before `end`, which a caller often knows. The length is tested
// once a place; without a code there the next is one on if the third byte is 00, otherwise three, so that no range counts the
// places. Only where the third byte is 01 are the three compared with the prefix.
#[tactic(auto, using(crate::proofs::Scans::above_code, crate::proofs::Scans::above_count))]
fn scan_places(s: &[u8], from: usize, end: usize) -> Scanned
    requires { end ≡ length s.now - 3 }
    ensures { result ≡ scanned s.now from }
{
    let mut i = from;
    let mut looked: usize = 0;
    while i < end {
        looked += 1;
        let third = s[i + 2];
        if 1 < third {
            i += 3;
            continue;
        }
        if third == 0 {
            i += 1;
            continue;
        }
        if bits::starts_with(&[s[i], s[i + 1], third], &START_CODE_PREFIX) {
            let found = Some(StartCode {
                offset: i,
                code: s[i + 3],
            });
            return Scanned { found, looked };
        }
        i += 3;
    }
    Scanned {
        found: None,
        looked,
    }
}

// The first start code at or after `from`, and how many places were looked at for it, its own among them (paper 02, request
// 03).
pub fn scan_code(s: &[u8], from: usize) -> Scanned
    ensures { result ≡ scanned s.now from }
{
    scan_places(s, from, places(s.len(), 4))
}

// Passes over the blocks of `n` bytes from `from` on that have no 00 01, up to one that has, or to where fewer than `n` bytes
// are left before `end`. In what it passes over no start code begins, and that alone is promised. The place after the last block
// is an answer too, which a range of blocks would not tell.
#[tactic(auto, using(crate::proofs::Blocks::quiet))]
fn past_quiet(s: &[u8], from: usize, end: usize, n: usize) -> usize
    requires end_in_bounds { end + 3 ≤ length s.now }
    requires le_n { 1 ≤ n }
    ensures { (next_code s.now result ≡ next_code s.now from) × (from ≤ result) }
{
    let whole = places(end, n);
    let mut block = from;
    while block < whole {
        if has_zero_one(s, block, n) {
            return block;
        }
        block += n;
    }
    block
}

// NEAR bytes on from `from`, or `end` where there are fewer. Asked of what is left, so that only a search that comes here works
// it out: most end in their first 16 bytes.
fn near_end(from: usize, end: usize) -> usize
    requires { from ≤ end }
    ensures { result ≤ end }
{
    from + NEAR.min(end - from)
}

// Passes over quiet blocks up to one of 16 bytes that has 00 01, or to the last bytes. The next code is mostly near, and a
// search by one width is foreseen best: only past NEAR quiet bytes are blocks of 64 passed over.
#[inline(always)]
#[tactic(auto, using(crate::proofs::Blocks::quiet))]
fn next_block(s: &[u8], from: usize, end: usize) -> usize
    requires { end + 3 ≤ length s.now }
    ensures { (next_code s.now result ≡ next_code s.now from) × (from ≤ result) }
{
    if places(end, 16) <= from {
        return from;
    }
    if has_zero_one(s, from, 16) {
        return from;
    }
    let limit = near_end(from, end);
    let near = past_quiet(s, from + 16, limit, 16);
    if near < places(limit, 16) {
        return near;
    }
    let far = past_quiet(s, near, end, 64);
    past_quiet(s, far, end, 16)
}

// The first start code at or after `from`: blocks without 00 01 are passed over; a block with it is scanned, with the three
// bytes after it, and so are the last bytes. Where a round goes on is found by the one before: no range counts the rounds.
// Joined to its callers, for a call at each code costs a third more where codes are dense.
#[inline(always)]
pub fn next_code(s: &[u8], from: usize) -> Option<StartCode>
    ensures { result ≡ next_code s.now from }
{
    let n = s.len();
    if n < 4 {
        return None;
    }
    let end = n - 3;
    let whole = places(end, 16);
    let mut at = from;
    loop {
        at = next_block(s, at, end);
        if whole <= at {
            return scan_places(s, at, end).found;
        }
        let inside = scan_places(&s[..at + 19], at, at + 16).found;
        if let Some(found) = inside {
            return Some(found);
        }
        at += 16;
    }
}

// Whether a code is a slice's.
#[tactic(auto, unfolding(crate::specs::Pictures::is_slice))]
pub fn is_slice(code: u8) -> bool
    ensures { result ≡ is_slice code }
{
    (FIRST_SLICE_CODE <= code) & (code <= LAST_SLICE_CODE)
}

// The first code that does not pass, of those that a scan from `from` finds. Each code says where the next search begins.
pub fn first_code_not<F: Fn(u8) -> bool>(s: &[u8], from: usize, passes: F) -> Option<StartCode>
    requires { F.IsAlwaysCallable passes }
    ensures { (p : ℕ → Bool) → Decides (F.post passes) p → result ≡ found (skip p (codes_at s.now from)) }
{
    let mut i = from;
    loop {
        let next = next_code(s, i)?;
        if !passes(next.code) {
            return Some(next);
        }
        i = next.offset + 4;
    }
}

// The first sequence header code.
pub fn first_sequence(s: &[u8]) -> Option<StartCode>
    ensures { result ≡ found (skip not_sequence (codes s.now)) }
{
    first_code_not(s, 0, |code| code != SEQUENCE_HEADER_CODE)
}

// The first code after the slices that come next.
fn after_slices(s: &[u8], from: usize) -> Option<StartCode>
    ensures { result ≡ found (after_slices (codes_at s.now from)) }
{
    let slice = first_code_not(s, from, |code| !is_slice(code))?;
    first_code_not(s, slice.offset + 4, is_slice)
}

// The first picture's start code of those that a scan from `from` finds. A walk goes on where a picture ended, which is mostly
// where the next one begins: that is tried before a search.
fn first_picture(s: &[u8], from: usize) -> Option<StartCode>
    ensures { result ≡ found (skip not_picture (codes_at s.now from)) }
{
    if bits::bytes_at(s, from, &PICTURE_START) {
        return Some(StartCode {
            offset: from,
            code: PICTURE_START_CODE,
        });
    }
    first_code_not(s, from, |code| code != PICTURE_START_CODE)
}

// Where a picture ends that the code `after` follows: after it, if it is a sequence end code, and else before it.
fn picture_end(s: &[u8], after: StartCode) -> usize
    requires { next_code s.now after.offset ≡ Some after }
    ensures { result ≡ pick (eqb after.code sequence_end_code) (after.offset + 4) after.offset }
{
    if bits::bytes_at(s, after.offset, &SEQUENCE_END) {
        return after.offset + 4;
    }
    after.offset
}

// The first picture that begins at a code which a scan from `from` finds.
pub fn next_picture(s: &[u8], from: usize) -> Option<PictureSpan>
    ensures { result ≡ next_picture s.now from }
{
    let n = s.len();
    let picture = first_picture(s, from)?;
    let at = picture.offset;
    let Some(after) = after_slices(s, at + 4) else {
        return Some(PictureSpan {
            at,
            end: n,
            next: n,
        });
    };
    Some(PictureSpan {
        at,
        end: picture_end(s, after),
        next: after.offset,
    })
}
