// The two searches for a start code as C calls them, for the benchmark and for the comparison with the original.
#![tactic(auto)]

ghost use Rattle.std.specs.Prelude.{◌≡◌, length};
ghost use Rattle.scan.specs.Codes.{next_code, codes};
ghost use Rattle.scan.specs.Scanned.{scanned, looked_all};
ghost use Rattle.words.specs.Words.{words_bytes, laid};
ghost use Rattle.searches.specs.FoundWords.{found_words, scanned_words};

use scan::{StartCode, next_code, scan_code};
use words::put_words;

// What a search found, as three words: 1, offset, fourth byte; or three times 0.
#[tactic(auto, unfolding(crate::specs::FoundWords::found_words))]
fn words_of(found: Option<StartCode>) -> [u64; 3]
    ensures { result ≡ found_words found }
{
    match found {
        Some(StartCode { offset, code }) => [1, offset as u64, u64::from(code)],
        None => [0, 0, 0],
    }
}

// What `scan_code` answers, as four words: 1 or 0 (found or not), offset, fourth byte, places looked at. A place that is too
// short is left alone.
#[unsafe(no_mangle)]
pub extern "C" fn scan_code_words(s: &[u8], from: usize, place: &mut [u8])
    ensures { place.new ≡ laid (words_bytes (scanned_words (scanned s.now from))) place.old }
{
    let scanned = scan_code(s, from);
    let [found, at, fourth] = words_of(scanned.found);
    put_words(place, &[found, at, fourth, scanned.looked as u64]);
}

// What `next_code` answers, as three words: 1 or 0, offset, fourth byte. A place that is too short is left alone.
#[unsafe(no_mangle)]
pub extern "C" fn next_code_words(s: &[u8], from: usize, place: &mut [u8])
    ensures { place.new ≡ laid (words_bytes (found_words (next_code s.now from))) place.old }
{
    put_words(place, &words_of(next_code(s, from)));
}

// How many codes a stream has: a walk from code to code by blocks.
#[unsafe(no_mangle)]
pub extern "C" fn codes_by_blocks(s: &[u8]) -> u64
    ensures { result ≡ length (codes s.now) }
{
    let mut from: usize = 0;
    let mut count: u64 = 0;
    while let Some(code) = next_code(s, from) {
        count += 1;
        from = code.offset + 4;
    }
    count
}

// How many places a scan of the whole stream looks at: a walk from code to code by places. The last scan finds no code and is
// counted too, so that no `while let` goes over them.
#[unsafe(no_mangle)]
pub extern "C" fn looked_by_places(s: &[u8]) -> u64
    ensures { result ≡ looked_all s.now }
{
    let mut from: usize = 0;
    let mut looked: u64 = 0;
    loop {
        let scanned = scan_code(s, from);
        looked += scanned.looked as u64;
        match scanned.found {
            Some(code) => from = code.offset + 4,
            None => return looked,
        }
    }
}
