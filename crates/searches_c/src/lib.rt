// The searches of `searches` as C calls them, for the benchmark and for the comparison with the original: each calls the
// library's function of its name and promises the same. (A crate is a library or a static library.)
#![tactic(auto)]

ghost use Rattle.std.specs.Prelude.{◌≡◌, length};
ghost use Rattle.scan.specs.Codes.{next_code, codes};
ghost use Rattle.scan.specs.Scanned.{scanned, looked_all};
ghost use Rattle.words.specs.Words.{words_bytes, laid};
ghost use Rattle.searches.specs.FoundWords.{found_words, scanned_words};

// What `scan_code` answers, as four words: 1 or 0 (found or not), offset, fourth byte, places looked at. A place that is too
// short is left alone.
#[unsafe(no_mangle)]
pub extern "C" fn scan_code_words(s: &[u8], from: usize, place: &mut [u8])
    ensures { place.new ≡ laid (words_bytes (scanned_words (scanned s.now from))) place.old }
{
    searches::scan_code_words(s, from, place);
}

// What `next_code` answers, as three words: 1 or 0, offset, fourth byte. A place that is too short is left alone.
#[unsafe(no_mangle)]
pub extern "C" fn next_code_words(s: &[u8], from: usize, place: &mut [u8])
    ensures { place.new ≡ laid (words_bytes (found_words (next_code s.now from))) place.old }
{
    searches::next_code_words(s, from, place);
}

// How many codes a stream has: a walk from code to code by blocks.
#[unsafe(no_mangle)]
pub extern "C" fn codes_by_blocks(s: &[u8]) -> u64
    ensures { result ≡ length (codes s.now) }
{
    searches::codes_by_blocks(s)
}

// How many places a scan of the whole stream looks at: a walk from code to code by places.
#[unsafe(no_mangle)]
pub extern "C" fn looked_by_places(s: &[u8]) -> u64
    ensures { result ≡ looked_all s.now }
{
    searches::looked_by_places(s)
}
