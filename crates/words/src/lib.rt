// Numbers as bytes (docs/LAYOUT.md): words of 64 bits, low byte first.
#![tactic(auto)]

ghost use Rattle.std.specs.Prelude.{◌≡◌, ◌+◌, ◌*◌, ◌/◌, ◌≤◌, ◌<◌, length, take, drop};
ghost use Rattle.std.proofs.lemmas.List.Edits.{sets};
ghost use Rattle.bits.specs.Answers.{over};
ghost use Rattle.words.specs.Words.{low_first, words_bytes, laid, from_low, word_at};

// Words, one after another; the bytes after them stay.
fn put_all(out: &mut [u8], words: &[u64])
    requires { 8 * length words.now ≤ length out.old }
    ensures { out.new ≡ over (words_bytes words.now) out.old }
{
    let mut at: usize = 0;
    for word in words {
        out[at..at + 8].copy_from_slice(&word.to_le_bytes());
        at += 8;
    }
}

// Words over the first bytes of a place; a place that is too short is left alone.
pub fn put_words(place: &mut [u8], words: &[u64])
    ensures { place.new ≡ laid (words_bytes words.now) place.old }
{
    if words.len() <= place.len() / 8 {
        put_all(place, words);
    }
}

// Word k of a place, from 0; bytes past the end count for nothing.
pub fn word_at(place: &[u8], k: usize) -> u64
    ensures { result ≡ word_at place.now k }
{
    let (words, rest) = place.as_chunks::<8>();
    if k < words.len() {
        return u64::from_le_bytes(words[k]);
    }
    if words.len() < k {
        return 0;
    }
    let mut word = [0; 8];
    word[..rest.len()].copy_from_slice(rest);
    u64::from_le_bytes(word)
}
