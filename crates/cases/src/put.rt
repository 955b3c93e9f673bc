// Bytes of an answer. Each function puts its bytes at `at`, as far as there is room, and answers the place after them.
ghost use Rattle.std.specs.Prelude.{◌≡◌, ◌+◌, min, max, length, slice_set};
ghost use Rattle.std.proofs.lemmas.List.Edits.{sets};

pub fn put(out: &mut [u8], at: usize, x: u8) -> usize
    ensures out_after { out.new ≡ slice_set out.old at x }
    ensures value { result ≡ max at (min (at + 1) (length out.old)) }
{
    if at < out.len() {
        out[at] = x;
        return at + 1;
    }
    at
}

pub fn put32(out: &mut [u8], at: usize, x: u32) -> usize {
    put_bytes(out, at, &x.to_le_bytes())
}

pub fn put64(out: &mut [u8], at: usize, x: u64) -> usize {
    put_bytes(out, at, &x.to_le_bytes())
}

pub fn put_numbers(out: &mut [u8], at: usize, numbers: &[u32]) -> usize {
    let mut next = at;
    for x in numbers {
        next = put32(out, next, *x);
    }
    next
}

pub fn put_words(out: &mut [u8], at: usize, words: &[u64]) -> usize {
    let mut next = at;
    for x in words {
        next = put64(out, next, *x);
    }
    next
}

pub fn put_bytes(out: &mut [u8], at: usize, bytes: &[u8]) -> usize
    ensures { out.new ≡ sets out.old at bytes.now }
{
    let mut next = at;
    for b in bytes {
        next = put(out, next, *b);
    }
    next
}

// What a part that is lent holds before the call.
pub fn put_pattern(out: &mut [u8], at: usize, count: u16) -> usize {
    let mut next = at;
    for i in 0..count {
        next = put(out, next, (i % 251) as u8);
    }
    next
}
