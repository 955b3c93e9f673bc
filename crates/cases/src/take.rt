// Numbers of an input, the lowest byte first; bytes past its end count for nothing.
ghost use Rattle.std.specs.Prelude.{◌≡◌, not, ◌==◌, slice_index};
ghost use Rattle.cases.specs.Bytes.{number_at};

pub fn byte(s: &[u8], at: usize) -> u8
    ensures { result ≡ slice_index s.now at }
{
    s.get(at).copied().unwrap_or(0)
}

pub fn is_set(s: &[u8], at: usize) -> bool
    ensures { result ≡ not (slice_index s.now at == 0) }
{
    byte(s, at) != 0
}

pub fn number16(s: &[u8], at: usize) -> u16
    ensures { result ≡ number_at 2 s.now at }
{
    if s.len() <= at {
        return 0;
    }
    let low = byte(s, at);
    let high = byte(s, at + 1);
    u16::from(low) + 256 * u16::from(high)
}

pub fn number32(s: &[u8], at: usize) -> u32
    ensures { result ≡ number_at 4 s.now at }
{
    if s.len() <= at {
        return 0;
    }
    let low = number16(s, at);
    let high = number16(s, at + 2);
    u32::from(low) + 65536 * u32::from(high)
}

pub fn number64(s: &[u8], at: usize) -> u64
    ensures { result ≡ number_at 8 s.now at }
{
    if s.len() <= at {
        return 0;
    }
    let low = number32(s, at);
    let high = number32(s, at + 4);
    u64::from(low) + 0x1_0000_0000 * u64::from(high)
}
