// Prints the buffer report of an MPEG-2 stream that it reads on standard input, or why the stream is refused (paper 01).
// What is printed is worked out in `text`; here it is read and written.
#![tactic(auto)]

mod text; // what is printed

ghost use Rattle.std.specs.Prelude.{◌≤◌, IfOk, length};

use std::io;
use std::io::Read;

// Reads until buf is full or the input ends, and answers how many bytes that put at the start of buf: `read_exact` does not say
// how many came. (`cases` has one too: it serves the programs that compare, and is not below this one.)
fn read_full(from: &mut impl Read, buf: &mut [u8]) -> io::Result<usize>
    ensures { IfOk result (λ n. n ≤ length buf.new) }
{
    let mut done: usize = 0;
    while done < buf.len() {
        let n = from.read(&mut buf[done..])?;
        if n == 0 {
            break;
        }
        done += n;
    }
    Ok(done)
}

// A stream has 65,536 bytes at most: one more is read to tell a longer one.
fn main(rt: HostRuntime) -> io::Result<()> {
    let mut stream = [0u8; 65537];
    let mut records = [0u8; 40960];
    let mut out = [0u8; 131072];
    let n = read_full(&mut rt.stdin(), &mut stream)?;
    let m = text::put_printed(&stream[..n], &mut records, &mut out);
    rt.write_all(&out[..m])
}
