// The 64-byte quantiser matrix of a sequence header, with its load flag (6.2.2.1, 6.3.11): in zigzag order, None where the
// flag loads none.
ghost use Rattle.std.specs.Prelude.{◌≡◌, ◌*◌, ◌≤◌};
ghost use Rattle.headers.specs.Answers.{header_answer};
ghost use Rattle.bits.specs.Fields.{read_fields};
ghost use Rattle.headers.specs.QuantMatrix.{matrix_bytes as byte_fields, read_matrix, load_flag};

use crate::Error;

// The bytes of a matrix in a header.
pub fn matrix_bytes(matrix: Option<[u8; 64]>) -> usize
    ensures { (result ≡ 64 * load_flag matrix) × (result ≤ 64) }
{
    match matrix {
        Some(_) => 64,
        None => 0,
    }
}

// The 64 bytes from bit `at` on.
fn read_bytes(buf: &[u8], at: usize) -> Result<[u8; 64], Error>
    requires { at ≤ 4294967296 }
    ensures { header_answer result ≡ read_fields byte_fields buf.now at }
{
    let mut bytes = [0u8; 64];
    for (k, byte) in bytes.iter_mut().enumerate() {
        let Some(v) = bits::read_bits(buf, at + 8 * k, 8) else {
            return Err(Error::ShortHeader);
        };
        *byte = v as u8;
    }
    Ok(bytes)
}

// The load flag at bit `at` and, where it is 1, the 64 bytes after it.
pub(crate) fn read_matrix(buf: &[u8], at: u32) -> Result<Option<[u8; 64]>, Error>
    ensures { header_answer result ≡ read_matrix buf.now at }
{
    let first = at as usize;
    let Some(load) = bits::read_bits(buf, first, 1) else {
        return Err(Error::ShortHeader);
    };
    if load == 0 {
        return Ok(None);
    }
    let bytes = read_bytes(buf, first + 1)?;
    Ok(Some(bytes))
}
