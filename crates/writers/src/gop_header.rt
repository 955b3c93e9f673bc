// The writer of group_of_pictures_header() (ISO/IEC 13818-2 6.2.2.6, 11172-2 2.4.2.4).
ghost use Rattle.std.specs.Prelude.{◌≡◌};
ghost use Rattle.bits.specs.Answers.{write_answer, write_result};
ghost use Rattle.bits.specs.StartCodes.{start_code, group_start_code};
ghost use Rattle.headers.specs.Answers.{header_answer};
ghost use Rattle.headers.specs.GroupHeader.{group_fields, group_values};

use bits::start_codes::GROUP_START;
use headers::Error;
use headers::gop_header::{GROUP_TABLE, Mpeg2Gop};

// The values of the fields.
fn group_values(gop: Mpeg2Gop) -> [u32; 8]
    ensures { result ≡ group_values gop }
{
    let time_code = gop.time_code;
    [
        u32::from(time_code.drop_frame),
        u32::from(time_code.hours),
        u32::from(time_code.minutes),
        1,
        u32::from(time_code.seconds),
        u32::from(time_code.pictures),
        u32::from(gop.closed_gop),
        u32::from(gop.broken_link),
    ]
}

// Writes the header into the first bytes of out.
pub fn write_gop_header(out: &mut [u8], gop: Mpeg2Gop) -> Result<usize, Error>
    ensures result_value { header_answer result ≡ write_answer (start_code group_start_code) group_fields (group_values gop) out.old }
    ensures out_after { out.new ≡ write_result (start_code group_start_code) group_fields (group_values gop) out.old }
{
    let values = group_values(gop);
    Ok(bits::write_header(out, GROUP_START, &GROUP_TABLE, &values)?)
}
