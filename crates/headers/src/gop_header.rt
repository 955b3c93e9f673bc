// group_of_pictures_header() (ISO/IEC 13818-2 6.2.2.6, 11172-2 2.4.2.4): what it holds, and the time code; the crate `writers` writes it.
ghost use Rattle.std.specs.Prelude.{◌≡◌};
ghost use Rattle.headers.specs.GroupHeader.{nominal_rate, time_code_at, rate_code_answer};

// drop_frame_flag, time_code_hours, time_code_minutes, marker_bit, time_code_seconds, time_code_pictures, closed_gop,
// broken_link
pub const GROUP_TABLE: [u8; 24] =
    *b"\x01\x00\x00\x05\x00\x00\x06\x00\x00\x01\x01\x01\x06\x00\x00\x06\x00\x00\x01\x00\x00\x01\x00\x00";

// time_code (Table 6-11).
#[derive(Drop)]
pub struct TimeCode {
    pub drop_frame: bool,
    pub hours: u8,
    pub minutes: u8,
    pub seconds: u8,
    pub pictures: u8,
}

#[derive(Drop)]
pub struct Mpeg2Gop {
    pub time_code: TimeCode,
    pub closed_gop: bool,
    pub broken_link: bool,
}

// Table 6-4, rounded to whole pictures a second.
const NOMINAL_RATES: [u8; 9] = [0, 24, 24, 25, 30, 30, 50, 60, 60];

// The pictures that a second counts without dropped numbers (6.3.8); None at a frame rate code other than 1 to 8 (6).
#[tactic(auto, unfolding(crate::specs::GroupHeader::nominal_rate, bits::specs::Bits::pick))]
pub fn nominal_pictures_per_second(picture_rate_code: u8) -> Option<u8>
    ensures { rate_code_answer result ≡ nominal_rate picture_rate_code }
{
    match picture_rate_code {
        1..=8 => Some(NOMINAL_RATES[picture_rate_code as usize]),
        _ => None,
    }
}

impl TimeCode {
    // The time code of a picture by its index in display order; None at a frame rate code other than 1 to 8 (6).
    pub fn from_display_index(display_index: u64, picture_rate_code: u8) -> Option<TimeCode>
        ensures { rate_code_answer result ≡ time_code_at display_index picture_rate_code }
    {
        let fps = nominal_pictures_per_second(picture_rate_code)? as u64;
        let total_seconds = display_index / fps;
        let total_minutes = total_seconds / 60;
        Some(TimeCode {
            drop_frame: false,
            hours: (total_minutes / 60 % 24) as u8,
            minutes: (total_minutes % 60) as u8,
            seconds: (total_seconds % 60) as u8,
            pictures: (display_index % fps) as u8,
        })
    }
}
