// The start codes of Table 6-1 by the standard's names: the fourth byte.
pub const PICTURE_START_CODE: u8 = 0x00;

pub const FIRST_SLICE_CODE: u8 = 0x01;

pub const LAST_SLICE_CODE: u8 = 0xAF;

pub const USER_DATA_START_CODE: u8 = 0xB2;

pub const SEQUENCE_HEADER_CODE: u8 = 0xB3;

pub const EXTENSION_START_CODE: u8 = 0xB5;

pub const SEQUENCE_END_CODE: u8 = 0xB7;

pub const GROUP_START_CODE: u8 = 0xB8;

// start_code_prefix (6.2.1), and the four bytes of those that are read or written whole.
pub const START_CODE_PREFIX: [u8; 3] = *b"\x00\x00\x01";

pub const PICTURE_START: [u8; 4] = *b"\x00\x00\x01\x00";

pub const SEQUENCE_HEADER: [u8; 4] = *b"\x00\x00\x01\xB3";

pub const EXTENSION_START: [u8; 4] = *b"\x00\x00\x01\xB5";

pub const SEQUENCE_END: [u8; 4] = *b"\x00\x00\x01\xB7";

pub const GROUP_START: [u8; 4] = *b"\x00\x00\x01\xB8";
