// The writers of sequence_header(), sequence_extension() and group_of_pictures_header() (ISO/IEC 13818-2 6.2.2).
#![tactic(auto)]

pub mod gop_header; // group_of_pictures_header()
pub mod stream_writer; // both sequence headers
