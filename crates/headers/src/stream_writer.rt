// What the writer of sequence_header() (6.2.2.1) is given.

#[derive(Clone, Copy)]
pub struct SequenceHeaderParams {
    pub horizontal_size: u16,
    pub vertical_size: u16,
    pub aspect_ratio_code: u8,
    pub frame_rate_code: u8,
    pub bit_rate_value: u32,
    pub vbv_buffer_size_value: u16,
    // The matrices to load, in zigzag order.
    pub intra_quantiser_matrix: Option<[u8; 64]>,
    pub non_intra_quantiser_matrix: Option<[u8; 64]>,
}
