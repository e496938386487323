//! AV1 (AV1 bitstream and decoding process specification, sections 5.3 to 5.5, 5.9 and 7.5).

pub mod av1c;
pub mod obu;
pub mod operating_points;
pub mod sequence_header;
pub mod temporal_unit;
