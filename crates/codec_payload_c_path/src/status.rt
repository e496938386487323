//! Statuses of these calls. The numbers up to 76 are those of all calls of the C API.

pub const OK: u32 = 0;

/// The number of this error.
pub const OUT_OF_MEMORY: u32 = 17;

/// Nothing available: no packet leaves now, or none waits.
pub const NONE: u32 = 32;

/// Output buffer too small. Nothing is lost.
pub const TOO_SMALL: u32 = 33;

/// Handle not initialised.
pub const EMPTY: u32 = 34;

/// Handle of another type.
pub const OTHER_KIND: u32 = 35;

/// Handle already in use.
pub const FULL: u32 = 36;

/// Invalid argument.
pub const INVALID: u32 = 37;

/// Transport-wide feedback has fewer than 8 bytes.
pub const TRANSPORT_HEADER_TOO_SHORT: u32 = 70;

/// Transport-wide feedback ends inside its chunks.
pub const TRANSPORT_CHUNKS_TOO_SHORT: u32 = 71;

/// A status in transport-wide feedback is reserved.
pub const TRANSPORT_RESERVED: u32 = 72;

/// Transport-wide feedback ends inside its deltas.
pub const TRANSPORT_DELTAS_TOO_SHORT: u32 = 73;

/// With this packet more bytes than allowed would wait to leave.
pub const QUEUE_FULL: u32 = 77;

/// Congestion control feedback has fewer than 8 bytes.
pub const CCFB_TOO_SHORT: u32 = 78;

/// Congestion control feedback ends inside the first 8 bytes of a block.
pub const CCFB_BLOCK_TOO_SHORT: u32 = 79;

/// A block of congestion control feedback reports on more than 16,384 packets.
pub const CCFB_TOO_MANY: u32 = 80;

/// Congestion control feedback ends inside the packets of a block.
pub const CCFB_METRICS_TOO_SHORT: u32 = 81;

/// A packet of FEC has fewer than 10 bytes.
pub const FEC_HEADER_TOO_SHORT: u32 = 82;

/// A packet of FEC has its extension flag set.
pub const FEC_EXTENDED: u32 = 83;

/// A packet of FEC ends inside the header of level 0.
pub const FEC_LEVEL_TOO_SHORT: u32 = 84;

/// A packet of FEC protects no packet.
pub const FEC_EMPTY_MASK: u32 = 85;

/// A packet of FEC ends inside the payload of level 0.
pub const FEC_PAYLOAD_TOO_SHORT: u32 = 86;
