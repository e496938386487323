//! Statuses of these calls. Other calls of the C API have the numbers up to 86.

pub const OK: u32 = 0;

/// The number of this error.
pub const OUT_OF_MEMORY: u32 = 17;

/// Nothing available: no packet can be rebuilt, or there is no such packet or stream.
pub const NONE: u32 = 32;

/// A datagram has fewer than 12 bytes.
pub const RTP_HEADER_TOO_SHORT: u32 = 42;

/// The version of an RTP packet is not 2.
pub const RTP_VERSION: u32 = 43;

/// An RTP packet ends inside the contributing sources.
pub const RTP_CSRCS_TOO_SHORT: u32 = 44;

/// An RTP packet ends inside the four bytes that announce its header extension.
pub const RTP_EXTENSION_HEADER_TOO_SHORT: u32 = 45;

/// An RTP packet ends inside its header extension.
pub const RTP_EXTENSION_TOO_SHORT: u32 = 46;

/// The padding of an RTP packet has 0 bytes.
pub const RTP_PADDING_OF_ZERO: u32 = 47;

/// The padding of an RTP packet is longer than the bytes after the header.
pub const RTP_PADDING_TOO_LONG: u32 = 48;

/// The streams of a port are not 1 to 256.
pub const FEC_STREAMS: u32 = 87;

/// A payload type of the settings is out of range.
pub const FEC_PAYLOAD_TYPE: u32 = 88;

/// A payload type of the settings has two meanings.
pub const FEC_TWO_MEANINGS: u32 = 89;

/// A packet has more than 65,547 bytes.
pub const FEC_PACKET_TOO_LARGE: u32 = 90;

/// A packet is of another stream.
pub const FEC_OTHER_STREAM: u32 = 91;

/// The payload type of a packet is that of RED or of ULPFEC.
pub const FEC_PACKET_TYPE: u32 = 92;

/// A packet comes too late: FEC was made 64 times since.
pub const FEC_TOO_OLD: u32 = 93;
