//! Theorems about histories. These functions exist for what they prove; they do nothing.

ghost use Rattle.codec_payload_sending_history.specs.HeldNumbers.{HoldsLatest, KeepsNext};

/// Proves that a history holds the latest datagram of each of the last `limit` numbers, in whatever order the packets were kept,
/// with numbers missing and repeated. Each packet is less than `limit` below the highest number before it, or less than 32,768
/// above it.
pub fn holds_latest()
    ensures { HoldsLatest }
{}

/// Proves that packets in order are kept as the last `limit` packets.
pub fn keeps_next()
    ensures { KeepsNext }
{}
