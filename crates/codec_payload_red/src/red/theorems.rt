//! RED: a theorem on a sender and a receiver (docs/use/FORMATS.md, "RED"). The function exists for its proof and does nothing.

ghost use Rattle.codec_payload_red.specs.RedRun.{RecoversSent};

/// Every recovered packet was sent. Let a new sender wrap payloads whose RTP times are a fixed step of 1 to 16,383 ticks apart,
/// modulo 2^32, each shorter than the budget. Let the packets have consecutive numbers. A receiver with the sender's primary type
/// and that step gets one packet's output with its number and RTP time. Then it returns that packet, last, and before it exactly
/// the earlier packets whose payload is in a level that fitted the budget. Each has the number, RTP time and payload that it was
/// sent with.
///
/// A step of 0 is excluded: packets with one RTP time, such as the packets of one frame, have one offset for several numbers.
pub fn recovered_were_sent()
    ensures { RecoversSent }
{}
