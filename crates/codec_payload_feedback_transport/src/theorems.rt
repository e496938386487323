//! Theorems about sent packets and their numbers. These functions exist for what they prove; they do nothing.

ghost use Rattle.codec_payload_feedback_transport.specs.Numbering.{NumbersComeBack};
ghost use Rattle.codec_payload_feedback_transport.specs.Sent.{SentAreKnown};

/// Proves that a packet that was sent is known by its number, with the time at which it was sent, while fewer than `limit` packets were
/// sent after it.
pub fn sent_are_known()
    ensures { SentAreKnown }
{}

/// Proves that a number in an extension is the value of the first element with its id.
pub fn numbers_come_back()
    ensures { NumbersComeBack }
{}
