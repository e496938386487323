//! Theorems about a sender of FEC. These functions exist for what they prove; they do nothing.

ghost use Rattle.codec_payload_sending_fec.specs.Taken.{FecIsTaken, MediaIsTaken};

/// Proves that a receiver of FEC takes each packet with a payload as media: the packet that was passed to the sender, with its number of
/// the stream and without padding. The receiver keeps the bytes that the sender makes its FEC for. So the premises of the theorem that
/// handed-out packets were sent hold for this sender.
pub fn media_is_taken()
    ensures { MediaIsTaken }
{}

/// Proves that a receiver of FEC takes each packet of FEC as FEC.
pub fn fec_is_taken()
    ensures { FecIsTaken }
{}
