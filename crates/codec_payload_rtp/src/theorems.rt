//! A theorem on values that are written and read. The function exists for its proof and does nothing.

ghost use Rattle.codec_payload_rtp.specs.ExtensionWriting.{ValuesComeBack};

/// Values written under ids that fit are read back: each value that has an id, the audio level if it has a byte, and speech with
/// the level.
pub fn values_come_back()
    ensures { ValuesComeBack }
{}
