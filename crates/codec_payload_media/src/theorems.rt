//! Theorems on reading.

ghost use Rattle.codec_payload_media.specs.AmrWbFrames.{ReadsAmrWbFrames};
ghost use Rattle.codec_payload_media.specs.Av1Units.{ReadsObus};
ghost use Rattle.codec_payload_media.specs.OpusPackets.{ReadsOpus};
ghost use Rattle.codec_payload_vpx.specs.Vp9Superframes.{ReadsSuperframes};

/// Reading finds the frames of AMR-WB, the OBUs of AV1, what Opus packets say, and the frames of VP9's superframes, that bytes
/// spell, and nothing else.
pub fn reading_follows_the_grammars()
    ensures amr_wb { ReadsAmrWbFrames }
    ensures obus { ReadsObus }
    ensures opus { ReadsOpus }
    ensures superframes { ReadsSuperframes }
{}
