//! Theorems about congestion control feedback. These functions exist for what they prove; they do nothing.

ghost use Rattle.codec_payload_feedback_ccfb.specs.CcfbReading.{FeedbackComesBack};

/// Proves that feedback that fits is read again from its spelling, exactly as it was.
pub fn feedback_comes_back()
    ensures { FeedbackComesBack }
{}
