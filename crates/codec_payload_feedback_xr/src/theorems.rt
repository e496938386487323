//! Theorems about extended reports. These functions exist for what they prove; they do nothing.

ghost use Rattle.codec_payload_feedback_xr.specs.XrReading.{DlrrComesBack, ReadIsSpelled, ReferenceTimeComesBack, ReportComesBack};

/// Proves that a report whose blocks have a spelling is read again from it, exactly as it was.
pub fn report_comes_back()
    ensures { ReportComesBack }
{}

/// Proves that bytes that are read as a report are its spelling.
pub fn read_is_spelled()
    ensures { ReadIsSpelled }
{}

/// Proves that what a packet with one reference time spells has that reference time.
pub fn reference_time_comes_back()
    ensures { ReferenceTimeComesBack }
{}

/// Proves that what a packet with one answer spells has that answer.
pub fn dlrr_comes_back()
    ensures { DlrrComesBack }
{}
