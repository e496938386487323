//! The statuses for bytes that are not an RTP packet.

ghost use Rattle.std.specs.Prelude.{◌≡◌};
ghost use Rattle.codec_payload_handle.specs.RtpFaults.{rtp_status};

use crate::status;
use codec_payload_rtp::rtp::RtpError;

/// Returns the status for bytes that are not an RTP packet.
pub fn status_of(fault: RtpError) -> u32
    ensures { result ≡ rtp_status fault }
{
    match fault {
        RtpError::HeaderTooShort => status::RTP_HEADER_TOO_SHORT,
        RtpError::WrongVersion => status::RTP_VERSION,
        RtpError::CsrcsTooShort => status::RTP_CSRCS_TOO_SHORT,
        RtpError::ExtensionHeaderTooShort => status::RTP_EXTENSION_HEADER_TOO_SHORT,
        RtpError::ExtensionTooShort => status::RTP_EXTENSION_TOO_SHORT,
        RtpError::PaddingOfZero => status::RTP_PADDING_OF_ZERO,
        RtpError::PaddingTooLong => status::RTP_PADDING_TOO_LONG,
    }
}
