//! The feedback for congestion control of all streams of a session.

ghost use Rattle.codec_payload_session_requests.specs.Transports.{SendsBy};

use crate::streams::Streams;
use codec_payload_base::wire::Ticks;
use codec_payload_feedback::transport::TransportReporter;
use codec_payload_session_formats::formats::SessionSettings;
use codec_payload_session_requests::transports::take_due;
use std::alloc::AllocError;

impl Streams {
    /// Returns the feedback about the transport, if it is due.
    #[inline(always)]
    pub(crate) fn transport_due(
        &self,
        settings: &SessionSettings,
        now: Ticks,
        transport: &mut Option<TransportReporter>,
    ) -> Option<Result<Vec<u8>, AllocError>>
        ensures { SendsBy settings.now.feedback now.0 transport.old result transport.new }
    {
        take_due(self.alloc, transport, &settings.feedback, now)
    }
}
