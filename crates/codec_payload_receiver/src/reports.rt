//! What a receiver reports about the packets of its sender.

ghost use Rattle.std.specs.Prelude.{◌≡◌};
ghost use Rattle.codec_payload_numbers.specs.Reports.{report_of, transit_change};

use crate::receiver::Receiver;
use codec_payload_base::wire::Ticks;
pub use codec_payload_numbers::statistics::{ReceptionReport, ReceptionStatistics};

impl<B> Receiver<B> {
    /// Returns what [`Receiver::report`] would return, and changes nothing. Allocates nothing.
    pub fn peek_report(&self) -> Option<ReceptionReport>
        ensures { result ≡ report_of self.now.reception }
    {
        let mut statistics = self.statistics;
        statistics.report()
    }

    /// Returns how far the RTP time of a packet that arrives at `now` is from the sender's clock. This is the difference between the
    /// transit times (RFC 3550, appendix A.8) of the packet and of the latest packet that counts for reports, in ticks of the RTP
    /// clock, the shorter way round 32 bits. `None`: no packet counts so far.
    pub fn transit_change(&self, now: Ticks, rtp_time: u32) -> Option<u32>
        ensures { result ≡ transit_change self.now.reception now.0 rtp_time }
    {
        self.statistics.transit_change(now, rtp_time)
    }
}
