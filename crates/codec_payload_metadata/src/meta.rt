//! The metadata of received packets.

ghost use Rattle.std.specs.Prelude.{◌≡◌};
ghost use Rattle.codec_payload_metadata.specs.Release.{meta_of};

use codec_payload_base::wire::{
    ExtensionValues, MediaTime, Pt, RtpHeader, SenderInfo, SeqNo, Ticks,
};

/// The metadata of a received packet.
#[derive(Clone, Debug, PartialEq, Eq, Drop)]
pub struct RtpMeta {
    /// When the packet arrived, by your clock.
    pub received: Ticks,
    pub time: MediaTime,
    pub seq_no: SeqNo,
    pub header: RtpHeader,
    /// The values of the latest sender report before the packet.
    pub last_sender_info: Option<SenderInfo>,
}

impl RtpMeta {
    /// Returns the metadata of a packet from its number, RTP time, payload type and time of arrival. The header gets the low 16
    /// bits of the number and the low 32 bits of the time, no marker, the SSRC 0 and no values of header extensions. There is
    /// no sender report. All fields are public: set the values that you have.
    pub fn of(seq_no: SeqNo, time: MediaTime, payload_type: Pt, received: Ticks) -> Self
        ensures { result ≡ meta_of seq_no.0 time payload_type received.0 }
    {
        RtpMeta {
            received,
            time,
            seq_no,
            header: RtpHeader {
                payload_type,
                sequence_number: (seq_no.0 % (1 << 16)) as u16,
                timestamp: (time.numer() % (1 << 32)) as u32,
                ssrc: 0,
                marker: false,
                ext_vals: ExtensionValues::default(),
            },
            last_sender_info: None,
        }
    }
}
