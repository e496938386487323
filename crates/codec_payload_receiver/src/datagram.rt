//! Which datagrams belong to a stream.

ghost use Rattle.std.specs.Prelude.{◌≡◌, IfOk, IfErr, OnErr, true};
ghost use Rattle.codec_payload_base.specs.declared.error.PacketError.TheVariants.{OutOfMemory};
ghost use Rattle.codec_payload_rtp.specs.RtpValues.{packet_of};
ghost use Rattle.codec_payload_datagrams.specs.Kinds.{WithMedia, datagram_at, datagram_of, first_kind, kind_for, red_of, retransmitted_under, takes_memory};
ghost use Rattle.codec_payload_numbers.specs.Reports.{reception_since};
ghost use Rattle.codec_payload_receiver.specs.Sessions.{observed_unless, ssrc_after};

use codec_payload_base::error::PacketError;
use codec_payload_base::wire::Ticks;
use codec_payload_datagrams::kinds::{
    Datagram, Malformation, RedStream, Retransmission, again_kind, is_among, is_other,
    is_padding_only, is_sent_again, media_kind, red_again_kind, red_again_of, red_kind, under,
};
use codec_payload_datagrams::parsed::ParsedDatagram;
use codec_payload_numbers::statistics::ReceptionStatistics;
use codec_payload_red::red::RedReceiver;
use codec_payload_rtp::rtp::RtpPacket;
use codec_payload_rtp::values::ExtensionIds;
use std::alloc::Global;
use std::marker::Model;

/// The settings by which a stream recognises its datagrams.
#[derive(Debug, Drop)]
pub(crate) struct StreamKinds {
    pub(crate) alloc: Global,
    pub(crate) no_media: Vec<u8>,
    pub(crate) red: Option<RedStream>,
    pub(crate) retransmission: Option<Retransmission>,
    pub(crate) ids: ExtensionIds,
    pub(crate) payload_type: u8,
}

impl Model for StreamKinds {
    ghost use Rattle.codec_payload_datagrams.specs.Kinds.{Kinds};

    ghost Value = { Kinds };

    ghost view = { λ s. record {
      payload_type = s.payload_type;
      no_media = s.no_media.items;
      red = s.red;
      retransmission = s.retransmission;
      ids = s.ids;
    } };
}

impl StreamKinds {
    /// Sorts a datagram, for a stream with this SSRC, if it is known.
    #[inline(always)]
    pub(crate) fn sort<'a>(
        &self,
        ssrc: Option<u32>,
        datagram: &ParsedDatagram<'a>,
    ) -> Result<Datagram<'a>, PacketError>
        ensures ok { IfOk result (λ d. datagram_of d ≡ datagram_at self.now ssrc datagram.now) }
        ensures fault { IfErr result (λ f. f ≡ OutOfMemory) }
        ensures memory { OnErr result (takes_memory (datagram_at self.now ssrc datagram.now) ≡ true) }
    {
        if datagram.is_rtcp() {
            return Ok(Datagram::Rtcp);
        }
        match datagram.packet() {
            Ok(packet) => self.kind_of(ssrc, *packet),
            Err(fault) => Ok(Datagram::Malformed(Malformation::Rtp(*fault))),
        }
    }

    /// Returns whether an RTP packet has media of the stream in the plainest form: with its payload type, and no retransmission.
    #[inline(always)]
    pub(crate) fn is_media(&self, ssrc: Option<u32>, packet: &RtpPacket<'_>) -> bool
        ensures { result ≡ true → kind_for self.now ssrc (packet_of packet.now) ≡ WithMedia (packet_of packet.now) }
    {
        let header = &packet.header;
        header.payload_type == self.payload_type
            && !is_sent_again(self.retransmission, header)
            && !is_other(ssrc, header.ssrc)
            && !is_padding_only(packet)
    }

    /// Sorts an RTP packet.
    #[inline(always)]
    pub(crate) fn kind_of<'a>(
        &self,
        ssrc: Option<u32>,
        packet: RtpPacket<'a>,
    ) -> Result<Datagram<'a>, PacketError>
        ensures ok { IfOk result (λ d. datagram_of d ≡ kind_for self.now ssrc (packet_of packet.entry)) }
        ensures fault { IfErr result (λ f. f ≡ OutOfMemory) }
        ensures memory { OnErr result (takes_memory (kind_for self.now ssrc (packet_of packet.entry)) ≡ true) }
    {
        if is_sent_again(self.retransmission, &packet.header) {
            return Ok(again_kind(ssrc, packet));
        }
        if packet.header.payload_type == self.payload_type {
            return self.first_kind(ssrc, packet);
        }
        match red_again_of(self.retransmission, self.red, &packet.header) {
            Some(receiver) => red_again_kind(self.alloc, receiver, ssrc, packet),
            None => self.first_kind(ssrc, packet),
        }
    }

    /// Sorts an RTP packet that is not a retransmission.
    #[inline(always)]
    fn first_kind<'a>(
        &self,
        ssrc: Option<u32>,
        packet: RtpPacket<'a>,
    ) -> Result<Datagram<'a>, PacketError>
        ensures ok { IfOk result (λ d. datagram_of d ≡ first_kind self.now ssrc (packet_of packet.entry)) }
        ensures fault { IfErr result (λ f. f ≡ OutOfMemory) }
        ensures memory { OnErr result (takes_memory (first_kind self.now ssrc (packet_of packet.entry)) ≡ true) }
    {
        let payload_type = packet.header.payload_type;
        if is_other(ssrc, packet.header.ssrc) {
            return Ok(Datagram::OtherStream);
        }
        if payload_type == self.payload_type {
            return Ok(media_kind(packet));
        }
        if let Some(receiver) = self.red_of(payload_type) {
            return red_kind(self.alloc, receiver, packet);
        }
        if is_among(payload_type, &self.no_media) {
            Ok(Datagram::NoMedia(packet))
        } else {
            Ok(Datagram::OtherStream)
        }
    }

    /// Sets the SSRC of retransmissions, if the stream has retransmissions and an SSRC is given.
    pub(crate) fn retransmit_under(&mut self, ssrc: Option<u32>)
        ensures { self.new ≡ retransmitted_under ssrc self.old }
    {
        self.retransmission = under(self.retransmission, ssrc);
    }

    /// Replaces the SSRC and payload type of retransmissions.
    pub(crate) fn set_retransmission(&mut self, retransmission: Option<Retransmission>)
        ensures { self.new ≡ record self.old { retransmission = retransmission } }
    {
        self.retransmission = retransmission;
    }

    /// Returns the RED receiver for this payload type, if it is the one of RED.
    fn red_of(&self, payload_type: u8) -> Option<RedReceiver>
        ensures { result ≡ red_of self.now.red payload_type }
    {
        match self.red {
            Some(red) if red.payload_type == payload_type => Some(red.receiver),
            _ => None,
        }
    }
}

/// Returns the SSRC of the stream after this datagram.
#[inline(always)]
pub(crate) fn ssrc_after(ssrc: Option<u32>, datagram: &Datagram<'_>) -> Option<u32>
    ensures { result ≡ ssrc_after ssrc (datagram_of datagram.now) }
{
    match datagram {
        Datagram::NoMedia(packet) | Datagram::Media(packet) => Some(packet.header.ssrc),
        Datagram::Red(red) => Some(red.header.ssrc),
        _ => ssrc,
    }
}

/// What the jitter buffer found for a datagram, as far as the statistics are concerned.
#[derive(Clone, Copy, Debug)]
pub(crate) struct Found {
    /// It confirmed a restart.
    pub(crate) has_restarted: bool,
    /// It is suspect.
    pub(crate) is_suspect: bool,
}

/// Passes a packet of the stream's sender to the statistics, unless it is suspect. With a packet that confirms a restart they begin
/// again.
#[inline(always)]
pub(crate) fn observe(
    statistics: &mut ReceptionStatistics,
    now: Ticks,
    datagram: &Datagram<'_>,
    found: Found,
)
    ensures { statistics.new ≡ observed_unless found.is_suspect (reception_since found.has_restarted statistics.old) now.0 (datagram_of datagram.now) }
{
    statistics.begin_if(found.has_restarted);
    if found.is_suspect {
        return;
    }
    match datagram {
        Datagram::NoMedia(packet) | Datagram::Media(packet) => {
            let header = &packet.header;
            statistics.observe(now, header.sequence_number, header.timestamp);
        }
        Datagram::Red(red) => {
            let header = &red.header;
            statistics.observe(now, header.sequence_number, header.timestamp);
        }
        _ => {}
    }
}

/// Does the same for a packet with media.
#[inline(always)]
pub(crate) fn observe_media(
    statistics: &mut ReceptionStatistics,
    now: Ticks,
    packet: &RtpPacket<'_>,
    found: Found,
)
    ensures { statistics.new ≡ observed_unless found.is_suspect (reception_since found.has_restarted statistics.old) now.0 (WithMedia (packet_of packet.now)) }
{
    statistics.begin_if(found.has_restarted);
    if !found.is_suspect {
        let (number, time) = (packet.header.sequence_number, packet.header.timestamp);
        statistics.observe(now, number, time);
    }
}
