//! One stream of a viewer: packets of one source after another, under the viewer's SSRC, payload type, numbers and times.

ghost use Rattle.std.specs.Prelude.{◌≡◌, ◌<◌, ◌≤◌, ◌+◌, ◌++◌, ℕ, [], length, Some, None, Ok, true, false, IfOk, IfSome, IfNone, IsTrue, OnOk, OnErr};
ghost use Rattle.std.specs.Int.{w16, to_be_bytes};
ghost use Rattle.codec_payload_base.specs.Extended.{nearest};
ghost use Rattle.codec_payload_layers.specs.Layers.{begins_keyframe};
ghost use Rattle.codec_payload_sending_history.specs.Histories.{first_of};
ghost use Rattle.codec_payload_sending_history.specs.Packets.{stream_fits};
ghost use Rattle.codec_payload_rtp.specs.RtpPackets.{header_bytes, header_fits, packet_bytes};
ghost use Rattle.codec_payload_rtp.specs.RtpReading.{rtp_at};
ghost use Rattle.codec_payload_rtp.specs.RtpValues.{header_of, packet_of};
ghost use Rattle.codec_payload_sending_forward.specs.declared.renumbering.Placed.TheVariants as places;
ghost use Rattle.codec_payload_sending_forward.specs.Numbers.{after_packet, placed};
ghost use Rattle.codec_payload_sending_forward.specs.Times.{time_as};
ghost use Rattle.codec_payload_sending_forward.specs.Vp8Numbers.{payload_as, vp8_ids};
ghost use Rattle.codec_payload_sending_forward.specs.Forwarding.{IsNotRequested, IsNumberOf, IsRequested, IsResent, IsWritten, Forwards, Leaves, Repeats, after_written, codec_fits, forward_by, ids_in, is_source, next_packet, number_in, offsets_for, packet_under, sent_packet, size_again, forwarded_size, ticks_between, time_for, wrapped};

use crate::ids::{ForwardedIds, IdOffsets, PayloadIds};
use crate::payloads::{closing_id, ids_in, rewrite};
use crate::renumbering::{Placed, Renumbering};
use crate::times::Retiming;
use codec_payload_base::wire::Codec;
use codec_payload_layers::layers::begins_keyframe;
use codec_payload_rtp::rtp::{PacketHeader, RtpPacket};
use codec_payload_sending_history::retransmission::{History, RetransmissionStream};
use std::alloc::{AllocError, Global};
use std::marker::Model;
use thiserror::Error;

/// The most ticks that the time goes on by at a switch: below half of the RTP times.
const MAX_TICKS: u64 = 2_147_483_647;

/// How a viewer's stream is sent.
#[derive(Clone, Copy, Debug, PartialEq, Eq)]
pub struct ForwardSettings {
    /// The codec of all sources. It says with which packets a viewer can begin; see [`Forwarder::write`].
    pub codec: Codec,
    /// The SSRC of the viewer's stream.
    pub ssrc: u32,
    /// Its payload type, 0 to 127.
    pub payload_type: u8,
    /// The sequence number of its first packet.
    pub first_number: u16,
    /// The RTP time of its first packet.
    pub first_time: u32,
    /// The viewer's stream of retransmissions (RFC 4588). `None`: a packet is resent as it was.
    pub retransmissions: Option<RetransmissionStream>,
}

/// Which setting is out of range.
#[derive(Clone, Copy, Debug, PartialEq, Eq, Error)]
pub enum ForwardError {
    /// The payload type is above 127.
    #[error("payload type of the viewer's stream exceeds 127")]
    PayloadType,
    /// The payload type of retransmissions is above 127.
    #[error("payload type of the viewer's retransmissions exceeds 127")]
    RetransmissionType,
    /// The codec is H.264, H.265 or H.266, whose keyframes the library does not find.
    #[error("codec of the viewer's stream is not supported")]
    Codec,
}

/// What [`Forwarder::write`] or [`Forwarder::leave_out`] did with a packet.
#[derive(Clone, Copy, Debug, PartialEq, Eq)]
pub enum Forwarded {
    /// The packet was written, and is the first of another source. Packets of this source with higher numbers may have come before
    /// it: pass them again.
    Began,
    /// The packet was written.
    Written,
    /// The packet is of the wanted source, but a viewer cannot begin with it.
    NoKeyframe,
    /// The packet is of a source that the viewer does not get.
    OtherSource,
    /// The packet is older than the keyframe with which its source began, or too old to have a number.
    TooOld,
    /// The packet is left out, or was left out before, and has no number. The numbers after it close up.
    LeftOut,
    /// The packet was left out late. A packet of padding was written under its number, so that the viewer does not request it.
    Filled,
}

/// Forwards the packets of one source after another to a viewer.
///
/// Name a source by [`Forwarder::want`], and pass each packet that arrived to [`Forwarder::write`], before SRTP encrypts it.
/// The forwarder goes over to the wanted source at its next keyframe. Until then it forwards the source before. Each written packet
/// has the payload, the marker and the padding of the packet received. It has the viewer's SSRC and payload type, and the number and
/// time of the maps [`Renumbering`] and [`Retiming`]. In a payload of VP8 or VP9, PictureID and TL0PICIDX are those of the map
/// [`ForwardedIds`], in the widths that they have, and all other bits stay (RFC 7741 and RFC 9628, section 4.2). The packet has no CSRCs and no header extension, since ids of extensions differ between connections.
#[derive(Debug, Drop)]
pub struct Forwarder {
    settings: ForwardSettings,
    /// The source that is forwarded.
    source: Option<u32>,
    /// The source to go over to.
    wanted: Option<u32>,
    numbers: Renumbering,
    times: Retiming,
    /// For VP8 and VP9.
    ids: ForwardedIds,
    /// The number of the next retransmission.
    next: u16,
    /// When the packet with the highest number was written.
    written_at: Option<u64>,
    /// The highest number of the source that was sent. Packets above it may have been left out.
    latest: u64,
    /// Memory for the payload of a packet of VP9, and of retransmissions of VP8.
    payload: Vec<u8>,
}

impl Model for Forwarder {
    ghost use Rattle.std.specs.Prelude.{◌<◌, IsTrue};
    ghost use Rattle.codec_payload_sending_history.specs.Packets.{stream_fits};
    ghost use Rattle.codec_payload_sending_forward.specs.Forwarding.{Forward};

    ghost Value = { Forward };

    ghost view = { λ f. record { settings = f.settings; source = f.source; wanted = f.wanted; numbers = f.numbers; times = f.times; ids = f.ids; next = f.next; written_at = f.written_at; latest = f.latest } };

    ghost invariant = { λ f. (f.settings.payload_type < 128) × IsTrue (stream_fits f.settings.retransmissions) };
}

/// Returns whether the payload type of retransmissions is in range.
fn stream_fits(stream: Option<RetransmissionStream>) -> bool
    ensures { result ≡ stream_fits stream }
{
    match stream {
        None => true,
        Some(stream) => stream.payload_type < 128,
    }
}

/// Returns the number of the first retransmission.
fn first_of(stream: Option<RetransmissionStream>) -> u16
    ensures { result ≡ first_of stream }
{
    match stream {
        None => 0,
        Some(stream) => stream.first_number,
    }
}

/// Returns whether the library finds the keyframes of a codec, or needs none.
fn codec_fits(codec: Codec) -> bool
    ensures { result ≡ codec_fits codec }
{
    !matches!(codec, Codec::H264 | Codec::H265 | Codec::H266)
}

/// Returns whether a source is the one with this SSRC.
fn is_source(source: Option<u32>, ssrc: u32) -> bool
    ensures { result ≡ is_source source ssrc }
{
    match source {
        None => false,
        Some(source) => source == ssrc,
    }
}

/// Returns the number nearest to `highest` with these low 16 bits.
fn extended(highest: u64, number: u16) -> u64
    ensures { result ≡ nearest 65536 highest number }
{
    let ahead = (u64::from(number) + 65_536 - highest % 65_536) % 65_536;
    if ahead <= 32_768 {
        highest.wrapping_add(ahead)
    } else {
        highest.wrapping_sub(65_536 - ahead)
    }
}

/// Returns by how many ticks the time goes on at a switch.
fn ticks_between(last: Option<u64>, now: u64) -> u32
    ensures { result ≡ ticks_between last now }
{
    match last {
        None => 0,
        Some(last) => now.saturating_sub(last).clamp(1, MAX_TICKS) as u32,
    }
}

/// Returns the number of bytes of a packet without CSRCs and header extension: what [`Forwarder::write`] writes for it, if it writes
/// it.
pub fn forwarded_size(packet: &RtpPacket<'_>) -> usize
    ensures { result ≡ forwarded_size (packet_of packet.now) }
{
    let padding = packet.padding;
    12 + packet.payload.len() + usize::from(padding)
}

/// The number and the time that a packet is sent with.
#[derive(Clone, Copy, Debug)]
struct Place {
    number: u16,
    time: u32,
}

/// The ids of a payload that was received, and what was added to them.
#[derive(Clone, Copy, Debug)]
struct SentIds {
    offsets: IdOffsets,
    ids: Option<PayloadIds>,
}

/// Returns the header of a packet that is sent under this number and time.
#[inline]
fn header_under(settings: ForwardSettings, place: Place, marker: bool) -> PacketHeader<'static>
    requires { settings.payload_type < 128 }
    ensures value { header_of result ≡ record { marker = marker; payload_type = settings.payload_type; sequence_number = place.number; timestamp = place.time; ssrc = settings.ssrc; csrcs = []; extension = None } }
    ensures fits { IsTrue (header_fits (header_of result)) }
{
    PacketHeader {
        marker,
        payload_type: settings.payload_type,
        sequence_number: place.number,
        timestamp: place.time,
        ssrc: settings.ssrc,
        csrcs: &[],
        extension: None,
    }
}

/// Writes a packet under this number and time, and replaces what `out` has.
fn write_under(
    settings: ForwardSettings,
    place: Place,
    packet: &RtpPacket<'_>,
    out: &mut Vec<u8>,
) -> Result<(), AllocError>
    requires { settings.payload_type < 128 }
    ensures ok { OnOk result (out.new.items ≡ packet_bytes (packet_under settings place.number place.time (packet_of packet.now))) }
    ensures reads { OnOk result (rtp_at out.new.items ≡ Ok (packet_under settings place.number place.time (packet_of packet.now))) }
    ensures err { OnErr result (out.new.items ≡ []) }
{
    out.clear();
    let sent = RtpPacket {
        header: header_under(settings, place, packet.header.marker),
        payload: packet.payload,
        padding: packet.padding,
    };
    sent.write(out)
}

/// Writes a header and a payload of VP8 with ids by these offsets. `out` is empty before. The payload is copied once, and the ids are
/// written over those of the copy. Returns the ids of the payload.
fn write_vp8(
    header: PacketHeader<'_>,
    offsets: IdOffsets,
    payload: &[u8],
    out: &mut Vec<u8>,
) -> Result<Option<PayloadIds>, AllocError>
    requires fits { IsTrue (header_fits (header_of header)) }
    requires empty { out.old.items ≡ [] }
    ensures ok { OnOk result (out.new.items ≡ header_bytes false (header_of header.entry) ++ payload_as offsets payload.now) }
    ensures reads { OnOk result (rtp_at out.new.items ≡ Ok (record { header = header_of header.entry; payload = payload_as offsets payload.now; padding = 0 })) }
    ensures ids { IfOk result (λ ids. ids ≡ vp8_ids payload.now) }
{
    header.write(out)?;
    let start = out.len();
    out.extend_from_slice(payload)?;
    Ok(offsets.write_vp8(payload, &mut out[start..]))
}

/// Writes a packet with this header, and with a number in front of its payload (RFC 4588, section 4). `out` is empty before.
fn write_behind_number(
    header: PacketHeader<'_>,
    number: u16,
    payload: &[u8],
    out: &mut Vec<u8>,
) -> Result<(), AllocError>
    requires fits { IsTrue (header_fits (header_of header)) }
    requires empty { out.old.items ≡ [] }
    ensures reads { OnOk result (rtp_at out.new.items ≡ Ok (record { header = header_of header.entry; payload = to_be_bytes w16 number ++ payload.now; padding = 0 })) }
    ensures size { OnOk result (length out.new.items ≡ length (header_bytes false (header_of header.entry)) + 2 + length payload.now) }
{
    header.write(out)?;
    out.extend_from_slice(&number.to_be_bytes())?;
    out.extend_from_slice(payload)
}

impl Forwarder {
    /// Returns a forwarder that wants no source yet. Does not allocate. If several settings are out of range, the error is the
    /// first in the order of [`ForwardError`].
    pub fn new(alloc: Global, settings: ForwardSettings) -> Result<Forwarder, ForwardError>
        ensures { result ≡ forward_by settings }
    {
        if settings.payload_type > 127 {
            return Err(ForwardError::PayloadType);
        }
        if !stream_fits(settings.retransmissions) {
            return Err(ForwardError::RetransmissionType);
        }
        if !codec_fits(settings.codec) {
            return Err(ForwardError::Codec);
        }
        Ok(Forwarder {
            settings,
            source: None,
            wanted: None,
            numbers: Renumbering::new(alloc, 0, settings.first_number.wrapping_sub(1)),
            times: Retiming::new(0, settings.first_time),
            ids: ForwardedIds::new(alloc),
            next: first_of(settings.retransmissions),
            written_at: None,
            latest: 0,
            payload: Vec::new(alloc),
        })
    }

    /// Returns how the viewer's stream is sent.
    pub fn settings(&self) -> ForwardSettings
        ensures { result ≡ self.now.settings }
    {
        self.settings
    }

    /// Returns the SSRC of the source that is forwarded. `None`: the viewer gets nothing now.
    pub fn source(&self) -> Option<u32>
        ensures { result ≡ self.now.source }
    {
        self.source
    }

    /// Returns the SSRC of the source that the forwarder goes over to, or has gone over to.
    pub fn wanted(&self) -> Option<u32>
        ensures { result ≡ self.now.wanted }
    {
        self.wanted
    }

    /// Wants the source with this SSRC: the forwarder goes over to it at its next keyframe. Ask its sender for one.
    pub fn want(&mut self, ssrc: u32)
        ensures { self.new ≡ record self.old { wanted = Some ssrc } }
    {
        self.wanted = Some(ssrc);
    }

    /// Forwards nothing until a source is wanted again. Then the viewer's stream goes on with a keyframe, also of the same
    /// source. So call this, and then [`Forwarder::want`], if the sender has restarted under the same SSRC.
    pub fn mute(&mut self)
        ensures { self.new ≡ record self.old { source = None; wanted = None } }
    {
        self.source = None;
        self.wanted = None;
    }

    /// Writes a packet for the viewer and replaces what `out` has, or says why not; then `out` is empty.
    ///
    /// `now` is the time of your clock in ticks of the RTP clock. At a switch the time goes on by the ticks since the packet with
    /// the highest number was written: at least 1, at most 2^31 - 1. A viewer begins with:
    ///
    /// - VP8: the first packet of a keyframe (RFC 7741, section 4.2).
    /// - VP9: the first packet of the lowest spatial layer of a picture that refers to no other: P is clear, B is set, and L is
    ///   clear or SID is 0 (RFC 9628, section 4.2).
    /// - AV1: the first packet of a coded video sequence: N is set, and Z is clear (RTP payload format for AV1, section 4.4).
    /// - Other codecs: any packet.
    ///
    /// It copies the payload once, and a payload of VP9, or of VP8 with padding, twice. Once `out` has grown to the largest packet, it does not allocate.
    ///
    /// # Errors
    ///
    /// Memory ran out: the forwarder is unchanged, and `out` is empty.
    pub fn write(
        &mut self,
        now: u64,
        packet: &RtpPacket<'_>,
        out: &mut Vec<u8>,
    ) -> Result<Forwarded, AllocError>
        ensures ok { IfOk result (λ answer. Forwards now (packet_of packet.now) self.old answer out.new.items self.new) }
        ensures size { OnOk result (length out.new.items ≤ forwarded_size (packet_of packet.now)) }
        ensures err { OnErr result ((self.new ≡ self.old) × (out.new.items ≡ [])) }
    {
        out.clear();
        let ssrc = packet.header.ssrc;
        if is_source(self.source, ssrc) {
            return self.write_next(now, packet, out);
        }
        if !is_source(self.wanted, ssrc) {
            return Ok(Forwarded::OtherSource);
        }
        if !begins_keyframe(self.settings.codec, packet.payload) {
            return Ok(Forwarded::NoKeyframe);
        }
        self.begin(now, packet, out)
    }

    /// Writes a packet of the source that is forwarded.
    fn write_next(
        &mut self,
        now: u64,
        packet: &RtpPacket<'_>,
        out: &mut Vec<u8>,
    ) -> Result<Forwarded, AllocError>
        requires source { IsTrue (is_source self.old.source packet.now.header.ssrc) }
        requires empty { out.old.items ≡ [] }
        ensures ok { IfOk result (λ answer. Forwards now (packet_of packet.now) self.old answer out.new.items self.new) }
        ensures err { OnErr result ((self.new ≡ self.old) × (out.new.items ≡ [])) }
    {
        let number = extended(self.numbers.highest(), packet.header.sequence_number);
        match self.numbers.placed(number) {
            Placed::Sent(sent) => {
                let offsets = self.offsets_at(number);
                let place = self.place_at(sent, packet);
                let ids = self.write_as(offsets, place, packet, out)?;
                self.record(now, number, SentIds { offsets, ids }, packet);
                Ok(Forwarded::Written)
            }
            Placed::LeftOut => Ok(Forwarded::LeftOut),
            Placed::TooOld | Placed::Unused(_) => Ok(Forwarded::TooOld),
        }
    }

    /// Returns the number and the time that a packet is sent with.
    #[inline]
    fn place_at(&self, number: u16, packet: &RtpPacket<'_>) -> Place
        ensures { result ≡ record { number = number; time = time_as self.now.times packet.now.header.timestamp } }
    {
        Place {
            number,
            time: self.times.sent_as(packet.header.timestamp),
        }
    }

    /// Records that a packet with these ids was written.
    #[inline]
    fn record(&mut self, now: u64, number: u64, sent: SentIds, packet: &RtpPacket<'_>)
        requires offsets { sent.offsets ≡ offsets_for self.old.settings.codec self.old.ids number }
        requires ids { sent.ids ≡ ids_in self.old.settings.codec packet.now.payload.now }
        ensures { self.new ≡ after_written now number (packet_of packet.now) self.old }
    {
        if number > self.numbers.highest() {
            self.written_at = Some(now);
            self.ids.record(sent.offsets, sent.ids);
        } else if number > self.latest {
            self.ids.record_late(sent.offsets, sent.ids);
        }
        self.latest = self.latest.max(number);
        self.numbers.record(number);
        self.times.record(packet.header.timestamp);
    }

    /// Writes a packet with ids by these offsets, under this number and time. Returns the ids of the payload received.
    fn write_as(
        &mut self,
        offsets: IdOffsets,
        place: Place,
        packet: &RtpPacket<'_>,
        out: &mut Vec<u8>,
    ) -> Result<Option<PayloadIds>, AllocError>
        requires empty { out.old.items ≡ [] }
        ensures ok { OnOk result (IsWritten (sent_packet self.old.settings offsets place.number place.time (packet_of packet.now)) out.new.items) }
        ensures ids { IfOk result (λ ids. ids ≡ ids_in self.old.settings.codec packet.now.payload.now) }
        ensures same { self.new ≡ self.old }
        ensures err { OnErr result (out.new.items ≡ []) }
    {
        match self.settings.codec {
            Codec::Vp8 if packet.padding == 0 => {
                let header = header_under(self.settings, place, packet.header.marker);
                let answer = write_vp8(header, offsets, packet.payload, out);
                if answer.is_err() {
                    out.clear();
                }
                answer
            }
            Codec::Vp8 | Codec::Vp9 => {
                self.write_moved(offsets, place, packet, out)?;
                Ok(ids_in(self.settings.codec, packet.payload))
            }
            _ => {
                write_under(self.settings, place, packet, out)?;
                Ok(None)
            }
        }
    }

    /// Writes a packet of VP8 or VP9 with ids by these offsets, under this number and time. The payload is copied twice.
    fn write_moved(
        &mut self,
        offsets: IdOffsets,
        place: Place,
        packet: &RtpPacket<'_>,
        out: &mut Vec<u8>,
    ) -> Result<(), AllocError>
        requires empty { out.old.items ≡ [] }
        ensures ok { OnOk result (IsWritten (sent_packet self.old.settings offsets place.number place.time (packet_of packet.now)) out.new.items) }
        ensures same { self.new ≡ self.old }
        ensures err { OnErr result (out.new.items ≡ []) }
    {
        rewrite(
            self.settings.codec,
            offsets,
            packet.payload,
            &mut self.payload,
        )?;
        let rewritten = RtpPacket {
            header: packet.header,
            payload: &self.payload,
            padding: packet.padding,
        };
        write_under(self.settings, place, &rewritten, out)
    }

    /// Returns what is added to the ids in the packet with this number of the source that is forwarded.
    fn offsets_at(&self, number: u64) -> IdOffsets
        ensures { result ≡ offsets_for self.now.settings.codec self.now.ids number }
    {
        match self.settings.codec {
            Codec::Vp8 => self.ids.offsets(number),
            _ => self.ids.begun_offsets(),
        }
    }

    /// Returns what is added to the ids in a packet of the source that is forwarded.
    fn offsets_of(&self, packet: &RtpPacket<'_>) -> IdOffsets
        ensures { result ≡ offsets_for self.now.settings.codec self.now.ids (number_in self.now (packet_of packet.now)) }
    {
        let number = extended(self.numbers.highest(), packet.header.sequence_number);
        self.offsets_at(number)
    }

    /// Writes a packet of the source that is forwarded, under this number.
    fn write_again_as(
        &mut self,
        number: u16,
        packet: &RtpPacket<'_>,
        out: &mut Vec<u8>,
    ) -> Result<(), AllocError>
        requires empty { out.old.items ≡ [] }
        ensures ok { OnOk result (IsWritten (next_packet self.old number (packet_of packet.now)) out.new.items) }
        ensures size { OnOk result (length out.new.items ≡ forwarded_size (packet_of packet.now)) }
        ensures same { self.new ≡ self.old }
        ensures err { OnErr result (out.new.items ≡ []) }
    {
        let place = self.place_at(number, packet);
        self.write_as(self.offsets_of(packet), place, packet, out)?;
        Ok(())
    }

    /// Goes over to the source of a packet, and writes the packet.
    fn begin(
        &mut self,
        now: u64,
        packet: &RtpPacket<'_>,
        out: &mut Vec<u8>,
    ) -> Result<Forwarded, AllocError>
        requires empty { out.old.items ≡ [] }
        requires other { is_source self.old.source packet.now.header.ssrc ≡ false }
        requires wanted { IsTrue (is_source self.old.wanted packet.now.header.ssrc) }
        requires begins { IsTrue (begins_keyframe self.old.settings.codec packet.now.payload.now) }
        ensures ok { IfOk result (λ answer. Forwards now (packet_of packet.now) self.old answer out.new.items self.new) }
        ensures err { OnErr result ((self.new ≡ self.old) × (out.new.items ≡ [])) }
    {
        let header = &packet.header;
        let ticks = ticks_between(self.written_at, now);
        let number = self.numbers.next_number();
        let time = self.times.next_time(ticks);
        let ids = ids_in(self.settings.codec, packet.payload);
        let offsets = self.ids.offsets_switched(ids);
        self.write_as(offsets, Place { number, time }, packet, out)?;
        self.ids.switch(ids);
        let first = 65_536 + u64::from(header.sequence_number);
        self.numbers.switch(first);
        self.latest = first;
        self.times.switch(header.timestamp, ticks);
        self.source = Some(header.ssrc);
        self.written_at = Some(now);
        Ok(Forwarded::Began)
    }

    /// Leaves a packet out that the viewer is not to get, such as one of a layer that it does not want, and replaces what `out` has.
    /// Call it instead of [`Forwarder::write`]. A packet above all others takes no number, so the viewer does not miss it. For a
    /// packet that comes late, `out` has a packet of padding under its number ([`Forwarded::Filled`]). With any other answer `out`
    /// is empty.
    ///
    /// In VP8, PictureIDs close up behind each picture that is left out. Leave out all packets of a picture, or none. The id of a
    /// picture all of whose packets come late stays unused. PictureIDs of VP9 keep their gaps, since differences between pictures count
    /// ids, and a structure names pictures by their ids. It takes 8 bytes for each packet left
    /// out, and for VP8 8 bytes for each picture, at most 65,536 bytes.
    ///
    /// # Errors
    ///
    /// Memory ran out: the forwarder is unchanged, and `out` is empty.
    pub fn leave_out(
        &mut self,
        packet: &RtpPacket<'_>,
        out: &mut Vec<u8>,
    ) -> Result<Forwarded, AllocError>
        ensures ok { IfOk result (λ answer. Leaves (packet_of packet.now) self.old answer out.new.items self.new) }
        ensures size { OnOk result (length out.new.items ≤ 13) }
        ensures err { OnErr result ((self.new ≡ self.old) × (out.new.items ≡ [])) }
    {
        out.clear();
        if !is_source(self.source, packet.header.ssrc) {
            return Ok(Forwarded::OtherSource);
        }
        let number = extended(self.numbers.highest(), packet.header.sequence_number);
        match self.numbers.placed(number) {
            Placed::Sent(sent) => self.close_up(number, sent, packet, out),
            Placed::LeftOut => Ok(Forwarded::LeftOut),
            Placed::TooOld | Placed::Unused(_) => Ok(Forwarded::TooOld),
        }
    }

    /// Leaves out a packet with this number, which could be sent as `sent`.
    fn close_up(
        &mut self,
        number: u64,
        sent: u16,
        packet: &RtpPacket<'_>,
        out: &mut Vec<u8>,
    ) -> Result<Forwarded, AllocError>
        requires source { IsTrue (is_source self.old.source packet.now.header.ssrc) }
        requires number { number ≡ number_in self.old (packet_of packet.now) }
        requires sent { placed self.old.numbers number true ≡ places.Sent sent }
        requires empty { out.old.items ≡ [] }
        ensures ok { IfOk result (λ answer. Leaves (packet_of packet.now) self.old answer out.new.items self.new) }
        ensures err { OnErr result ((self.new ≡ self.old) × (out.new.items ≡ [])) }
    {
        if number > self.numbers.highest() {
            let picture = closing_id(self.settings.codec, packet.payload);
            self.ids.leave_out(&mut self.numbers, number, picture)?;
            return Ok(Forwarded::LeftOut);
        }
        let time = self.times.sent_as(packet.header.timestamp);
        let padding = RtpPacket {
            header: packet.header,
            payload: &[],
            padding: 1,
        };
        write_under(self.settings, Place { number: sent, time }, &padding, out)?;
        Ok(Forwarded::Filled)
    }

    /// Returns the number of the source's packet that was sent, or is to be sent, under this number: the packet to resend if the
    /// viewer requests the number. Take it from a store of the source's packets, and pass it to [`Forwarder::write_again`]. `None`:
    /// there is no such packet, or it is too old.
    pub fn source_of(&self, number: u16) -> Option<u16>
        ensures some { IfSome result (λ low. (n : ℕ) × IsNumberOf self.now number n low) }
        ensures none { IfNone result ((n low : ℕ) → IsNumberOf self.now number n low → ⊥) }
    {
        if self.source.is_none() {
            return None;
        }
        let number = self.numbers.source_of(number)?;
        Some((number % 65_536) as u16)
    }

    /// Returns the packet to resend if the viewer requests this number: that of the store which was sent, or is to be sent, under it.
    /// Pass it to [`Forwarder::write_again`]. `store` has the packets of the source that is forwarded, as they arrived. `None`: there
    /// is no such packet, it is too old, or the store does not have it. Does not allocate.
    pub fn requested<'a>(&self, number: u16, store: &'a History) -> Option<RtpPacket<'a>>
        ensures some { IfSome result (λ p. IsRequested self.now store.now number (packet_of p)) }
        ensures none { IfNone result (IsNotRequested self.now store.now number) }
    {
        let number = self.source_of(number)?;
        let datagram = store.packet(number)?;
        let packet = RtpPacket::parse(datagram).ok()?;
        if !is_source(self.source, packet.header.ssrc) {
            return None;
        }
        Some(packet)
    }

    /// Returns the number of bytes that [`Forwarder::write_again`] writes for a packet, if it writes one.
    pub fn size_again(&self, packet: &RtpPacket<'_>) -> usize
        ensures { result ≡ size_again self.now (packet_of packet.now) }
    {
        match self.settings.retransmissions {
            None => forwarded_size(packet),
            Some(_) => 14 + packet.payload.len(),
        }
    }

    /// Writes a packet of the source again, for a viewer that requested it, and replaces what `out` has. The packet has the number
    /// and the time that it was sent with. If the settings name a stream of retransmissions, it is wrapped (RFC 4588, section 4): it
    /// has the SSRC, the payload type and the next number of that stream, no padding, and its own number in front of the payload.
    /// `false`: the packet is of another source, has no number, or is above the highest number; then `out` is empty.
    ///
    /// Each call writes the packet. Your side limits how often the same number is resent.
    ///
    /// # Errors
    ///
    /// Memory ran out: the forwarder is unchanged, and `out` is empty.
    pub fn write_again(
        &mut self,
        packet: &RtpPacket<'_>,
        out: &mut Vec<u8>,
    ) -> Result<bool, AllocError>
        ensures ok { IfOk result (λ written. Repeats (packet_of packet.now) self.old written out.new.items self.new) }
        ensures size { IfOk result (λ written. IsTrue written → length out.new.items ≡ size_again self.old (packet_of packet.now)) }
        ensures err { OnErr result ((self.new ≡ self.old) × (out.new.items ≡ [])) }
    {
        out.clear();
        if !is_source(self.source, packet.header.ssrc) {
            return Ok(false);
        }
        let number = extended(self.numbers.highest(), packet.header.sequence_number);
        if number > self.numbers.highest() {
            return Ok(false);
        }
        match self.numbers.placed(number) {
            Placed::Sent(sent) => {
                self.resend(sent, packet, out)?;
                Ok(true)
            }
            _ => Ok(false),
        }
    }

    /// Writes the packet that was sent under this number again.
    fn resend(
        &mut self,
        number: u16,
        packet: &RtpPacket<'_>,
        out: &mut Vec<u8>,
    ) -> Result<(), AllocError>
        requires empty { out.old.items ≡ [] }
        ensures ok { OnOk result (IsResent (next_packet self.old number (packet_of packet.now)) self.old out.new.items self.new) }
        ensures size { OnOk result (length out.new.items ≡ size_again self.old (packet_of packet.now)) }
        ensures err { OnErr result ((self.new ≡ self.old) × (out.new.items ≡ [])) }
    {
        match self.settings.retransmissions {
            None => self.write_again_as(number, packet, out),
            Some(stream) => {
                let answer = self.wrap(stream, number, packet, out);
                if answer.is_err() {
                    out.clear();
                    return answer;
                }
                self.next = self.next.wrapping_add(1);
                Ok(())
            }
        }
    }

    /// Writes a packet as a retransmission.
    fn wrap(
        &mut self,
        stream: RetransmissionStream,
        number: u16,
        packet: &RtpPacket<'_>,
        out: &mut Vec<u8>,
    ) -> Result<(), AllocError>
        requires empty { out.old.items ≡ [] }
        requires fits { stream.payload_type < 128 }
        ensures ok { OnOk result (rtp_at out.new.items ≡ Ok (wrapped stream self.old.next (next_packet self.old number (packet_of packet.now)))) }
        ensures size { OnOk result (length out.new.items ≡ 14 + length packet.now.payload.now) }
        ensures same { self.new ≡ self.old }
    {
        let header = PacketHeader {
            marker: packet.header.marker,
            payload_type: stream.payload_type,
            sequence_number: self.next,
            timestamp: self.times.sent_as(packet.header.timestamp),
            ssrc: stream.ssrc,
            csrcs: &[],
            extension: None,
        };
        match self.settings.codec {
            Codec::Vp8 | Codec::Vp9 => {
                let offsets = self.offsets_of(packet);
                rewrite(
                    self.settings.codec,
                    offsets,
                    packet.payload,
                    &mut self.payload,
                )?;
                write_behind_number(header, number, &self.payload, out)
            }
            _ => write_behind_number(header, number, packet.payload, out),
        }
    }

    /// Returns the RTP time of the viewer's stream for an RTP time of a source, as in the source's sender report. With its NTP time
    /// it goes into the sender report of the viewer's stream (RFC 3550, section 6.4.1). `None`: this source is not forwarded.
    pub fn time_for(&self, ssrc: u32, time: u32) -> Option<u32>
        ensures { result ≡ time_for self.now ssrc time }
    {
        if !is_source(self.source, ssrc) {
            return None;
        }
        Some(self.times.sent_as(time))
    }
}
