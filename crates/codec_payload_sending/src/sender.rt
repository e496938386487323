//! Sends the samples of one stream as datagrams.

ghost use Rattle.std.specs.Fn.{FnOnceReturnsAtMut};
ghost use Rattle.std.specs.Prelude.{◌≡◌, ◌+◌, ◌%◌, ◌^◌, ◌<◌, ◌≤◌, ◌∷◌, ℕ, Bool, List, [], Option, true, false, if◌then◌else◌, nat_lt, length, IfOk, IfErr, IfSome, OnOk, OnErr, IsTrue, Ok, Err, MatchResult, slice_index_or, slice_set};
ghost use Rattle.std.specs.Option.{option_map};
ghost use Rattle.codec_payload_base.specs.Answers.{IsWritten, written};
ghost use Rattle.codec_payload_base.specs.PayloadLists.{rooms_of};
ghost use Rattle.codec_payload_base.specs.Time.{rebased};
ghost use Rattle.codec_payload_base.specs.declared.error.PacketError.TheVariants.{OutOfMemory};
ghost use Rattle.codec_payload_codec.specs.Packetizers.{PacketizerStep, is_built_in, packetizer_state_of};
ghost use Rattle.codec_payload_codec.specs.declared.codec.packetizer.CodecPacketizer.TheVariants.{Boxed};
ghost use Rattle.codec_payload_rtp.specs.ExtensionWriting.{ids_fit};
ghost use Rattle.codec_payload_rtp.specs.RtpValues.{extension_of, header_of};
ghost use Rattle.codec_payload_sending.specs.Datagrams.{IsHeader, IsHeadedAt, IsMarker, header_at, header_with, octets_in, sample_of, time_of};
ghost use Rattle.codec_payload_sending.specs.OwnDatagrams.{AreAsked, IsAskedAt, OwnSample};
ghost use Rattle.codec_payload_sending.specs.Senders.{IsLent, IsLentFrom, Sends, Refuses, nothing_sent, refusal_of, report_of, sender_by, with_datagram, with_format};
ghost use Rattle.codec_payload_sending.specs.declared.sender.SenderError.TheVariants as refusals;

use codec_payload_base::error::PacketError;
use codec_payload_base::payloads::Payloads;
use codec_payload_base::wire::{ExtensionValues, Frequency, MediaTime};
use codec_payload_codec::codec::{CodecPacketizer, NoBox, Packetizer};
use codec_payload_rtp::rtp::{HeaderExtension, PacketHeader};
use codec_payload_rtp::values::ExtensionIds;
use std::alloc::Global;
use std::marker::Model;
use thiserror::Error;

/// The highest number of bytes of a header: 12, and 304 for an extension with all values.
pub const HEADROOM: usize = 316;

/// The settings of a sender.
#[derive(Clone, Copy, Debug)]
pub struct SenderSettings {
    /// The synchronization source: any number, chosen at random (RFC 3550, section 8).
    pub ssrc: u32,
    /// The payload type, 0 to 127.
    pub payload_type: u8,
    /// The sequence number of the first packet: any number, chosen at random (RFC 3550, section 5.1).
    pub first_number: u16,
    /// The rate of the RTP clock.
    pub clock_rate: Frequency,
    /// The highest number of bytes of a payload. A datagram also has a header of 12 to 316 bytes, and the tag that you write after
    /// the payload.
    pub mtu: usize,
    /// The number of free bytes after each datagram, for a tag (RFC 3711, section 3.1): 0 to 65,535.
    pub tailroom: usize,
    /// The ids of header extensions. Values without an id are not sent.
    pub extension_ids: ExtensionIds,
}

/// Why a sender was not made.
#[derive(Clone, Copy, Debug, PartialEq, Eq, Error)]
pub enum SenderError {
    /// The payload type is above 127.
    #[error("the payload type is above 127")]
    PayloadType,
    /// The tailroom is above 65,535 bytes.
    #[error("tailroom exceeds 65535 bytes")]
    Tailroom,
    /// The id of a header extension is 0, or two ids are equal.
    #[error("header extension id is 0 or used twice")]
    ExtensionIds,
    /// Out of memory.
    #[error("out of memory")]
    OutOfMemory,
}

/// A media frame with its time, for one call of [`Sender::send`].
#[derive(Clone, Copy, Debug)]
pub struct Sample<'a> {
    /// The time of the frame, by any clock rate.
    pub rtp_time: MediaTime,
    /// The bytes of the frame.
    pub bytes: &'a [u8],
    /// Whether the sample is the first after a silence.
    pub start_of_talk_spurt: bool,
    /// The values of header extensions. [`ExtensionValues::for_packet`] says which packets carry a value.
    pub ext_vals: ExtensionValues,
}

/// The counts of a sender report (RFC 3550, section 6.4.1).
#[derive(Clone, Copy, Debug, PartialEq, Eq)]
pub struct Counts {
    /// The number of sent packets, modulo 2^32.
    pub packets: u32,
    /// The number of payload bytes, modulo 2^32.
    pub octets: u32,
    /// The RTP time of the last sample, or `None` before the first.
    pub rtp_time: Option<u32>,
}

/// The fields of a sender report (RFC 3550, section 6.4.1), except the NTP time, which your clock has.
#[derive(Clone, Copy, Debug, PartialEq, Eq)]
pub struct Report {
    /// The SSRC of the sender.
    pub ssrc: u32,
    /// The RTP time of the moment of the report.
    pub rtp_time: u32,
    /// The sender's packet count, modulo 2^32.
    pub packets: u32,
    /// The sender's octet count: bytes of payload, modulo 2^32.
    pub octets: u32,
}

/// The header fields that all packets of a stream share, and the number of the next packet.
#[derive(Clone, Copy, Debug)]
pub(crate) struct Outgoing {
    ssrc: u32,
    payload_type: u8,
    clock_rate: Frequency,
    ids: ExtensionIds,
    number: u16,
}

/// The header fields of one packet.
#[derive(Clone, Copy, Debug)]
pub(crate) struct Fields {
    marker: bool,
    number: u16,
    time: u32,
}

/// The payloads with their headers, and two buffers in which a header and its extension are written first.
#[derive(Drop)]
struct Packets {
    out: Payloads,
    header: Vec<u8>,
    extension: Vec<u8>,
}

/// Turns the samples of one stream into datagrams. The datagrams of a sample stay available until the next sample is sent.
///
/// Each datagram is an RTP packet (RFC 3550) without CSRCs and padding. The sender writes the header in front of the payload, in
/// place. It reuses its memory, so calls do not allocate after the largest sample was sent. It opens no socket and reads no clock.
#[derive(Drop)]
pub struct Sender<B = NoBox> {
    alloc: Global,
    packetizer: CodecPacketizer<B>,
    mtu: usize,
    stream: Outgoing,
    counts: Counts,
    packets: Packets,
}

impl<B> Model for Sender<B> {
    ghost use Rattle.std.specs.Prelude.{◌≡◌, ◌<◌, IsTrue};
    ghost use Rattle.codec_payload_codec.specs.Packetizers.{packetizer_state_of};
    ghost use Rattle.codec_payload_rtp.specs.ExtensionWriting.{ids_fit};
    ghost use Rattle.codec_payload_sending.specs.Datagrams.{joined};
    ghost use Rattle.codec_payload_sending.specs.Senders.{Sending};

    ghost Value = { Sending };

    ghost view = { λ s. record {
      packetizer = packetizer_state_of s.packetizer;
      mtu = s.mtu;
      stream = s.stream;
      tailroom = s.packets.out.tailroom;
      counts = s.counts;
      datagrams = joined s.packets.out.headers s.packets.out.payloads;
    } };

    ghost invariant = { λ s. (s.packets.out.headroom ≡ 316) × (s.stream.payload_type < 128) × IsTrue (ids_fit s.stream.ids) };
}

/// Returns the extension with this profile, or `None` without a profile.
fn extension_by(profile: Option<u16>, bytes: &[u8]) -> Option<HeaderExtension<'_>>
    ensures { extension_of result ≡ option_map (λ p. record { profile = p; bytes = bytes.now }) profile }
{
    match profile {
        Some(profile) => Some(HeaderExtension { profile, bytes }),
        None => None,
    }
}

/// Returns the header of a packet of the stream, with this extension.
fn header_by<'a>(
    stream: &Outgoing,
    fields: Fields,
    extension: Option<HeaderExtension<'a>>,
) -> PacketHeader<'a>
    ensures { header_of result ≡ record { marker = fields.marker; payload_type = stream.now.payload_type; sequence_number = fields.number; timestamp = fields.time; ssrc = stream.now.ssrc; csrcs = []; extension = extension_of extension.entry } }
{
    PacketHeader {
        marker: fields.marker,
        payload_type: stream.payload_type,
        sequence_number: fields.number,
        timestamp: fields.time,
        ssrc: stream.ssrc,
        csrcs: &[],
        extension,
    }
}

/// Writes the header of a packet of the stream to `out`, and its extension to `words`. Both replace the previous bytes.
fn write_header(
    stream: &Outgoing,
    fields: Fields,
    values: &ExtensionValues,
    words: &mut Vec<u8>,
    out: &mut Vec<u8>,
) -> Result<(), PacketError>
    requires payload_type { stream.now.payload_type < 128 }
    requires ids { IsTrue (ids_fit stream.now.ids) }
    ensures ok { OnOk result (IsHeader out.new.items (header_with stream.now fields values.now)) }
    ensures few { OnOk result (length out.new.items ≤ 316) }
    ensures fault { IfErr result (λ fault. fault ≡ OutOfMemory) }
{
    let profile = stream.ids.write(values, words)?;
    let header = header_by(stream, fields, extension_by(profile, words));
    out.clear();
    header.write(out)?;
    Ok(())
}

/// Returns a time by the RTP clock of the stream, modulo 2^32.
fn rtp_time_at(stream: &Outgoing, time: MediaTime) -> u32
    ensures { result ≡ (rebased time stream.now.clock_rate).numer % 2 ^ 32 }
{
    (time.rebase(stream.clock_rate).numer() % (1 << 32)) as u32
}

/// Returns the RTP time of a sample.
fn time_of(stream: &Outgoing, sample: &Sample<'_>) -> u32
    ensures { result ≡ time_of stream.now (sample_of sample.now) }
{
    rtp_time_at(stream, sample.rtp_time)
}

/// Packetizes a frame into reused memory. A custom packetizer stays a custom packetizer.
fn packetize_sample<B: Packetizer>(
    packetizer: &mut CodecPacketizer<B>,
    alloc: Global,
    mtu: usize,
    bytes: &[u8],
    out: &mut Payloads,
) -> Result<(), PacketError>
    ensures built_in { is_built_in (packetizer_state_of packetizer.old) ≡ true → PacketizerStep (packetizer_state_of packetizer.old) mtu bytes.now (written result out.new.payloads) (packetizer_state_of packetizer.new) }
    ensures own { (before : B) → packetizer.old ≡ Boxed before → (after : B) × (packetizer.new ≡ Boxed after)
        × IsWritten (λ answer. B.packetize_step before mtu bytes.now answer (B.state after)) result out.new.payloads }
    ensures fault { OnErr result (out.new.payloads ≡ []) }
    ensures rooms { rooms_of out.new ≡ rooms_of out.old }
{
    if let CodecPacketizer::Boxed(own) = packetizer {
        return own.packetize_into(alloc, mtu, bytes, out);
    }
    packetizer.packetize_into(alloc, mtu, bytes, out)
}

/// Returns whether the packet at a place has the marker bit.
fn is_marked<B: Packetizer>(
    packetizer: &mut CodecPacketizer<B>,
    sample: &Sample<'_>,
    place: usize,
    out: &Payloads,
) -> bool
    requires { place < length out.now.payloads }
    ensures marker { IsMarker (packetizer_state_of packetizer.old) (sample_of sample.now) place (length out.now.payloads) result }
    ensures own { (before : B) → packetizer.old ≡ Boxed before → (after : B) × (packetizer.new ≡ Boxed after)
        × IsAskedAt B.state B.marker_step B.marks_spurts (sample_of sample.now) out.now.payloads place before result after }
    ensures same { packetizer_state_of packetizer.new ≡ packetizer_state_of packetizer.old }
{
    let count = out.len();
    let last = place + 1 == count;
    let starts = packetizer.marks_talkspurt() && sample.start_of_talk_spurt;
    let payload = out.get(place);
    if place == 0 {
        return packetizer.is_marker(payload, None, last) || starts;
    }
    packetizer.is_marker(payload, Some(out.get(place - 1)), last) || starts
}

/// Writes the header of the packet at a place in front of its payload.
fn put_header<B: Packetizer>(
    packetizer: &mut CodecPacketizer<B>,
    stream: &Outgoing,
    sample: &Sample<'_>,
    place: usize,
    packets: &mut Packets,
) -> Result<(), PacketError>
    requires room { packets.old.out.headroom ≡ 316 }
    requires place { place < length packets.old.out.payloads }
    requires payload_type { stream.now.payload_type < 128 }
    requires ids { IsTrue (ids_fit stream.now.ids) }
    ensures ok { OnOk result ((header : List ℕ) × IsHeadedAt stream.now (packetizer_state_of packetizer.old) (sample_of sample.now) (length packets.old.out.payloads) place header
        × (packets.new.out.headers ≡ slice_set packets.old.out.headers place header)) }
    ensures own { (before : B) → packetizer.old ≡ Boxed before → (after : B) × (packetizer.new ≡ Boxed after) × (marker : Bool)
        × IsAskedAt B.state B.marker_step B.marks_spurts (sample_of sample.now) packets.old.out.payloads place before marker after
        × OnOk result ((header : List ℕ) × IsHeader header (header_at stream.now (sample_of sample.now) place (length packets.old.out.payloads) marker)
        × (packets.new.out.headers ≡ slice_set packets.old.out.headers place header)) }
    ensures same { packetizer_state_of packetizer.new ≡ packetizer_state_of packetizer.old }
    ensures rest { packets.new.out ≡ record packets.old.out { headers = packets.new.out.headers } }
    ensures fault { IfErr result (λ fault. fault ≡ OutOfMemory) }
{
    let marker = is_marked(packetizer, sample, place, &packets.out);
    let fields = Fields {
        marker,
        number: stream.number.wrapping_add((place % 65_536) as u16),
        time: time_of(stream, sample),
    };
    let values = sample.ext_vals.for_packet(place, packets.out.len());
    write_header(
        stream,
        fields,
        &values,
        &mut packets.extension,
        &mut packets.header,
    )?;
    packets.out.put_header(place, &packets.header);
    Ok(())
}

/// Writes the headers of all packets of a sample in front of their payloads.
fn put_headers<B: Packetizer>(
    packetizer: &mut CodecPacketizer<B>,
    stream: &Outgoing,
    sample: &Sample<'_>,
    packets: &mut Packets,
) -> Result<(), PacketError>
    requires room { packets.old.out.headroom ≡ 316 }
    requires payload_type { stream.now.payload_type < 128 }
    requires ids { IsTrue (ids_fit stream.now.ids) }
    ensures ok { OnOk result ((place : ℕ) → place < length packets.old.out.payloads
        → IsHeadedAt stream.now (packetizer_state_of packetizer.old) (sample_of sample.now) (length packets.old.out.payloads) place (slice_index_or packets.new.out.headers place [])) }
    ensures own { (before : B) → packetizer.old ≡ Boxed before → (after : B) × (packetizer.new ≡ Boxed after)
        × MatchResult result (λ _. AreAsked B.state B.marker_step B.marks_spurts (sample_of sample.now) packets.old.out.payloads
        (λ place marker. IsHeader (slice_index_or packets.new.out.headers place []) (header_at stream.now (sample_of sample.now) place (length packets.old.out.payloads) marker))
        (length packets.old.out.payloads) before after)
        (λ _. (n : ℕ) × (n ≤ length packets.old.out.payloads) × AreAsked B.state B.marker_step B.marks_spurts (sample_of sample.now) packets.old.out.payloads (λ _ _. Unit {0}) n before after) }
    ensures same { packetizer_state_of packetizer.new ≡ packetizer_state_of packetizer.old }
    ensures rest { packets.new.out ≡ record packets.old.out { headers = packets.new.out.headers } }
    ensures fault { IfErr result (λ fault. fault ≡ OutOfMemory) }
{
    for place in 0..packets.out.len() {
        put_header(packetizer, stream, sample, place, packets)?;
    }
    Ok(())
}

/// Returns the number of bytes of all payloads, modulo 2^32.
fn octets_in(out: &Payloads) -> u32
    ensures { result ≡ octets_in out.now.payloads % 2 ^ 32 }
{
    let mut octets: u32 = 0;
    for place in 0..out.len() {
        octets = octets.wrapping_add((out.get(place).len() % (1 << 32)) as u32);
    }
    octets
}

/// Lends the region from `front` on to `change`, and returns the result of `change`.
fn lend<R, F: FnOnce(&mut [u8]) -> R>(region: &mut [u8], front: usize, change: F) -> R
    requires callable { F.IsAlwaysCallable change }
    ensures { IsLentFrom (FnOnceReturnsAtMut F.FnOnce change) front region.old result region.new }
{
    let from = front.min(region.len());
    change(&mut region[from..])
}

impl<B: Packetizer> Sender<B> {
    /// Makes a sender with this packetizer. The sender checks the settings in their order, and allocates memory for the longest
    /// header.
    ///
    /// # Errors
    ///
    /// - `PayloadType`, `Tailroom`, `ExtensionIds`: the first setting that is out of range.
    /// - `OutOfMemory`: all settings are in range, but memory ran out.
    pub fn new(
        alloc: Global,
        packetizer: CodecPacketizer<B>,
        settings: SenderSettings,
    ) -> Result<Self, SenderError>
        ensures ok { IfOk result (λ s. s ≡ sender_by settings (packetizer_state_of packetizer)) }
        // A setting is out of range.
        ensures refused { IfSome (refusal_of settings) (λ e. result ≡ Err e) }
        // All settings are in range.
        ensures made { refusal_of settings ≡ Option.None → IfErr result (λ e. e ≡ refusals.OutOfMemory) }
    {
        if settings.payload_type > 127 {
            return Err(SenderError::PayloadType);
        }
        if settings.tailroom > 65_535 {
            return Err(SenderError::Tailroom);
        }
        if !settings.extension_ids.fit() {
            return Err(SenderError::ExtensionIds);
        }
        let Ok(packets) = empty_packets(alloc, settings.tailroom) else {
            return Err(SenderError::OutOfMemory);
        };
        Ok(Sender {
            alloc,
            packetizer,
            mtu: settings.mtu,
            stream: stream_by(&settings),
            counts: no_counts(),
            packets,
        })
    }

    /// Packetizes a sample. Its datagrams replace the datagrams of the previous sample: see [`Sender::datagram`]. If the
    /// packetizer skips the sample, the sender has no datagrams.
    ///
    /// # Errors
    ///
    /// A fault of the packetizer, or out of memory. Then the sender has no datagrams, and the sequence number and the counts are
    /// unchanged. If memory ran out, the packetizer may have advanced.
    pub fn send(&mut self, sample: &Sample<'_>) -> Result<(), PacketError>
        ensures ok { OnOk result (Sends self.old (sample_of sample.now) self.new) }
        ensures err { IfErr result (λ fault. Refuses self.old (sample_of sample.now) fault self.new) }
        // A custom packetizer is called once for the payloads, and once for each marker.
        ensures own { is_built_in self.old.packetizer ≡ false → (before : B) × (after : B)
            × OwnSample B.state B.packetize_step B.marker_step B.marks_spurts self.old.mtu self.old.stream (sample_of sample.now) before result after self.new.datagrams }
    {
        packetize_sample(
            &mut self.packetizer,
            self.alloc,
            self.mtu,
            sample.bytes,
            &mut self.packets.out,
        )?;
        let answer = put_headers(
            &mut self.packetizer,
            &self.stream,
            sample,
            &mut self.packets,
        );
        self.packets.out.settle(answer)?;
        let count = self.packets.out.len();
        self.counts = Counts {
            packets: self.counts.packets.wrapping_add((count % (1 << 32)) as u32),
            octets: self
                .counts
                .octets
                .wrapping_add(octets_in(&self.packets.out)),
            rtp_time: Some(time_of(&self.stream, sample)),
        };
        self.stream.number = self.stream.number.wrapping_add((count % 65_536) as u16);
        Ok(())
    }

    /// Returns the number of datagrams of the last sample.
    pub fn len(&self) -> usize
        ensures { result ≡ length self.now.datagrams }
    {
        self.packets.out.len()
    }

    /// Returns the datagram at a place: below [`len`](Self::len), from 0.
    pub fn datagram(&self, place: usize) -> &[u8]
        requires { place < length self.now.datagrams }
        ensures { result.now ≡ slice_index_or self.now.datagrams place [] }
    {
        self.packets.out.packet(place)
    }

    /// Lends the datagram at a place with the [`tailroom`](Self::tailroom) after it to `change`, and returns the result of `change`.
    ///
    /// SRTP encrypts the payload in place and writes its tag after it (RFC 3711, section 3.1). Send the datagram and its tag from
    /// within `change`: the bytes in the tailroom are not kept. The datagram is then the bytes that `change` left in front of the
    /// tailroom; everything else is unchanged. Copies nothing, and does not allocate.
    pub fn with_datagram<R, F: FnOnce(&mut [u8]) -> R>(&mut self, place: usize, change: F) -> R
        requires place { place < length self.old.datagrams }
        requires callable { F.IsAlwaysCallable change }
        ensures { (before : List ℕ) × (after : List ℕ) × IsLent self.old place before × (length after ≡ length before)
            × FnOnceReturnsAtMut F.FnOnce change before result after × (self.new ≡ with_datagram self.old place after) }
    {
        // Headers fit into the headroom, and the lent region begins with it.
        let front = HEADROOM.saturating_sub(self.packets.out.header(place).len());
        self.packets.out.with_packet(
            place,
            |region|
                requires callable { F.IsAlwaysCallable change }
                ensures lent { IsLentFrom (FnOnceReturnsAtMut F.FnOnce change) front region.old result region.new }
            { lend(region, front, change) },
        )
    }

    /// Returns the number of free bytes after each datagram.
    pub fn tailroom(&self) -> usize
        ensures { result ≡ self.now.tailroom }
    {
        self.packets.out.tailroom()
    }

    /// Returns the sequence number of the next packet.
    pub fn next_number(&self) -> u16
        ensures { result ≡ self.now.stream.number }
    {
        self.stream.number
    }

    /// Continues the stream in another format: with this packetizer, payload type (0 to 127) and rate of the RTP clock. Sequence
    /// numbers, SSRC, counts, MTU and extension ids continue, and the datagrams of the previous sample stay.
    ///
    /// RTP times are the times of the samples by the new rate. With the same rate they continue. With another rate receivers lose
    /// the clock of the stream, so RFC 7160, section 4.1, requires another SSRC: make another sender.
    ///
    /// # Errors
    ///
    /// `PayloadType`: the payload type is above 127. The sender is unchanged.
    pub fn set_format(
        &mut self,
        packetizer: CodecPacketizer<B>,
        payload_type: u8,
        clock_rate: Frequency,
    ) -> Result<(), SenderError>
        ensures ok { OnOk result (self.new ≡ with_format self.old (packetizer_state_of packetizer) payload_type clock_rate) }
        ensures err { OnErr result (self.new ≡ self.old) }
        ensures refused { result ≡ if nat_lt 127 payload_type then Err refusals.PayloadType else Ok tt }
    {
        if payload_type > 127 {
            return Err(SenderError::PayloadType);
        }
        self.packetizer = packetizer;
        self.stream.payload_type = payload_type;
        self.stream.clock_rate = clock_rate;
        Ok(())
    }

    /// Returns the fields of a sender report for the moment `now` on the time line of the samples.
    ///
    /// The RTP time of the report is the same moment as its NTP time (RFC 3550, section 6.4.1). Your clock has the NTP time. The
    /// moment may be before or after the last sample.
    pub fn report(&self, now: MediaTime) -> Report
        ensures { result ≡ report_of self.now now }
    {
        Report {
            ssrc: self.stream.ssrc,
            rtp_time: rtp_time_at(&self.stream, now),
            packets: self.counts.packets,
            octets: self.counts.octets,
        }
    }

    /// Returns the counts for sender reports.
    pub fn counts(&self) -> Counts
        ensures { result ≡ self.now.counts }
    {
        self.counts
    }
}

/// Returns the shared fields of a stream with these settings.
fn stream_by(settings: &SenderSettings) -> Outgoing
    ensures { result ≡ record { ssrc = settings.now.ssrc; payload_type = settings.now.payload_type; clock_rate = settings.now.clock_rate; ids = settings.now.extension_ids; number = settings.now.first_number } }
{
    Outgoing {
        ssrc: settings.ssrc,
        payload_type: settings.payload_type,
        clock_rate: settings.clock_rate,
        ids: settings.extension_ids,
        number: settings.first_number,
    }
}

/// Returns the counts of a new sender.
fn no_counts() -> Counts
    ensures { result ≡ nothing_sent }
{
    Counts {
        packets: 0,
        octets: 0,
        rtp_time: None,
    }
}

/// Returns an empty list of packets, with room for the longest header, and `tailroom` free bytes after each packet.
fn empty_packets(alloc: Global, tailroom: usize) -> Result<Packets, PacketError>
    requires { tailroom ≤ 65535 }
    ensures { IfOk result (λ p. p.out ≡ record { headroom = 316; tailroom = tailroom; headers = []; payloads = []; begun = [] }) }
{
    Ok(Packets {
        out: Payloads::new(alloc, HEADROOM, tailroom)?,
        header: Vec::with_capacity(alloc, HEADROOM)?,
        extension: Vec::with_capacity(alloc, HEADROOM)?,
    })
}
