//! A sender of FEC.

ghost use Rattle.std.specs.Prelude.{◌≡◌, ◌<◌, ◌+◌, ◌++◌, ◌%◌, ◌∷◌, ℕ, ◌⊎◌, if◌then◌else◌, [], IfErr, IfOk, IfSome, Ok, OnErr, OnOk, Option, Err, length};
ghost use Rattle.codec_payload_base.specs.PayloadLists.{rooms_of};
ghost use Rattle.codec_payload_base.specs.declared.error.PacketError.TheVariants.{OutOfMemory};
ghost use Rattle.codec_payload_rtp.specs.RtpPackets.{FitsHeader, packet_bytes};
ghost use Rattle.codec_payload_rtp.specs.RtpValues.{header_of, packet_of};
ghost use Rattle.codec_payload_sending_fec.specs.Senders.{after_packet, ends_frame, fault_of, fec_of_frame, fec_packet, fec_packets, finished, follow_if, held_if, is_held, new_sender, numbered, payloads_of, protected_bytes, pushed, refusal_of, sent_packet};
ghost use Rattle.codec_payload_sending_fec.specs.StreamNumbers.{is_highest, next_number, noted, sent_as};
ghost use Rattle.codec_payload_sending_fec.specs.declared.fec_sender.FecSendError.TheVariants as faults;

use crate::held_frame::{hold, slices};
use crate::red_packets::{write_media, write_red};
use crate::stream_numbers::StreamNumbers;
use codec_payload_base::error::PacketError;
use codec_payload_base::payloads::{PayloadWriter, Payloads};
use codec_payload_fec::writing::FecWriter;
use codec_payload_fec_receiver::late::{LateIds, plain_bytes};
use codec_payload_rtp::rtp::{PacketHeader, RtpError, RtpPacket};
use std::alloc::{AllocError, Global};
use std::marker::Model;
use thiserror::Error;

/// How many packets of a frame are protected.
const HELD: usize = 512;

/// The largest packet, in bytes.
const LARGEST: usize = 65_547;

/// The settings of a sender of FEC.
#[derive(Clone, Copy, Debug, PartialEq, Eq)]
pub struct FecSenderSettings {
    /// The SSRC of the stream.
    pub ssrc: u32,
    /// The payload type of RED, 0 to 127.
    pub red_type: u8,
    /// The payload type of ULPFEC inside RED, 0 to 127, another one than that of RED.
    pub fec_type: u8,
    /// The number of the first packet.
    pub first_number: u16,
    /// The share of protection. It can be changed later: [`FecSender::set_protection`].
    pub writer: FecWriter,
    /// Which header extensions are filled in after the FEC is made. FEC protects zeros there.
    pub late_ids: LateIds,
}

/// Which setting of a sender of FEC is out of range.
#[derive(Clone, Copy, Debug, PartialEq, Eq, Error)]
pub enum FecSenderError {
    /// The payload type of RED is above 127.
    #[error("RED payload type exceeds 127")]
    RedType,
    /// The payload type of ULPFEC is above 127, or equals that of RED.
    #[error("ULPFEC payload type exceeds 127 or equals the RED payload type")]
    FecType,
}

/// Why a packet was not written.
#[derive(Clone, Copy, Debug, PartialEq, Eq, Error)]
pub enum FecSendError {
    /// It is not an RTP packet.
    #[error("not an RTP packet")]
    Rtp(RtpError),
    /// It has more than 65,547 bytes.
    #[error("packet exceeds 65547 bytes")]
    TooLarge,
    /// It has another SSRC.
    #[error("packet of another stream")]
    OtherStream,
    /// Its payload type is that of RED or of ULPFEC.
    #[error("payload type of RED or ULPFEC")]
    PayloadType,
    /// It comes too late: FEC was made 64 times since.
    #[error("packet comes too late")]
    TooOld,
    /// There was not enough memory.
    #[error("out of memory")]
    OutOfMemory,
}

/// Puts the packets of one stream in RED (RFC 2198), and writes packets of FEC (RFC 5109) behind each frame, between a `Sender` or a
/// `Forwarder` and the socket.
///
/// Media and FEC share the numbers of the stream: a packet has its own number, plus a constant, plus one for each packet of FEC below it.
/// So packets keep their order, a gap stays a gap, and FEC follows its frame. Keep what it writes in a `History` for requests.
#[derive(Drop)]
pub struct FecSender {
    alloc: Global,
    settings: FecSenderSettings,
    numbers: StreamNumbers,
    /// The time of the packet with the highest number.
    time: u32,
    /// The packets since the latest FEC, as FEC protects them.
    frame: Vec<Vec<u8>>,
    /// Memory for a packet of FEC.
    packet: Vec<u8>,
}

impl Model for FecSender {
    ghost use Rattle.std.specs.Prelude.{◌<◌, map};
    ghost use Rattle.codec_payload_fec.specs.Writing.{AreShort};
    ghost use Rattle.codec_payload_sending_fec.specs.Senders.{Sender};

    ghost Value = { Sender };

    ghost view = { λ s. record { settings = s.settings; numbers = s.numbers; time = s.time; frame = map (λ p. p.items) s.frame.items } };

    ghost invariant = { λ s. (s.settings.red_type < 128) × (s.settings.fec_type < 128) × AreShort (map (λ p. p.items) s.frame.items) };
}

/// Returns the first fault of a packet of this length in bytes.
fn fault_of(
    settings: &FecSenderSettings,
    size: usize,
    packet: &RtpPacket<'_>,
) -> Option<FecSendError>
    ensures { result ≡ fault_of settings.now size (packet_of packet.now) }
{
    if size > LARGEST {
        return Some(FecSendError::TooLarge);
    }
    if packet.header.ssrc != settings.ssrc {
        return Some(FecSendError::OtherStream);
    }
    let kind = packet.header.payload_type;
    if kind == settings.red_type || kind == settings.fec_type {
        return Some(FecSendError::PayloadType);
    }
    None
}

/// Returns a packet under another number.
fn numbered<'a>(number: u16, packet: &RtpPacket<'a>) -> RtpPacket<'a>
    requires { FitsHeader (header_of packet.now.header) }
    ensures value { packet_of result ≡ numbered number (packet_of packet.now) }
    ensures fits { FitsHeader (header_of result.header) }
{
    RtpPacket {
        header: PacketHeader {
            sequence_number: number,
            ..packet.header
        },
        ..*packet
    }
}

/// Returns the number after this one.
fn following(number: u16) -> u16
    ensures { result ≡ (number + 1) % 65536 }
{
    number.wrapping_add(1)
}

impl FecSender {
    /// Returns a sender that has written nothing. Does not allocate.
    ///
    /// # Errors
    ///
    /// The first setting that is out of range, in the order of [`FecSenderError`].
    pub fn new(alloc: Global, settings: FecSenderSettings) -> Result<FecSender, FecSenderError>
        ensures ok { IfOk result (λ s. s ≡ new_sender settings) }
        ensures refused { IfSome (refusal_of settings) (λ e. result ≡ Err e) }
        ensures made { IfErr result (λ e. refusal_of settings ≡ Option.Some e) }
    {
        if settings.red_type > 127 {
            return Err(FecSenderError::RedType);
        }
        if settings.fec_type > 127 || settings.fec_type == settings.red_type {
            return Err(FecSenderError::FecType);
        }
        Ok(FecSender {
            alloc,
            settings,
            numbers: StreamNumbers::new(alloc, settings.first_number),
            time: 0,
            frame: Vec::new(alloc),
            packet: Vec::new(alloc),
        })
    }

    /// Changes the share of protection, from the next FEC on.
    pub fn set_protection(&mut self, writer: FecWriter)
        ensures { self.new ≡ record self.old { settings = record self.old.settings { writer = writer } } }
    {
        self.settings.writer = writer;
    }

    /// Returns the settings.
    pub fn settings(&self) -> FecSenderSettings
        ensures { result ≡ self.now.settings }
    {
        self.settings
    }

    /// Returns whether FEC is to be made for a packet with this number, counted without wrap.
    fn is_held(&self, number: u64, packet: &RtpPacket<'_>) -> bool
        ensures { result ≡ is_held self.now number (packet_of packet.now) }
    {
        let writer = self.settings.writer;
        let is_protecting = writer.protection > 0 || writer.keyframe_protection > 0;
        is_protecting
            && !packet.payload.is_empty()
            && !self.numbers.is_late(number)
            && self.frame.len() < HELD
    }

    /// Holds a packet for the FEC of its frame, if FEC is to be made for it.
    fn hold_if(&mut self, is_held: bool, packet: &RtpPacket<'_>) -> Result<(), AllocError>
        requires fits { FitsHeader (header_of packet.now.header) }
        requires short { length (protected_bytes self.old.settings (packet_of packet.now)) < 65548 }
        ensures ok { OnOk result (self.new ≡ record self.old { frame = held_if is_held (protected_bytes self.old.settings (packet_of packet.now)) self.old.frame }) }
        ensures err { OnErr result (self.new ≡ self.old) }
    {
        if !is_held {
            return Ok(());
        }
        let unpadded = RtpPacket {
            padding: 0,
            ..*packet
        };
        let bytes = plain_bytes(self.alloc, &self.settings.late_ids, &unpadded)?;
        hold(&mut self.frame, bytes)
    }

    /// Notes the number and the time of a packet.
    fn note(&mut self, number: u64, time: u32)
        ensures { self.new ≡ record self.old { numbers = noted number self.old.numbers; time = if is_highest self.old.numbers.highest number then time else self.old.time } }
    {
        if self.numbers.is_highest(number) {
            self.time = time;
        }
        self.numbers.note(number);
    }

    /// Writes a packet under the number that it gets, and takes it into its frame.
    fn put(
        &mut self,
        number: u64,
        packet: &RtpPacket<'_>,
        out: &mut Vec<u8>,
    ) -> Result<(), AllocError>
        requires fits { FitsHeader (header_of packet.now.header) }
        requires short { (n : ℕ) → length (protected_bytes self.old.settings (numbered n (packet_of packet.now))) < 65548 }
        ensures ok { OnOk result ((out.new.items ≡ out.old.items ++ packet_bytes (sent_packet self.old.settings.red_type (numbered (sent_as self.old.numbers number) (packet_of packet.now)))) × (self.new ≡ after_packet self.old number (packet_of packet.now))) }
        ensures err { OnErr result (self.new ≡ self.old) }
    {
        let sent = numbered(self.numbers.sent_as(number), packet);
        write_media(self.settings.red_type, &sent, out)?;
        self.hold_if(self.is_held(number, packet), &sent)?;
        self.note(number, packet.header.timestamp);
        Ok(())
    }

    /// Does the same for an empty `out`, which stays empty if memory runs out.
    fn put_or_clear(
        &mut self,
        number: u64,
        packet: &RtpPacket<'_>,
        out: &mut Vec<u8>,
    ) -> Result<(), FecSendError>
        requires fits { FitsHeader (header_of packet.now.header) }
        requires short { (n : ℕ) → length (protected_bytes self.old.settings (numbered n (packet_of packet.now))) < 65548 }
        requires empty { out.old.items ≡ [] }
        ensures ok { OnOk result ((out.new.items ≡ packet_bytes (sent_packet self.old.settings.red_type (numbered (sent_as self.old.numbers number) (packet_of packet.now)))) × (self.new ≡ after_packet self.old number (packet_of packet.now))) }
        ensures err { OnErr result ((self.new ≡ self.old) × (out.new.items ≡ [])) }
        ensures fault { IfErr result (λ fault. fault ≡ faults.OutOfMemory) }
    {
        if self.put(number, packet, out).is_err() {
            out.clear();
            return Err(FecSendError::OutOfMemory);
        }
        Ok(())
    }

    /// Returns whether a packet ends its frame.
    fn ends_frame(&self, number: u64, packet: &RtpPacket<'_>) -> bool
        ensures { result ≡ ends_frame self.now number (packet_of packet.now) }
    {
        packet.header.marker && self.numbers.is_highest(number)
    }

    /// Writes a packet of the media to `out`, and replaces what `out` has. The packet gets the number of the stream, and is in RED with one
    /// block. It keeps its header extension and CSRCs, and loses its padding. A packet without a payload, such as padding, is written as it
    /// is under its number of the stream, and is not protected.
    ///
    /// Returns whether the packet ends its frame: it has the marker and the highest number so far. Call [`FecSender::finish_frame`] then.
    /// If the last packet of a frame comes late, its FEC comes behind the next frame.
    ///
    /// The packet is held for the FEC of its frame: a copy of it, and one allocation. At most 512 packets are held; later ones of the frame
    /// are not protected. A packet that comes after the FEC of its frame gets its number and is not protected. If both shares of protection
    /// are 0, none is held.
    ///
    /// # Errors
    ///
    /// The first fault in the order of [`FecSendError`]. The sender is then unchanged, uses no number, and `out` is empty.
    pub fn push(&mut self, datagram: &[u8], out: &mut Vec<u8>) -> Result<bool, FecSendError>
        ensures ok { IfOk result (λ ends. pushed datagram.now self.old ≡ Ok (record { bytes = out.new.items; ends = ends; sender = self.new })) }
        ensures err { OnErr result ((self.new ≡ self.old) × (out.new.items ≡ [])) }
        ensures fault { IfErr result (λ fault. (fault ≡ faults.OutOfMemory) ⊎ (pushed datagram.now self.old ≡ Err fault)) }
    {
        out.clear();
        let packet = match RtpPacket::parse(datagram) {
            Ok(packet) => packet,
            Err(fault) => return Err(FecSendError::Rtp(fault)),
        };
        match fault_of(&self.settings, datagram.len(), &packet) {
            Some(fault) => return Err(fault),
            None => {}
        }
        let number = self.numbers.counted(packet.header.sequence_number);
        if self.numbers.is_too_old(number) {
            return Err(FecSendError::TooOld);
        }
        let ends = self.ends_frame(number, &packet);
        self.put_or_clear(number, &packet, out)?;
        Ok(ends)
    }

    /// Returns the payloads of the FEC of the frame.
    fn make(&self, is_keyframe: bool) -> Result<Payloads, PacketError>
        ensures ok { IfOk result (λ p. p.payloads ≡ payloads_of is_keyframe self.now) }
        ensures fault { IfErr result (λ fault. fault ≡ OutOfMemory) }
    {
        let mut payloads = Payloads::new(self.alloc, 0, 0)?;
        let packets = slices(self.alloc, self.frame.as_slice())?;
        self.settings
            .writer
            .write(self.alloc, is_keyframe, packets.as_slice(), &mut payloads)?;
        Ok(payloads)
    }

    /// Appends a packet of FEC in RED.
    fn put_fec(
        &mut self,
        number: u16,
        payload: &[u8],
        out: &mut Payloads,
    ) -> Result<(), PacketError>
        ensures ok { OnOk result (out.new.payloads ≡ out.old.payloads ++ packet_bytes (fec_packet self.old number payload.now) ∷ []) }
        ensures fault { IfErr result (λ fault. fault ≡ OutOfMemory) }
        ensures rooms { rooms_of out.new ≡ rooms_of out.old }
        ensures same { self.new ≡ self.old }
    {
        let header = PacketHeader {
            marker: false,
            payload_type: self.settings.red_type,
            sequence_number: number,
            timestamp: self.time,
            ssrc: self.settings.ssrc,
            csrcs: &[],
            extension: None,
        };
        self.packet.clear();
        write_red(&header, self.settings.fec_type, payload, &mut self.packet)?;
        out.begin(self.packet.len())?;
        out.put(&mut (), self.packet.as_slice())?;
        out.end(())
    }

    /// Appends packets of FEC in RED, under the next numbers.
    fn put_all(&mut self, fec: &Payloads, out: &mut Payloads) -> Result<(), PacketError>
        requires { out.old.payloads ≡ [] }
        ensures ok { OnOk result (out.new.payloads ≡ fec_packets self.old (next_number self.old.numbers) fec.now.payloads) }
        ensures fault { IfErr result (λ fault. fault ≡ OutOfMemory) }
        ensures rooms { rooms_of out.new ≡ rooms_of out.old }
        ensures same { self.new ≡ self.old }
    {
        let mut number = self.numbers.next_number();
        for place in 0..fec.len() {
            self.put_fec(number, fec.get(place), out)?;
            let next = following(number);
            number = next;
        }
        Ok(())
    }

    /// Appends the FEC of the frame, and begins the next frame.
    fn finish(&mut self, is_keyframe: bool, out: &mut Payloads) -> Result<(), PacketError>
        requires { out.old.payloads ≡ [] }
        ensures ok { OnOk result ((out.new.payloads ≡ fec_of_frame is_keyframe self.old) × (self.new ≡ finished is_keyframe self.old)) }
        ensures err { OnErr result (self.new ≡ self.old) }
        ensures fault { IfErr result (λ fault. fault ≡ OutOfMemory) }
        ensures rooms { rooms_of out.new ≡ rooms_of out.old }
    {
        let fec = self.make(is_keyframe)?;
        self.put_all(&fec, out)?;
        if !fec.is_empty() {
            self.numbers.follow((fec.len() % 65_536) as u16)?;
        }
        self.frame.clear();
        Ok(())
    }

    /// Writes the FEC for the packets since the last call, and replaces what `out` has. Each group of at most 48 packets with consecutive
    /// numbers gets k = (packets * protection + 128) / 256 datagrams, at least one if the protection is above 0. They are packets of RED
    /// under the numbers after the highest one, with the time of the packet that has the highest number.
    ///
    /// It allocates for the FEC. [`FecWriter::write`] says which packets each one protects.
    ///
    /// # Errors
    ///
    /// Out of memory: the sender is unchanged, uses no number, and `out` has no datagrams.
    pub fn finish_frame(&mut self, is_keyframe: bool, out: &mut Payloads) -> Result<(), PacketError>
        ensures ok { OnOk result ((out.new.payloads ≡ fec_of_frame is_keyframe self.old) × (self.new ≡ finished is_keyframe self.old)) }
        ensures err { OnErr result ((self.new ≡ self.old) × (out.new.payloads ≡ [])) }
        ensures fault { IfErr result (λ fault. fault ≡ OutOfMemory) }
        ensures rooms { rooms_of out.new ≡ rooms_of out.old }
    {
        out.clear();
        let answer = self.finish(is_keyframe, out);
        out.settle(answer)
    }
}
