//! The contents of a handle.

use crate::slot::{TakenPackets, UnitSlot};
use codec_payload_core::buffer::{DepacketizingBuffer, PoppedUnit};
use codec_payload_core::codec::{CodecDepacketizer, CodecExtra, CodecPacketizer};
use codec_payload_core::payloads::Payloads;
use codec_payload_core::red::RedSender;
use codec_payload_core::wire::Frequency;
use codec_payload_feedback::requests::FeedbackSource;
use codec_payload_feedback::transport::TransportReporter;
use codec_payload_feedback_freezes::freezes::Freezes;
use codec_payload_feedback_transport::sent::SentPackets;
use codec_payload_feedback_wait::adaptive_wait::AdaptiveWait;
use codec_payload_receiver::receiver::Receiver as DatagramReceiver;
use codec_payload_sending::sender::Sender as DatagramSender;
use codec_payload_sending_forward::counts::ForwardCounts;
use codec_payload_sending_forward::forwarder::Forwarder;
use codec_payload_sending_history::retransmission::History;
use codec_payload_session::session::Session;

/// A packetizer, and the packets of its latest frame.
#[derive(Drop)]
pub struct FrameSender {
    pub packetizer: CodecPacketizer,
    pub packets: Vec<Vec<u8>>,
    /// How many of the packets were fetched.
    pub taken: usize,
    /// Whether the frame starts a talk spurt, and its packets are marked for it.
    pub marked: bool,
    /// Memory for a frame that is packetized into the output buffer; it is reused.
    pub frame: Payloads,
}

/// A depacketizer, and the unit so far.
#[derive(Drop)]
pub struct Assembler {
    pub depacketizer: CodecDepacketizer,
    pub bytes: Vec<u8>,
    pub extra: CodecExtra,
}

/// A buffer, and the unit that waits for a larger output buffer.
#[derive(Drop)]
pub struct FrameReceiver {
    pub buffer: DepacketizingBuffer,
    pub waiting: UnitSlot,
    pub rate: Frequency,
}

/// A sender of datagrams.
#[derive(Drop)]
pub struct StreamSender {
    pub sender: DatagramSender,
    pub rate: Frequency,
}

/// A receiver of datagrams, the unit that waits for a larger output buffer, the packets of the latest popped unit, and its bytes
/// if they are lent.
#[derive(Drop)]
pub struct StreamReceiver {
    pub receiver: DatagramReceiver,
    pub waiting: UnitSlot,
    /// The bytes that are lent, of the latest unit that was lent. Only the calls for the next unit change them.
    pub lent: Vec<u8>,
    pub taken: TakenPackets,
}

/// A session, the bytes of its latest event, and the packets of the latest unit.
#[derive(Drop)]
pub struct PortSession {
    pub session: Session,
    /// Memory for the next unit. What is in it is unspecified.
    pub unit: PoppedUnit,
    /// The bytes that are lent: of the unit, the RTCP packet or the telephone events of the latest event. No call but the next
    /// poll changes them.
    pub lent: Vec<u8>,
    pub taken: TakenPackets,
}

/// A history of sent packets, and memory for the datagram that is resent; it is reused.
#[derive(Drop)]
pub struct PacketHistory {
    pub history: History,
    pub datagram: Vec<u8>,
}

/// A forwarder to a viewer, what it did so far, and memory for the datagram that it writes; it is reused.
#[derive(Drop)]
pub struct PacketForwarder {
    pub forwarder: Forwarder,
    pub counts: ForwardCounts,
    pub datagram: Vec<u8>,
}

/// A reporter of the arrivals of a transport, who sends its packets, and the packet that waits for a larger output buffer.
#[derive(Drop)]
pub struct PeerReporter {
    pub reporter: TransportReporter,
    pub source: FeedbackSource,
    /// The ticks per second of the caller's clock.
    pub tick_rate: Frequency,
    pub waiting: Option<Vec<u8>>,
}

/// A value behind a handle. Each has its own box, so that no handle takes the memory of the largest type.
#[derive(Drop)]
pub enum Object {
    FrameSender(Box<FrameSender>),
    Assembler(Box<Assembler>),
    FrameReceiver(Box<FrameReceiver>),
    RedSender(Box<RedSender>),
    StreamSender(Box<StreamSender>),
    StreamReceiver(Box<StreamReceiver>),
    PortSession(Box<PortSession>),
    PacketHistory(Box<PacketHistory>),
    PacketForwarder(Box<PacketForwarder>),
    AdaptiveWait(Box<AdaptiveWait>),
    Freezes(Box<Freezes>),
    PeerReporter(Box<PeerReporter>),
    SentPackets(Box<SentPackets>),
}
