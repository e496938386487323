//! Feedback messages for congestion control in compound RTCP packets.

ghost use Rattle.std.specs.Prelude.{◌≡◌};
ghost use Rattle.codec_payload_base.specs.Answers.{Finds};
ghost use Rattle.codec_payload_rtcp.specs.Compound.{is_full};
ghost use Rattle.codec_payload_rtcp.specs.RtcpValues.{packet_of};
ghost use Rattle.codec_payload_rtcp.specs.Steps.{told};
ghost use Rattle.codec_payload_feedback_transport.specs.Messages.{feedback_of, message_at, message_in, messages_at, messages_left, type_of_kind};

use codec_payload_rtcp::compound::{CompoundRule, Packets, read_compound};
use codec_payload_rtcp::packet::{RtcpError, RtcpPacket};
use std::marker::Model;

/// Which feedback messages are read: both have format 15.
#[derive(Clone, Copy, Debug, PartialEq, Eq)]
pub enum MessageKind {
    /// Transport-wide feedback: packet type 205, RTPFB (draft-holmer-rmcat-transport-wide-cc-extensions-01, section 3.1).
    Transport,
    /// Application layer feedback, which REMB is one of: packet type 206, PSFB (RFC 4585, section 6.4).
    Application,
}

/// A feedback message (RFC 4585, section 6.1).
#[derive(Clone, Copy, Debug, PartialEq, Eq)]
pub struct Message<'a> {
    /// The source that sends the message.
    pub sender_ssrc: u32,
    /// The source that the message names.
    pub media_ssrc: u32,
    /// The feedback control information, which `read_transport_feedback` or `read_remb` reads.
    pub control: &'a [u8],
}

/// The feedback messages of one kind in a compound packet, in order. No step allocates.
#[derive(Debug, Drop)]
pub struct Messages<'a> {
    kind: MessageKind,
    packets: Packets<'a>,
}

impl<'a> Model for Messages<'a> {
    ghost use Rattle.codec_payload_feedback_transport.specs.Messages.{MessagesLeft};

    ghost Value = { MessagesLeft };

    ghost view = { λ s. record { kind = s.kind; packets = s.packets } };
}

/// Reads the feedback messages of one kind in a compound RTCP packet. It does not allocate. Other packets are skipped, and so is a
/// packet that ends inside its two SSRCs.
///
/// # Errors
///
/// The errors of [`read_compound`]: nothing of a packet with a fault counts (RFC 3550, appendix A.2).
pub fn read_messages(
    rule: CompoundRule,
    kind: MessageKind,
    bytes: &[u8],
) -> Result<Messages<'_>, RtcpError>
    ensures { told messages_left result ≡ messages_at (is_full rule) (type_of_kind kind) bytes.now }
{
    let packets = read_compound(rule, bytes)?;
    Ok(Messages { kind, packets })
}

/// Returns the packet type of the messages.
fn type_of_kind(kind: MessageKind) -> u8
    ensures { result ≡ type_of_kind kind }
{
    match kind {
        MessageKind::Transport => 205,
        MessageKind::Application => 206,
    }
}

/// Reads the two SSRCs of a message. `None`: the bytes end inside them.
#[tactic(auto, unfolding(crate::specs::Messages::message_at))]
fn read_message(body: &[u8]) -> Option<Message<'_>>
    ensures { Finds feedback_of result (message_at body.now) }
{
    let [s3, s2, s1, s0, m3, m2, m1, m0, control @ ..] = body else {
        return None;
    };
    Some(Message {
        sender_ssrc: u32::from_be_bytes([*s3, *s2, *s1, *s0]),
        media_ssrc: u32::from_be_bytes([*m3, *m2, *m1, *m0]),
        control,
    })
}

/// Returns the message of a packet, if the packet has one of this type.
fn message_in<'a>(packet_type: u8, packet: &RtcpPacket<'a>) -> Option<Message<'a>>
    ensures { Finds feedback_of result (message_in packet_type (packet_of packet.now)) }
{
    match packet {
        RtcpPacket::Other(other) if other.packet_type == packet_type && other.count == 15 => {
            read_message(other.body)
        }
        _ => None,
    }
}

impl<'a> Iterator for Messages<'a> {
    ghost use Rattle.std.specs.Iterator.{YieldsFirstBy, item_count};

    type Item = Message<'a>;

    ghost next_gives = { YieldsFirstBy feedback_of messages_left };

    ghost remaining = { item_count messages_left };

    fn next(&mut self) -> Option<Message<'a>> {
        loop {
            let packet = self.packets.next()?;
            if let Some(message) = message_in(type_of_kind(self.kind), &packet) {
                return Some(message);
            }
        }
    }
}
