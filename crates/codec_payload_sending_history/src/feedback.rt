//! The requests in RTCP feedback: lost packets and keyframes.

ghost use Rattle.std.specs.Prelude.{◌≡◌, []};
ghost use Rattle.codec_payload_base.specs.Answers.{Finds};
ghost use Rattle.codec_payload_rtcp.specs.Compound.{is_full};
ghost use Rattle.codec_payload_rtcp.specs.NackNumbers.{numbers_left};
ghost use Rattle.codec_payload_rtcp.specs.RtcpValues.{packet_of};
ghost use Rattle.codec_payload_rtcp.specs.Steps.{told};
ghost use Rattle.codec_payload_sending_history.specs.Requests.{entry_at_front, names, requests_at, requests_left, requests_of, sorted_requests};

use codec_payload_rtcp::compound::{CompoundRule, Packets, read_compound};
use codec_payload_rtcp::nack::NackNumbers;
use codec_payload_rtcp::packet::{Nack, RtcpError, RtcpPacket};
use std::marker::Model;

/// A request to the sender of a stream.
#[derive(Clone, Copy, Debug, PartialEq, Eq)]
pub enum Request {
    /// The packet with that sequence number is to be resent: a generic NACK names it (RFC 4585, section 6.2.1).
    Packet(u16),
    /// A keyframe is to be sent: by a PLI (RFC 4585, section 6.3.1) or a FIR (RFC 5104, section 4.3.1).
    Keyframe,
}

/// The requests of a compound packet to one stream, in order. No step allocates.
#[derive(Debug, Drop)]
pub struct Requests<'a> {
    ssrc: u32,
    /// The remaining numbers of a NACK.
    numbers: NackNumbers<'a>,
    /// The packets after it.
    packets: Packets<'a>,
}

impl<'a> Model for Requests<'a> {
    ghost use Rattle.codec_payload_sending_history.specs.Requests.{RequestsLeft};

    ghost Value = { RequestsLeft };

    ghost view = { λ s. record { ssrc = s.ssrc; numbers = s.numbers; packets = s.packets } };
}

/// Reads the requests of a compound RTCP packet to one stream, by its SSRC. It does not allocate. Packets for other streams, and
/// packets of other types, request nothing. A number that is named twice is requested twice.
///
/// # Errors
///
/// The errors of [`read_compound`]: nothing of a packet with a fault counts (RFC 3550, appendix A.2).
pub fn read_requests(rule: CompoundRule, ssrc: u32, bytes: &[u8]) -> Result<Requests<'_>, RtcpError>
    ensures { told requests_left result ≡ requests_at (is_full rule) ssrc bytes.now }
{
    let packets = read_compound(rule, bytes)?;
    Ok(Requests {
        ssrc,
        numbers: no_numbers(),
        packets,
    })
}

/// The numbers of no NACK.
#[tactic(auto, unfolding(codec_payload_rtcp::specs::NackNumbers::numbers_in))]
fn no_numbers<'a>() -> NackNumbers<'a>
    ensures { numbers_left result ≡ [] }
{
    let nack = Nack {
        sender_ssrc: 0,
        media_ssrc: 0,
        pairs: &[],
    };
    nack.numbers()
}

/// The source of the entry at the front of a full intra request, and the entries after it.
#[tactic(auto, unfolding(crate::specs::Requests::entry_at_front))]
fn front_entry(entries: &[u8]) -> Option<(u32, &[u8])>
    ensures { Finds (λ x. (x.0, x.1.now)) result (entry_at_front entries.now) }
{
    let [s3, s2, s1, s0, _, _, _, _, rest @ ..] = entries else {
        return None;
    };
    Some((u32::from_be_bytes([*s3, *s2, *s1, *s0]), rest))
}

/// Whether an entry of a full intra request is for that source.
fn names(ssrc: u32, entries: &[u8]) -> bool
    ensures { result ≡ names ssrc entries.now }
{
    let mut rest = entries;
    while let Some((named, others)) = front_entry(rest) {
        if named == ssrc {
            return true;
        }
        rest = others;
    }
    false
}

/// What a packet requests of a stream.
#[derive(Debug, Drop)]
pub(crate) enum Sorted<'a> {
    /// The packets with these numbers.
    Numbers(NackNumbers<'a>),
    Keyframe,
    Nothing,
}

/// What a packet requests of the stream of that source.
fn sort<'a>(ssrc: u32, packet: &RtcpPacket<'a>) -> Sorted<'a>
    ensures { sorted_requests result ≡ requests_of ssrc (packet_of packet.now) }
{
    match packet {
        RtcpPacket::Nack(nack) if nack.media_ssrc == ssrc => Sorted::Numbers(nack.numbers()),
        RtcpPacket::PictureLoss(loss) if loss.media_ssrc == ssrc => Sorted::Keyframe,
        RtcpPacket::FullIntra(request) if names(ssrc, request.entries) => Sorted::Keyframe,
        _ => Sorted::Nothing,
    }
}

impl<'a> Iterator for Requests<'a> {
    ghost use Rattle.std.specs.Iterator.{YieldsFirst, item_count};

    type Item = Request;

    ghost next_gives = { YieldsFirst requests_left };

    ghost remaining = { item_count requests_left };

    fn next(&mut self) -> Option<Request> {
        loop {
            if let Some(number) = self.numbers.next() {
                return Some(Request::Packet(number));
            }
            let packet = self.packets.next()?;
            match sort(self.ssrc, &packet) {
                Sorted::Numbers(numbers) => self.numbers = numbers,
                Sorted::Keyframe => return Some(Request::Keyframe),
                Sorted::Nothing => {}
            }
        }
    }
}
