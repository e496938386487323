//! The events of a session, and events from their parts.

ghost use Rattle.std.specs.Prelude.{◌≡◌};
ghost use Rattle.codec_payload_session_stream.specs.Events.{report_event, transport_event};
ghost use Rattle.codec_payload_session_stream.specs.Units.{with_unit};

use crate::stream::Ending;
use codec_payload_base::error::PacketError;
use codec_payload_buffer::buffer::PoppedUnit;
use std::alloc::AllocError;

/// An event of a session. `U` is what it carries of a unit: the unit itself from [`Session::poll`], and `()` from
/// [`Session::poll_into`], which writes the unit to memory of the caller.
///
/// [`Session::poll`]: codec_payload_session::session::Session::poll
/// [`Session::poll_into`]: codec_payload_session::session::Session::poll_into
#[derive(Debug, Drop)]
pub enum Event<U = PoppedUnit> {
    /// A stream is announced. This is the first event of the stream. [`Session::names_of`] returns its MID and RID, as far as its
    /// packets had them before.
    ///
    /// [`Session::names_of`]: codec_payload_session::session::Session::names_of
    Begun {
        ssrc: u32,
        payload_type: u8,
    },
    /// A unit of a stream. If memory ran out for it, the frame is kept, and the next poll tries again. `rtp_time` is in ticks of
    /// the RTP clock, without wrapping. A decoder can show the unit if it is `decodable`: see [`Receiver::unit_is_decodable`],
    /// and [`Receiver::unit_is_keyframe`] for `keyframe`.
    ///
    /// [`Receiver::unit_is_decodable`]: codec_payload_receiver::receiver::Receiver::unit_is_decodable
    /// [`Receiver::unit_is_keyframe`]: codec_payload_receiver::receiver::Receiver::unit_is_keyframe
    Unit {
        ssrc: u32,
        payload_type: u8,
        rtp_time: Option<u64>,
        decodable: bool,
        keyframe: bool,
        unit: Result<U, AllocError>,
    },
    /// A unit of a stream with more bytes than `max_unit` of the settings. It counts as a refused frame: its packets count as
    /// `left`, for video the units after it follow a loss, and the stream continues. Any peer can send such a unit, so do not
    /// end a program for it.
    TooLarge {
        ssrc: u32,
        payload_type: u8,
        unit: U,
    },
    /// A frame of a stream that the depacketizer refused, since its payloads are malformed. The frame was dropped, its packets
    /// count as `left`, and the stream continues. Any peer can send such a frame, so do not end a program for it. `fault` is
    /// never [`PacketError::OutOfMemory`].
    Refused {
        ssrc: u32,
        payload_type: u8,
        fault: PacketError,
    },
    /// A compound packet of RTCP for the sender of a stream, which `packet` returns: a NACK of the packets that are to be
    /// requested now (RFC 4585, section 6.2.1), and a PLI if a keyframe is (section 6.3.1). Send it: its requests count as
    /// sent. If memory ran out, they stay due, and the next poll tries again.
    Feedback {
        ssrc: u32,
        payload_type: u8,
        packet: Result<Vec<u8>, AllocError>,
    },
    /// A packet of telephone events (RFC 4733) that a stream of this SSRC took as one without media: its payload type is one of
    /// `telephone_events` of the settings. `payload` has a report of 4 bytes for each event ([`TelephoneEvent::parse_all`] reads
    /// them; a sender may put anything into it), `rtp_time` is the RTP time at which the events began, in ticks of the RTP clock,
    /// and `marker` is set in the first packet of an event.
    ///
    /// All packets of an event have the same RTP time, its last one is sent three times (section 2.5.1), and a network can repeat
    /// any of them, so go by the RTP time. It is also returned for a stream that is not announced yet.
    ///
    /// [`TelephoneEvent::parse_all`]: codec_payload_base::interface::TelephoneEvent::parse_all
    Telephone {
        ssrc: u32,
        payload_type: u8,
        rtp_time: u32,
        marker: bool,
        payload: Vec<u8>,
    },
    /// A compound packet of RTCP for all senders, which `packet` returns: a receiver report (RFC 3550, section 6.4.2) about the
    /// announced streams, each [`FeedbackSettings::report_interval`]. Send it. If memory ran out, nothing has changed, and the
    /// next poll tries again.
    ///
    /// It has a block about each announced stream that has one ([`Session::report`]), in the order in which they began; of two
    /// streams with one SSRC only about the later one. A report holds at most 31 blocks, so more streams take several reports
    /// in the packet. Without a block there is one empty report. The name of the session follows, if it has one.
    ///
    /// [`Session::report`]: codec_payload_session::session::Session::report
    /// [`FeedbackSettings::report_interval`]: codec_payload_session_formats::formats::FeedbackSettings::report_interval
    Report {
        packet: Result<Vec<u8>, AllocError>,
    },
    /// A packet of RTCP for the peer, which `packet` returns: transport-wide feedback, which says when each packet of the transport
    /// arrived since the last one, or that it is missing (draft-holmer-rmcat-transport-wide-cc-extensions-01, section 3.1). Send it:
    /// its arrivals count as reported. If memory ran out, nothing has changed, and the next poll tries again.
    ///
    /// It comes each [`TransportSettings::interval`] while packets arrive, in parts if it is larger than
    /// [`TransportSettings::size`]. With `has_report` of the feedback's settings it follows an empty receiver report and the name.
    ///
    /// [`TransportSettings::interval`]: codec_payload_feedback::transport::TransportSettings::interval
    /// [`TransportSettings::size`]: codec_payload_feedback::transport::TransportSettings::size
    TransportFeedback {
        packet: Result<Vec<u8>, AllocError>,
    },
    /// A stream was removed. This is the last event of the stream. [`Session::last_stream`] then has its last counts.
    ///
    /// [`Session::last_stream`]: codec_payload_session::session::Session::last_stream
    Ended {
        ssrc: u32,
        payload_type: u8,
        why: Ending,
    },
}

/// Returns the event of a report, if there is one.
#[inline(always)]
pub fn report_event(packet: Option<Result<Vec<u8>, AllocError>>) -> Option<Event<()>>
    ensures { result ≡ report_event packet }
{
    match packet {
        Some(packet) => Some(Event::Report { packet }),
        None => None,
    }
}

/// Returns the event of a feedback about the transport, if there is one.
#[inline(always)]
pub fn transport_event(packet: Option<Result<Vec<u8>, AllocError>>) -> Option<Event<()>>
    ensures { result ≡ transport_event packet }
{
    match packet {
        Some(packet) => Some(Event::TransportFeedback { packet }),
        None => None,
    }
}

/// Returns an event with its unit, if it has one.
pub fn with_unit(event: Event<()>, unit: PoppedUnit) -> Event
    ensures { result ≡ with_unit event unit }
{
    match event {
        Event::Begun { ssrc, payload_type } => Event::Begun { ssrc, payload_type },
        Event::Unit {
            ssrc,
            payload_type,
            rtp_time,
            decodable,
            keyframe,
            unit: popped,
        } => Event::Unit {
            ssrc,
            payload_type,
            rtp_time,
            decodable,
            keyframe,
            unit: match popped {
                Ok(()) => Ok(unit),
                Err(e) => Err(e),
            },
        },
        Event::TooLarge {
            ssrc,
            payload_type,
            ..
        } => Event::TooLarge {
            ssrc,
            payload_type,
            unit,
        },
        Event::Refused {
            ssrc,
            payload_type,
            fault,
        } => Event::Refused {
            ssrc,
            payload_type,
            fault,
        },
        Event::Feedback {
            ssrc,
            payload_type,
            packet,
        } => Event::Feedback {
            ssrc,
            payload_type,
            packet,
        },
        Event::Telephone {
            ssrc,
            payload_type,
            rtp_time,
            marker,
            payload,
        } => Event::Telephone {
            ssrc,
            payload_type,
            rtp_time,
            marker,
            payload,
        },
        Event::Report { packet } => Event::Report { packet },
        Event::TransportFeedback { packet } => Event::TransportFeedback { packet },
        Event::Ended {
            ssrc,
            payload_type,
            why,
        } => Event::Ended {
            ssrc,
            payload_type,
            why,
        },
    }
}
