//! Sessions: the datagrams of a port in, the events of its streams out.

ghost use Rattle.std.specs.Prelude.{◌≡◌, ◌≢◌, ◌<◌, [], length, Option, Result};
ghost use Rattle.std_alloc.specs.Vec.{vec_ptr};
ghost use Rattle.codec_payload_session_stream.specs.Units.{HasUnit, with_unit};
ghost use Rattle.codec_payload_c_receiving.specs.Sessions.{HandsOver, PollsEvent, ReceivesDatagram, TakesDatagram, TellsArrival, TellsJudgedBy, TellsOfStream, arrived_as, ending_number, event_with, packet_event, telephone_unit};
ghost use Rattle.codec_payload_handle.specs.Units.{no_unit};

use crate::receiver::{number_of as number_of_outcome, report_answer};
use codec_payload_core::buffer::PoppedUnit;
use codec_payload_core::wire::Ticks;
use codec_payload_handle::object::PortSession;
use codec_payload_handle::status;
use codec_payload_handle::unit::{Unit, describe_popped, no_unit};
use codec_payload_jitter::outcome::Outcome;
use codec_payload_receiver::receiver::ReceiveError;
use codec_payload_session::session::{Arrival as Arrived, Event as SessionEvent};
use codec_payload_session_stream::stream::Ending;
use std::alloc::{AllocError, Global};

/// What a session did with a datagram.
#[repr(C)]
#[derive(Clone, Copy)]
pub struct Arrival {
    /// 0: a stream received it; 1: RTCP; 2: malformed; 3: unknown; 4: refused; 5: unassociated.
    pub kind: u32,
    /// The SSRC of the stream.
    pub ssrc: u32,
    /// The answer of the stream: 0, or the error of its payload.
    pub status: u32,
    /// With status 0: the outcome of the datagram.
    pub outcome: u32,
    /// The payload type of the stream.
    pub payload_type: u8,
}

/// An event of a session.
#[repr(C)]
#[derive(Drop)]
pub struct Event {
    /// 0: a stream begins; 1: a unit; 2: a refused frame or a unit that is too large; 3: the end of a stream; 4: an RTCP packet
    /// to send; 5: a receiver report to send; 6: a packet of telephone events; 7: feedback about the transport to send.
    pub kind: u32,
    pub ssrc: u32,
    /// For a refused frame: the number of its error, 1 to 16; for a unit that is too large 76.
    pub status: u32,
    /// For the end of a stream. 0: a BYE; 1: the idle timeout; 2: a call; 3: a change of format.
    pub why: u32,
    /// Where its bytes are, in the memory of the session, until the next poll.
    pub data: *const u8,
    /// The number of its bytes: of the unit, the RTCP packet, or the payload of telephone events.
    pub bytes: usize,
    pub payload_type: u8,
    /// For a unit: its description. For telephone events: `rtp_time`, `bytes`, and the marker as `starts_talk_spurt`.
    pub unit: Unit,
}

/// Describes a datagram that no stream received, in place of what `told` has.
#[inline(always)]
fn tell_arrived(told: &mut Arrival, kind: u32)
    ensures { told.new ≡ arrived_as kind }
{
    told.kind = kind;
    told.ssrc = 0;
    told.status = status::OK;
    told.outcome = 0;
    told.payload_type = 0;
}

/// Describes a datagram that a stream received with this outcome, in place of what `told` has. Most datagrams are such.
#[inline(always)]
fn tell_outcome(told: &mut Arrival, ssrc: u32, payload_type: u8, outcome: Outcome)
    ensures { TellsOfStream ssrc payload_type (Result.Ok outcome) told.new }
{
    told.kind = 0;
    told.ssrc = ssrc;
    told.status = status::OK;
    told.outcome = number_of_outcome(outcome);
    told.payload_type = payload_type;
}

/// Describes a datagram for which a stream has this answer, in place of what `told` has.
#[cold]
#[inline(never)]
fn tell_stream(
    told: &mut Arrival,
    ssrc: u32,
    payload_type: u8,
    answer: Result<Outcome, ReceiveError>,
)
    ensures { TellsOfStream ssrc payload_type answer told.new }
{
    told.kind = 0;
    told.ssrc = ssrc;
    told.outcome = 0;
    told.payload_type = payload_type;
    told.status = report_answer(answer, &mut told.outcome);
}

/// Describes the result of a datagram for C, field by field, in place of what `told` has.
#[inline(always)]
fn tell_arrival(told: &mut Arrival, arrived: Arrived)
    ensures { TellsArrival arrived told.new }
{
    match arrived {
        Arrived::Stream {
            ssrc,
            payload_type,
            outcome,
        } => tell_outcome(told, ssrc, payload_type, outcome),
        Arrived::Faulty {
            ssrc,
            payload_type,
            fault,
        } => tell_stream(told, ssrc, payload_type, Err(fault)),
        Arrived::Rtcp => tell_arrived(told, 1),
        Arrived::Malformed => tell_arrived(told, 2),
        Arrived::Unknown => tell_arrived(told, 3),
        Arrived::Refused => tell_arrived(told, 4),
        Arrived::Unassociated => tell_arrived(told, 5),
    }
}

/// Passes a datagram to the session, with its own time of arrival if that is given.
#[inline(always)]
fn take_in(
    port: &mut PortSession,
    micros: Option<u64>,
    now: u64,
    datagram: &[u8],
) -> Result<Arrived, AllocError>
    ensures { TakesDatagram micros port.old now datagram.now result port.new }
{
    match micros {
        Some(micros) => port.session.receive_at(Ticks(now), micros, datagram),
        None => port.session.receive(Ticks(now), datagram),
    }
}

/// Receives a datagram.
#[inline(always)]
pub fn receive(
    port: &mut PortSession,
    micros: Option<u64>,
    now: u64,
    datagram: &[u8],
    arrival: &mut Arrival,
) -> u32
    ensures { ReceivesDatagram micros port.old now datagram.now result arrival.old arrival.new port.new }
{
    match take_in(port, micros, now, datagram) {
        Ok(arrived) => {
            tell_arrival(arrival, arrived);
            status::OK
        }
        Err(_) => status::OUT_OF_MEMORY,
    }
}

/// Returns the number of a reason to end.
pub(crate) fn number_of(why: Ending) -> u32
    ensures { result ≡ ending_number why }
{
    match why {
        Ending::Bye => 0,
        Ending::Timeout => 1,
        Ending::ByCall => 2,
        Ending::Changed => 3,
    }
}

/// Describes a unit of a session, in place of what `told` has: with its extended RTP time, and whether it is decodable.
#[inline(always)]
fn tell_unit(told: &mut Unit, unit: &PoppedUnit, time: Option<u64>, decodable: bool, keyframe: bool)
    requires { 0 < length unit.now.metas }
    ensures { TellsJudgedBy time decodable keyframe unit.now told.new }
{
    describe_popped(told, unit);
    if let Some(time) = time {
        told.rtp_time = time;
    }
    told.decodable = decodable;
    told.keyframe = keyframe;
}

/// Describes the event of a unit, in place of what `told` has.
#[inline(always)]
fn tell_event_of(told: &mut Event, ssrc: u32, payload_type: u8, at: *const u8)
    ensures { told.new ≡ event_with 1 ssrc payload_type at told.old.unit }
{
    told.kind = 1;
    told.ssrc = ssrc;
    told.status = status::OK;
    told.why = 0;
    told.data = at;
    told.bytes = told.unit.bytes;
    told.payload_type = payload_type;
}

/// Returns an event of a stream without an error or a reason to end.
fn event_with(kind: u32, ssrc: u32, payload_type: u8, at: *const u8, unit: Unit) -> Event
    ensures { result ≡ event_with kind ssrc payload_type at unit }
{
    Event {
        kind,
        ssrc,
        status: status::OK,
        why: 0,
        data: at,
        bytes: unit.bytes,
        payload_type,
        unit,
    }
}

/// Describes a packet of telephone events.
fn telephone_unit(rtp_time: u32, marker: bool, payload: &[u8]) -> Unit
    ensures { result ≡ telephone_unit rtp_time marker (length payload.now) }
{
    Unit {
        rtp_time: u64::from(rtp_time),
        bytes: payload.len(),
        starts_talk_spurt: marker,
        ..no_unit()
    }
}

/// Describes an event without bytes and without a unit. `of` is the kind of the event and the SSRC of its stream, and `said` is the
/// status and the reason to end.
#[cold]
#[inline(never)]
fn lend_nothing(
    port: &mut PortSession,
    told: &mut Event,
    of: (u32, u32),
    payload_type: u8,
    said: (u32, u32),
) -> u32
    ensures done { result ≡ 0 }
    ensures told { told.new ≡ record (event_with of.0 of.1 payload_type (vec_ptr port.new.lent) no_unit) { status = said.0; why = said.1 } }
    ensures lent { port.new.lent.items ≡ [] }
    ensures rest { port.new ≡ record port.old { lent = port.new.lent } }
{
    port.lend_nothing();
    *told = Event {
        status: said.0,
        why: said.1,
        ..event_with(of.0, of.1, payload_type, port.lent.as_ptr(), no_unit())
    };
    status::OK
}

/// Lends an RTCP packet to send, and describes its event. `of` is the kind of the event and the SSRC of its stream.
#[cold]
#[inline(never)]
fn lend_packet(
    port: &mut PortSession,
    told: &mut Event,
    of: (u32, u32),
    payload_type: u8,
    packet: Vec<u8>,
) -> u32
    ensures done { result ≡ 0 }
    ensures told { told.new ≡ packet_event of.0 of.1 payload_type (vec_ptr port.new.lent) (length packet.items) }
    ensures lent { port.new ≡ record port.old { lent = packet } }
{
    port.lend(packet);
    *told = Event {
        bytes: port.lent.len(),
        ..event_with(of.0, of.1, payload_type, port.lent.as_ptr(), no_unit())
    };
    status::OK
}

/// Lends the payload of telephone events, and describes their event. `of` is the kind of the event and the SSRC of its stream, and
/// `unit` describes the payload.
#[cold]
#[inline(never)]
fn lend_telephone(
    port: &mut PortSession,
    told: &mut Event,
    of: (u32, u32),
    payload_type: u8,
    unit: Unit,
    payload: Vec<u8>,
) -> u32
    ensures done { result ≡ 0 }
    ensures told { told.new ≡ event_with of.0 of.1 payload_type (vec_ptr port.new.lent) unit }
    ensures lent { port.new ≡ record port.old { lent = payload } }
{
    port.lend(payload);
    *told = event_with(of.0, of.1, payload_type, port.lent.as_ptr(), unit);
    status::OK
}

/// Hands over an event of the session: describes it, and lends its bytes. If memory ran out for its unit or its packet, nothing
/// changes. A unit is described field by field, since most events are units.
#[inline(always)]
fn hand_over(port: &mut PortSession, next: SessionEvent<()>, told: &mut Event) -> u32
    requires { HasUnit (Option.Some (with_unit next port.old.unit)) }
    ensures hands { HandsOver (Option.Some (with_unit next port.old.unit)) result told.old told.new port.old.taken port.new }
    ensures session { port.new.session ≡ port.old.session }
    ensures unchanged { result ≢ 0 → told.new ≡ told.old }
{
    match next {
        SessionEvent::Unit {
            ssrc,
            payload_type,
            rtp_time,
            decodable,
            keyframe,
            unit: Ok(()),
        } => {
            tell_unit(&mut told.unit, &port.unit, rtp_time, decodable, keyframe);
            port.lend_unit();
            tell_event_of(told, ssrc, payload_type, port.lent.as_ptr());
            status::OK
        }
        SessionEvent::Unit { unit: Err(_), .. } => status::OUT_OF_MEMORY,
        SessionEvent::Begun { ssrc, payload_type } => {
            lend_nothing(port, told, (0, ssrc), payload_type, (status::OK, 0))
        }
        SessionEvent::TooLarge {
            ssrc,
            payload_type,
            ..
        } => lend_nothing(
            port,
            told,
            (2, ssrc),
            payload_type,
            (status::UNIT_TOO_LARGE, 0),
        ),
        SessionEvent::Refused {
            ssrc,
            payload_type,
            fault,
        } => {
            let status = u32::from(fault.number());
            lend_nothing(port, told, (2, ssrc), payload_type, (status, 0))
        }
        SessionEvent::Ended {
            ssrc,
            payload_type,
            why,
        } => lend_nothing(
            port,
            told,
            (3, ssrc),
            payload_type,
            (status::OK, number_of(why)),
        ),
        SessionEvent::Telephone {
            ssrc,
            payload_type,
            rtp_time,
            marker,
            payload,
        } => {
            let unit = telephone_unit(rtp_time, marker, &payload);
            lend_telephone(port, told, (6, ssrc), payload_type, unit, payload)
        }
        SessionEvent::Feedback {
            ssrc,
            payload_type,
            packet: Ok(packet),
        } => lend_packet(port, told, (4, ssrc), payload_type, packet),
        SessionEvent::Report { packet: Ok(packet) } => lend_packet(port, told, (5, 0), 0, packet),
        SessionEvent::TransportFeedback { packet: Ok(packet) } => {
            lend_packet(port, told, (7, 0), 0, packet)
        }
        SessionEvent::Feedback { packet: Err(_), .. } => status::OUT_OF_MEMORY,
        SessionEvent::Report { packet: Err(_) } => status::OUT_OF_MEMORY,
        SessionEvent::TransportFeedback { packet: Err(_) } => status::OUT_OF_MEMORY,
    }
}

/// Reports the next event of the session, and lends its bytes until the next poll.
pub fn poll(port: &mut PortSession, alloc: Global, now: u64, event: &mut Event) -> u32
    ensures polls { PollsEvent now port.old result event.old event.new port.new }
    ensures unchanged { result ≢ 0 → event.new ≡ event.old }
{
    match port.poll(alloc, Ticks(now)) {
        Some(next) => hand_over(port, next, event),
        None => status::NONE,
    }
}
