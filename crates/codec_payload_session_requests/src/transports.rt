//! The feedback for congestion control that a session sends by itself: when each packet of its transport arrived.

ghost use Rattle.std.specs.Prelude.{◌≡◌, IfOk, List, OnErr, OnOk, ℕ, true};
ghost use Rattle.std.specs.Option.{is_some, option_map};
ghost use Rattle.codec_payload_feedback.specs.Transport.{IsTransportFeedback, quarters_at, restarted};
ghost use Rattle.codec_payload_feedback_requests.specs.Requests.{has_come};
ghost use Rattle.codec_payload_session_requests.specs.Requests.{source_for};
ghost use Rattle.codec_payload_session_requests.specs.Transports.{Sends, SendsBy, is_transport_due, noted_at, noted_by, reporter_for, restarted_if, transport_deadline};

use crate::requests::source_for;
use codec_payload_base::wire::{Frequency, Ticks};
use codec_payload_datagrams::parsed::ParsedDatagram;
use codec_payload_feedback::transport::{TransportReporter, quarters_at};
use codec_payload_session_formats::formats::{FeedbackSettings, SessionSettings};
use std::alloc::{AllocError, Global};

/// Returns the reporter of a new session. Does not allocate.
pub fn reporter_for(alloc: Global, settings: &SessionSettings) -> Option<TransportReporter>
    ensures { result ≡ reporter_for settings.now }
{
    match (&settings.feedback, settings.transport) {
        (Some(_), Some(transport)) => TransportReporter::new(alloc, transport).ok(),
        _ => None,
    }
}

/// Returns the time of an arrival at `now`, in quarters of a millisecond modulo 2^32. If nothing is recorded, any time does.
#[inline(always)]
pub fn time_of(transport: &Option<TransportReporter>, now: Ticks, tick_rate: Frequency) -> u32
    ensures { (bytes : List ℕ) → noted_at result bytes transport.now ≡ noted_at (quarters_at now.0 tick_rate) bytes transport.now }
{
    if transport.is_some() {
        quarters_at(now, tick_rate)
    } else {
        0
    }
}

/// Records that the datagram arrived at `time`, in quarters of a millisecond modulo 2^32, if it is an RTP packet with a number of the
/// transport. If memory runs out, nothing changes.
#[inline(always)]
pub fn note(
    transport: &mut Option<TransportReporter>,
    time: u32,
    datagram: &ParsedDatagram<'_>,
) -> Result<(), AllocError>
    ensures ok { OnOk result (transport.new ≡ noted_at time datagram.now transport.old) }
    ensures err { OnErr result (transport.new ≡ transport.old) }
    ensures lacks { OnErr result (is_some transport.old ≡ true) }
{
    match transport {
        Some(reporter) => note_by(reporter, time, datagram),
        None => Ok(()),
    }
}

/// Does the same for a session that reports.
fn note_by(
    reporter: &mut TransportReporter,
    time: u32,
    datagram: &ParsedDatagram<'_>,
) -> Result<(), AllocError>
    ensures ok { OnOk result (reporter.new ≡ noted_by time datagram.now reporter.old) }
    ensures err { OnErr result (reporter.new ≡ reporter.old) }
{
    if datagram.is_rtcp() {
        return Ok(());
    }
    match datagram.packet() {
        Ok(packet) => reporter.receive_packet(time, packet),
        Err(_) => Ok(()),
    }
}

/// Returns when the next feedback is due.
pub fn transport_deadline(transport: &Option<TransportReporter>) -> Option<u64>
    ensures { result ≡ transport_deadline transport.now }
{
    match transport {
        Some(reporter) => match reporter.next_deadline() {
            Some(at) => Some(at.0),
            None => None,
        },
        None => None,
    }
}

/// Returns the feedback that is due, as a packet of this sender. If memory runs out, nothing changes, and it stays due.
#[inline(always)]
pub fn take_due(
    alloc: Global,
    transport: &mut Option<TransportReporter>,
    feedback: &Option<FeedbackSettings>,
    now: Ticks,
) -> Option<Result<Vec<u8>, AllocError>>
    ensures { SendsBy feedback.now now.0 transport.old result transport.new }
{
    match (transport, feedback) {
        (Some(reporter), Some(feedback)) => send(alloc, reporter, feedback, now),
        _ => None,
    }
}

/// Does the same for a session that reports.
#[inline(always)]
fn send(
    alloc: Global,
    reporter: &mut TransportReporter,
    feedback: &FeedbackSettings,
    now: Ticks,
) -> Option<Result<Vec<u8>, AllocError>>
    ensures { Sends feedback.now now.0 reporter.old result reporter.new }
{
    if !is_due(reporter, now) {
        return None;
    }
    match write(alloc, reporter, feedback, now) {
        Ok(Some(packet)) => Some(Ok(packet)),
        Ok(None) => None,
        Err(e) => Some(Err(e)),
    }
}

/// Returns whether a feedback is due.
fn is_due(reporter: &TransportReporter, now: Ticks) -> bool
    ensures { result ≡ is_transport_due now.0 reporter.now }
{
    match reporter.next_deadline() {
        Some(at) => at.0 <= now.0,
        None => false,
    }
}

/// Returns the packet with the feedback that is due, and counts it as sent.
#[inline(never)]
fn write(
    alloc: Global,
    reporter: &mut TransportReporter,
    feedback: &FeedbackSettings,
    now: Ticks,
) -> Result<Option<Vec<u8>>, AllocError>
    ensures ok { IfOk result (λ packet. IsTransportFeedback (source_for feedback.now) now.0 reporter.old (option_map (λ bytes. bytes.items) packet) reporter.new) }
    ensures err { OnErr result (reporter.new ≡ reporter.old) }
{
    let source = source_for(alloc, feedback)?;
    reporter.take_due(now, &source)
}

/// Forgets all numbers.
pub fn restart(transport: &mut Option<TransportReporter>)
    ensures { transport.new ≡ restarted_if transport.old }
{
    if let Some(reporter) = transport {
        reporter.restart();
    }
}
