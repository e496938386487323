//! Waiting that follows how late missing packets arrive.

ghost use Rattle.std.specs.Prelude.{◌≡◌, IfOk};
ghost use Rattle.codec_payload_session_requests.specs.Late.{arrived_after, late_after, late_for, limit_by, missing_after, number_at, unboxed};
ghost use Rattle.codec_payload_jitter.specs.Missing.{missing_numbers};

use crate::requests::original_number;
use codec_payload_base::wire::Ticks;
use codec_payload_datagrams::parsed::ParsedDatagram;
use codec_payload_feedback_wait::adaptive_wait::AdaptiveWait;
use codec_payload_receiver::receiver::Receiver;
use codec_payload_session_formats::formats::{Format, SessionSettings, Waiting};
use std::alloc::{AllocError, Global};

/// How many missing numbers are reported at a datagram: an [`AdaptiveWait`] follows as many.
const MOST: usize = 64;

/// Returns the limit of a new stream of the format, if waiting follows how late packets arrive.
pub fn late_for(
    alloc: Global,
    settings: &SessionSettings,
    format: &Format,
) -> Result<Option<Box<AdaptiveWait>>, AllocError>
    ensures { IfOk result (λ late. unboxed late ≡ late_for settings.now format.now) }
{
    match format.wait {
        Waiting::Late => Ok(Some(Box::new(alloc, AdaptiveWait::new(settings.late))?)),
        Waiting::Fixed | Waiting::RoundTrip => Ok(None),
    }
}

/// Records which number a datagram has, and what the receiver misses after it.
#[inline(always)]
pub fn follow(
    late: &mut Option<Box<AdaptiveWait>>,
    format: &Format,
    now: Ticks,
    datagram: &ParsedDatagram<'_>,
    receiver: &Receiver,
)
    ensures { unboxed late.new ≡ late_after now.0 (number_at format.now datagram.now) (missing_numbers receiver.now.packets 64) (unboxed late.old) }
{
    if let Some(late) = late {
        follow_late(late, number_of(format, datagram), now, receiver);
    }
}

/// Does the same for a stream that follows how late packets arrive.
#[inline(never)]
fn follow_late(late: &mut AdaptiveWait, number: Option<u16>, now: Ticks, receiver: &Receiver)
    ensures { late.new ≡ missing_after now.0 (missing_numbers receiver.now.packets 64) (arrived_after now.0 number late.old) }
{
    if let Some(number) = number {
        late.arrived(now, number);
    }
    follow_missing(late, now, receiver);
}

/// Records what the receiver misses.
fn follow_missing(late: &mut AdaptiveWait, now: Ticks, receiver: &Receiver)
    ensures { late.new ≡ missing_after now.0 (missing_numbers receiver.now.packets 64) late.old }
{
    for number in receiver.missing(MOST) {
        late.missing(now, number);
    }
}

/// Returns how long frames wait. `None`: waiting follows something else.
#[inline(always)]
pub fn limit_by(late: &Option<Box<AdaptiveWait>>) -> Option<u64>
    ensures { result ≡ limit_by (unboxed late.now) }
{
    match late {
        Some(late) => Some(late.limit()),
        None => None,
    }
}

/// Returns the number of a packet; a retransmission has its original number (RFC 4588, section 4).
pub(crate) fn number_of(format: &Format, datagram: &ParsedDatagram<'_>) -> Option<u16>
    ensures { result ≡ number_at format.now datagram.now }
{
    match datagram.packet() {
        Ok(packet) if format.resends(packet.header.payload_type) => original_number(packet.payload),
        Ok(packet) => Some(packet.header.sequence_number),
        Err(_) => None,
    }
}
