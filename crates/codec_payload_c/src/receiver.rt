//! Receivers: the datagrams of one stream in, units out.

ghost use Rattle.std.specs.Prelude.{◌≡◌, ◌≢◌, ◌&&◌, is_some};
ghost use Rattle.codec_payload_jitter.specs.Receiving.{deadline_of};
ghost use Rattle.codec_payload_numbers.specs.Reports.{report_of, reported};
ghost use Rattle.codec_payload_receiver.specs.Sessions.{restarted};
ghost use Rattle.codec_payload_c_receiving.specs.StreamReceivers.{EndsWith, IsStreamReceiverOf, Takes, TellsCounts, TellsMissing, TellsReport, is_in_range, restarted_as, wait_limits_given, waiting_by};
ghost use Rattle.codec_payload_handle.specs.Numbers.{TellsNumber, at_once_if};
ghost use Rattle.codec_payload_handle.specs.Kinds.{Makes, OnStreamReceiver, Refuses, is_stream_receiver};
ghost use Rattle.codec_payload_handle.specs.Settings.{depacketizer_set};

use codec_payload_c_receiving::receiver::{
    ReceiverCountsInfo, ReceiverSettings, ReportInfo, WaitLimits, counts_of, finish, missing_into,
    next_pop, receive, stream_by, waiting_for,
};
use codec_payload_core::wire::Frequency;
use codec_payload_handle::handle::Handle;
use codec_payload_handle::object::{Object, StreamReceiver};
use codec_payload_handle::settings::depacketizer_of;
use codec_payload_handle::status;
use std::alloc::Global;

/// Creates a receiver with these settings, and these payload types without media, in an empty handle.
#[unsafe(no_mangle)]
pub extern "C" fn cpay_receiver_new(
    alloc: Global,
    handle: &mut Handle,
    settings: &ReceiverSettings,
    no_media: &[u8],
) -> u32
    ensures { Makes (IsStreamReceiverOf settings.now no_media.now (depacketizer_set settings.now.spec)) (is_some (depacketizer_set settings.now.spec) && is_in_range settings.now)
        handle.old.place.value result handle.new.place.value }
{
    if let Some(object) = handle.take(alloc) {
        handle.put(object);
        return status::FULL;
    }
    let (Some(depacketizer), Some(rate)) = (
        depacketizer_of(alloc, &settings.spec),
        Frequency::make(settings.spec.rate),
    ) else {
        return status::INVALID;
    };
    let stream = match stream_by(alloc, settings, depacketizer, rate, no_media) {
        Ok(stream) => stream,
        Err(status) => return status,
    };
    let Ok(stream) = Box::new(alloc, stream) else {
        return status::OUT_OF_MEMORY;
    };
    match Box::new(alloc, Object::StreamReceiver(stream)) {
        Ok(object) => {
            handle.put(object);
            status::OK
        }
        Err(_) => status::OUT_OF_MEMORY,
    }
}

/// Receives a datagram at that time, and reports its outcome.
#[unsafe(no_mangle)]
pub extern "C" fn cpay_receiver_receive(
    alloc: Global,
    handle: &mut Handle,
    now: u64,
    datagram: &[u8],
    outcome: &mut u32,
) -> u32
    ensures receives { OnStreamReceiver handle.old.place.value (λ r s. Takes r now datagram.now result outcome.old outcome.new s) handle.new.place.value }
    ensures refused { Refuses is_stream_receiver handle.old.place.value result handle.new.place.value }
    ensures unchanged { result ≢ 0 → outcome.new ≡ outcome.old }
{
    let Some(mut object) = handle.take(alloc) else {
        return status::EMPTY;
    };
    let answer = match &mut *object {
        Object::StreamReceiver(stream) => receive(stream, now, datagram, outcome),
        _ => status::OTHER_KIND,
    };
    handle.put(object);
    answer
}

/// Reports when a pop may return a unit even if no datagram arrives.
#[unsafe(no_mangle)]
pub extern "C" fn cpay_receiver_next_deadline(
    alloc: Global,
    handle: &mut Handle,
    at: &mut u64,
) -> u32
    ensures tells { OnStreamReceiver handle.old.place.value (λ r s. (s ≡ r) × TellsNumber (at_once_if r.waiting (deadline_of r.receiver.packets)) result at.old at.new) handle.new.place.value }
    ensures refused { Refuses is_stream_receiver handle.old.place.value result handle.new.place.value }
    ensures unchanged { result ≢ 0 → at.new ≡ at.old }
{
    let Some(mut object) = handle.take(alloc) else {
        return status::EMPTY;
    };
    let answer = match &mut *object {
        Object::StreamReceiver(stream) => match next_pop(stream) {
            Some(deadline) => {
                *at = deadline;
                status::OK
            }
            None => status::NONE,
        },
        _ => status::OTHER_KIND,
    };
    handle.put(object);
    answer
}

/// Reports whether to request a keyframe.
#[unsafe(no_mangle)]
pub extern "C" fn cpay_receiver_wants_keyframe(
    alloc: Global,
    handle: &mut Handle,
    wants: &mut bool,
) -> u32
    ensures tells { OnStreamReceiver handle.old.place.value (λ r s. (result ≡ 0) × (s ≡ r) × (wants.new ≡ r.receiver.gates.gate.wants)) handle.new.place.value }
    ensures refused { Refuses is_stream_receiver handle.old.place.value result handle.new.place.value }
    ensures unchanged { result ≢ 0 → wants.new ≡ wants.old }
{
    let Some(mut object) = handle.take(alloc) else {
        return status::EMPTY;
    };
    let answer = match &mut *object {
        Object::StreamReceiver(stream) => {
            *wants = stream.receiver.wants_keyframe();
            status::OK
        }
        _ => status::OTHER_KIND,
    };
    handle.put(object);
    answer
}

/// Replaces the wait limits.
#[unsafe(no_mangle)]
pub extern "C" fn cpay_receiver_set_wait_limits(
    alloc: Global,
    handle: &mut Handle,
    wait_limits: &WaitLimits,
) -> u32
    ensures sets { OnStreamReceiver handle.old.place.value (λ r s. (result ≡ 0) × (s ≡ record r { receiver = waiting_by (wait_limits_given wait_limits.now) r.receiver })) handle.new.place.value }
    ensures refused { Refuses is_stream_receiver handle.old.place.value result handle.new.place.value }
{
    let Some(mut object) = handle.take(alloc) else {
        return status::EMPTY;
    };
    let answer = match &mut *object {
        Object::StreamReceiver(stream) => {
            stream.receiver.set_wait_limits(waiting_for(*wait_limits));
            status::OK
        }
        _ => status::OTHER_KIND,
    };
    handle.put(object);
    answer
}

/// Ends the stream: from now on pops wait for nothing. If memory runs out for a packet that waits, nothing changes.
#[unsafe(no_mangle)]
pub extern "C" fn cpay_receiver_finish(alloc: Global, handle: &mut Handle) -> u32
    ensures ends { OnStreamReceiver handle.old.place.value (λ r s. EndsWith result r.receiver s.receiver × (s ≡ record r { receiver = s.receiver })) handle.new.place.value }
    ensures refused { Refuses is_stream_receiver handle.old.place.value result handle.new.place.value }
{
    let Some(mut object) = handle.take(alloc) else {
        return status::EMPTY;
    };
    let answer = match &mut *object {
        Object::StreamReceiver(stream) => finish(stream),
        _ => status::OTHER_KIND,
    };
    handle.put(object);
    answer
}

/// Announces that the sender has restarted: the next packet of the stream gets a number above all earlier numbers.
#[unsafe(no_mangle)]
pub extern "C" fn cpay_receiver_restart(alloc: Global, handle: &mut Handle) -> u32
    ensures begins { OnStreamReceiver handle.old.place.value (λ r s. (result ≡ 0) × (s ≡ record r { receiver = restarted r.receiver.named r.receiver })) handle.new.place.value }
    ensures refused { Refuses is_stream_receiver handle.old.place.value result handle.new.place.value }
{
    let Some(mut object) = handle.take(alloc) else {
        return status::EMPTY;
    };
    let answer = match &mut *object {
        Object::StreamReceiver(stream) => {
            stream.receiver.restart();
            status::OK
        }
        _ => status::OTHER_KIND,
    };
    handle.put(object);
    answer
}

/// Does the same for a caller that knows the new SSRC, and the new SSRC of retransmissions.
#[unsafe(no_mangle)]
pub extern "C" fn cpay_receiver_restart_as(
    alloc: Global,
    handle: &mut Handle,
    ssrc: u32,
    rtx_ssrc: u32,
) -> u32
    ensures begins { OnStreamReceiver handle.old.place.value (λ r s. (result ≡ 0) × (s ≡ record r { receiver = restarted_as ssrc rtx_ssrc r.receiver })) handle.new.place.value }
    ensures refused { Refuses is_stream_receiver handle.old.place.value result handle.new.place.value }
{
    let Some(mut object) = handle.take(alloc) else {
        return status::EMPTY;
    };
    let answer = match &mut *object {
        Object::StreamReceiver(stream) => {
            stream.receiver.restart_as(ssrc, Some(rtx_ssrc));
            status::OK
        }
        _ => status::OTHER_KIND,
    };
    handle.put(object);
    answer
}

/// Reports the fields of a receiver report. The next report starts its fraction here.
#[unsafe(no_mangle)]
pub extern "C" fn cpay_receiver_report(
    alloc: Global,
    handle: &mut Handle,
    report: &mut ReportInfo,
) -> u32
    ensures tells { OnStreamReceiver handle.old.place.value (λ r s. (s ≡ record r { receiver = record r.receiver { reception = reported r.receiver.reception } }) × TellsReport (report_of r.receiver.reception) result report.old report.new) handle.new.place.value }
    ensures refused { Refuses is_stream_receiver handle.old.place.value result handle.new.place.value }
    ensures unchanged { result ≢ 0 → report.new ≡ report.old }
{
    let Some(mut object) = handle.take(alloc) else {
        return status::EMPTY;
    };
    let answer = match &mut *object {
        Object::StreamReceiver(stream) => match stream.receiver.report() {
            Some(told) => {
                *report = ReportInfo {
                    cumulative_lost: told.cumulative_lost,
                    highest: told.highest,
                    jitter: told.jitter,
                    fraction_lost: told.fraction_lost,
                };
                status::OK
            }
            None => status::NONE,
        },
        _ => status::OTHER_KIND,
    };
    handle.put(object);
    answer
}

/// Reports the counters of a receiver.
#[unsafe(no_mangle)]
pub extern "C" fn cpay_receiver_counts(
    alloc: Global,
    handle: &mut Handle,
    counts: &mut ReceiverCountsInfo,
) -> u32
    ensures tells { OnStreamReceiver handle.old.place.value (λ r s. (result ≡ 0) × (s ≡ r) × TellsCounts r.receiver (is_some r.waiting) counts.new) handle.new.place.value }
    ensures refused { Refuses is_stream_receiver handle.old.place.value result handle.new.place.value }
    ensures unchanged { result ≢ 0 → counts.new ≡ counts.old }
{
    let Some(mut object) = handle.take(alloc) else {
        return status::EMPTY;
    };
    let answer = match &mut *object {
        Object::StreamReceiver(stream) => {
            *counts = counts_of(stream);
            status::OK
        }
        _ => status::OTHER_KIND,
    };
    handle.put(object);
    answer
}

/// Writes the missing numbers in rising order, as many as there is room for.
#[unsafe(no_mangle)]
pub extern "C" fn cpay_receiver_missing(
    alloc: Global,
    handle: &mut Handle,
    numbers: &mut [u64],
    count: &mut usize,
) -> u32
    ensures tells { OnStreamReceiver handle.old.place.value (λ r s. (result ≡ 0) × (s ≡ r) × TellsMissing r numbers.old count.new numbers.new) handle.new.place.value }
    ensures refused { Refuses is_stream_receiver handle.old.place.value result handle.new.place.value }
    ensures unchanged { result ≢ 0 → (count.new ≡ count.old) × (numbers.new ≡ numbers.old) }
{
    let Some(mut object) = handle.take(alloc) else {
        return status::EMPTY;
    };
    let answer = match &mut *object {
        Object::StreamReceiver(stream) => {
            *count = missing_into(&stream.receiver, numbers);
            status::OK
        }
        _ => status::OTHER_KIND,
    };
    handle.put(object);
    answer
}
