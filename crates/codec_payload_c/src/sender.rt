//! Senders: frames in, the datagrams of one stream out.

ghost use Rattle.std.specs.Prelude.{◌≡◌, ◌≢◌, ◌&&◌, is_some, nat_le, slice_get};
ghost use Rattle.codec_payload_core.specs.Extensions.{no_values};
ghost use Rattle.codec_payload_rtp.specs.ExtensionWriting.{ids_fit};
ghost use Rattle.codec_payload_handle.specs.Ids.{ids_given};
ghost use Rattle.codec_payload_c_packets.specs.StreamSenders.{GivesDatagram, GivesWithTail, IsStreamSenderOf, SendsFrame, SetsFormat, TellsCounts, reported_at, sample_given, sample_with};
ghost use Rattle.codec_payload_handle.specs.Kinds.{Makes, OnStreamSender, Refuses, is_stream_sender};
ghost use Rattle.codec_payload_handle.specs.Settings.{packetizer_set};

use codec_payload_c_packets::sender::{
    Sample, SenderCountsInfo, SenderReportInfo, SenderSettings, counts_of, datagram,
    datagram_with_tail, report_of, send, set_format, stream_by, timed, timed_alone,
};
use codec_payload_core::wire::Frequency;
use codec_payload_handle::extension_values::values_from;
use codec_payload_handle::handle::Handle;
use codec_payload_handle::object::{Object, StreamSender};
use codec_payload_handle::settings::{Spec, packetizer_of};
use codec_payload_handle::status;
use std::alloc::Global;

/// A sender by these settings, in an empty handle.
#[unsafe(no_mangle)]
pub extern "C" fn cpay_sender_new(
    alloc: Global,
    handle: &mut Handle,
    settings: &SenderSettings,
) -> u32
    ensures { Makes (IsStreamSenderOf settings.now (packetizer_set settings.now.spec)) (is_some (packetizer_set settings.now.spec) && nat_le settings.now.payload_type 127 && ids_fit (ids_given settings.now.extension_ids))
        handle.old.place.value result handle.new.place.value }
{
    if let Some(object) = handle.take(alloc) {
        handle.put(object);
        return status::FULL;
    }
    let (Some(packetizer), Some(rate)) = (
        packetizer_of(&settings.spec),
        Frequency::make(settings.spec.rate),
    ) else {
        return status::INVALID;
    };
    let stream = match stream_by(alloc, settings, packetizer, rate) {
        Ok(stream) => stream,
        Err(status) => return status,
    };
    let Ok(stream) = Box::new(alloc, stream) else {
        return status::OUT_OF_MEMORY;
    };
    match Box::new(alloc, Object::StreamSender(stream)) {
        Ok(object) => {
            handle.put(object);
            status::OK
        }
        Err(_) => status::OUT_OF_MEMORY,
    }
}

/// Packetizes a frame, and reports how many datagrams it has.
#[unsafe(no_mangle)]
pub extern "C" fn cpay_sender_send(
    alloc: Global,
    handle: &mut Handle,
    rtp_time: u64,
    starts_talk_spurt: bool,
    frame: &[u8],
    count: &mut usize,
) -> u32
    ensures sends { OnStreamSender handle.old.place.value (λ r s. SendsFrame r (sample_with r rtp_time starts_talk_spurt no_values frame.now) result count.old count.new s) handle.new.place.value }
    ensures refused { Refuses is_stream_sender handle.old.place.value result handle.new.place.value }
    ensures unchanged { result ≢ 0 → count.new ≡ count.old }
{
    let Some(mut object) = handle.take(alloc) else {
        return status::EMPTY;
    };
    let answer = match &mut *object {
        Object::StreamSender(stream) => {
            let sample = timed_alone(stream, rtp_time, starts_talk_spurt, frame);
            send(stream, &sample, count)
        }
        _ => status::OTHER_KIND,
    };
    handle.put(object);
    answer
}

/// Packetizes a frame with values of header extensions, and reports how many datagrams it has.
#[unsafe(no_mangle)]
pub extern "C" fn cpay_sender_send_sample(
    alloc: Global,
    handle: &mut Handle,
    sample: &Sample,
    frame: &[u8],
    count: &mut usize,
) -> u32
    ensures sends { OnStreamSender handle.old.place.value (λ r s. SendsFrame r (sample_given r sample.now frame.now) result count.old count.new s) handle.new.place.value }
    ensures refused { Refuses is_stream_sender handle.old.place.value result handle.new.place.value }
    ensures unchanged { result ≢ 0 → count.new ≡ count.old }
{
    let Some(mut object) = handle.take(alloc) else {
        return status::EMPTY;
    };
    let answer = match &mut *object {
        Object::StreamSender(stream) => {
            let values = values_from(&sample.values);
            let starts = sample.starts_talk_spurt;
            let sample = timed(stream, sample.rtp_time, starts, values, frame);
            send(stream, &sample, count)
        }
        _ => status::OTHER_KIND,
    };
    handle.put(object);
    answer
}

/// Writes the datagram at a place of the latest frame.
#[unsafe(no_mangle)]
pub extern "C" fn cpay_sender_datagram(
    alloc: Global,
    handle: &mut Handle,
    place: usize,
    bytes: &mut [u8],
    size: &mut usize,
) -> u32
    ensures gives { OnStreamSender handle.old.place.value (λ r s. (s ≡ r) × GivesDatagram (slice_get r.sender.datagrams place) result bytes.old bytes.new size.old size.new) handle.new.place.value }
    ensures refused { Refuses is_stream_sender handle.old.place.value result handle.new.place.value }
    ensures untouched { result ≢ 0 → bytes.new ≡ bytes.old }
    ensures unchanged { result ≢ 0 → result ≢ 33 → size.new ≡ size.old }
{
    let Some(mut object) = handle.take(alloc) else {
        return status::EMPTY;
    };
    let answer = match &mut *object {
        Object::StreamSender(stream) => datagram(stream, place, bytes, size),
        _ => status::OTHER_KIND,
    };
    handle.put(object);
    answer
}

/// Reports the fields of sender reports.
#[unsafe(no_mangle)]
pub extern "C" fn cpay_sender_counts(
    alloc: Global,
    handle: &mut Handle,
    counts: &mut SenderCountsInfo,
) -> u32
    ensures tells { OnStreamSender handle.old.place.value (λ r s. (result ≡ 0) × (s ≡ r) × TellsCounts r counts.new) handle.new.place.value }
    ensures refused { Refuses is_stream_sender handle.old.place.value result handle.new.place.value }
    ensures unchanged { result ≢ 0 → counts.new ≡ counts.old }
{
    let Some(mut object) = handle.take(alloc) else {
        return status::EMPTY;
    };
    let answer = match &mut *object {
        Object::StreamSender(stream) => {
            *counts = counts_of(stream);
            status::OK
        }
        _ => status::OTHER_KIND,
    };
    handle.put(object);
    answer
}

/// The datagram at a place, as [`cpay_sender_datagram`] gives it, into bytes that have room for `tail` bytes after the datagram.
#[unsafe(no_mangle)]
pub extern "C" fn cpay_sender_datagram_with_tail(
    alloc: Global,
    handle: &mut Handle,
    place: usize,
    tail: usize,
    bytes: &mut [u8],
    size: &mut usize,
) -> u32
    ensures gives { OnStreamSender handle.old.place.value (λ r s. (s ≡ r) × GivesWithTail tail (slice_get r.sender.datagrams place) result bytes.old bytes.new size.old size.new) handle.new.place.value }
    ensures refused { Refuses is_stream_sender handle.old.place.value result handle.new.place.value }
    ensures untouched { result ≢ 0 → bytes.new ≡ bytes.old }
    ensures unchanged { result ≢ 0 → result ≢ 33 → size.new ≡ size.old }
{
    let Some(mut object) = handle.take(alloc) else {
        return status::EMPTY;
    };
    let answer = match &mut *object {
        Object::StreamSender(stream) => datagram_with_tail(stream, place, tail, bytes, size),
        _ => status::OTHER_KIND,
    };
    handle.put(object);
    answer
}

/// The stream goes on in another format.
#[unsafe(no_mangle)]
pub extern "C" fn cpay_sender_set_format(
    alloc: Global,
    handle: &mut Handle,
    spec: &Spec,
    payload_type: u8,
) -> u32
    ensures sets { OnStreamSender handle.old.place.value (λ r s. SetsFormat (packetizer_set spec.now) spec.now payload_type r result s) handle.new.place.value }
    ensures refused { Refuses is_stream_sender handle.old.place.value result handle.new.place.value }
{
    let Some(mut object) = handle.take(alloc) else {
        return status::EMPTY;
    };
    let answer = match &mut *object {
        Object::StreamSender(stream) => set_format(stream, spec, payload_type),
        _ => status::OTHER_KIND,
    };
    handle.put(object);
    answer
}

/// The fields of a sender report for the moment `now`, in ticks of the RTP clock.
#[unsafe(no_mangle)]
pub extern "C" fn cpay_sender_report(
    alloc: Global,
    handle: &mut Handle,
    now: u64,
    report: &mut SenderReportInfo,
) -> u32
    ensures tells { OnStreamSender handle.old.place.value (λ r s. (result ≡ 0) × (s ≡ r) × (report.new ≡ reported_at r now)) handle.new.place.value }
    ensures refused { Refuses is_stream_sender handle.old.place.value result handle.new.place.value }
    ensures unchanged { result ≢ 0 → report.new ≡ report.old }
{
    let Some(mut object) = handle.take(alloc) else {
        return status::EMPTY;
    };
    let answer = match &mut *object {
        Object::StreamSender(stream) => {
            *report = report_of(stream, now);
            status::OK
        }
        _ => status::OTHER_KIND,
    };
    handle.put(object);
    answer
}
