//! The packets that were sent on a transport: their numbers and times.

ghost use Rattle.std.specs.Prelude.{◌≡◌, ◌≢◌};
ghost use Rattle.codec_payload_feedback_transport.specs.Sent.{sent_at};
ghost use Rattle.codec_payload_handle.specs.Kinds.{Makes, OnSentPackets, Refuses, is_sent_packets};
ghost use Rattle.codec_payload_handle.specs.Numbers.{TellsNumber};
ghost use Rattle.codec_payload_c_packets.specs.SentTransports.{AssignsNumber, IsSentPacketsOf, is_limit};

use codec_payload_c_packets::sent::assign;
use codec_payload_feedback_transport::sent::SentPackets;
use codec_payload_handle::handle::Handle;
use codec_payload_handle::object::Object;
use codec_payload_handle::status;
use std::alloc::Global;

/// Creates a transport on which nothing was sent in an empty handle. The last `limit` packets will be remembered.
#[unsafe(no_mangle)]
pub extern "C" fn cpay_sent_packets_new(alloc: Global, handle: &mut Handle, limit: usize) -> u32
    ensures { Makes (IsSentPacketsOf limit) (is_limit limit) handle.old.place.value result handle.new.place.value }
{
    if let Some(object) = handle.take(alloc) {
        handle.put(object);
        return status::FULL;
    }
    let Ok(sent) = SentPackets::new(alloc, limit) else {
        return status::INVALID;
    };
    let Ok(sent) = Box::new(alloc, sent) else {
        return status::OUT_OF_MEMORY;
    };
    match Box::new(alloc, Object::SentPackets(sent)) {
        Ok(object) => {
            handle.put(object);
            status::OK
        }
        Err(_) => status::OUT_OF_MEMORY,
    }
}

/// Counts the next packet of the transport, which is sent at that time, and writes its number.
#[unsafe(no_mangle)]
pub extern "C" fn cpay_sent_packets_assign(
    alloc: Global,
    handle: &mut Handle,
    now: u64,
    number: &mut u16,
) -> u32
    ensures assigns { OnSentPackets handle.old.place.value (λ r s. AssignsNumber now r result number.old number.new s) handle.new.place.value }
    ensures refused { Refuses is_sent_packets handle.old.place.value result handle.new.place.value }
    ensures unchanged { result ≢ 0 → number.new ≡ number.old }
{
    let Some(mut object) = handle.take(alloc) else {
        return status::EMPTY;
    };
    let answer = match &mut *object {
        Object::SentPackets(sent) => assign(sent, now, number),
        _ => status::OTHER_KIND,
    };
    handle.put(object);
    answer
}

/// Reports when the packet with this number was sent.
#[unsafe(no_mangle)]
pub extern "C" fn cpay_sent_packets_sent_at(
    alloc: Global,
    handle: &mut Handle,
    number: u16,
    at: &mut u64,
) -> u32
    ensures tells { OnSentPackets handle.old.place.value (λ r s. (s ≡ r) × TellsNumber (sent_at number r) result at.old at.new) handle.new.place.value }
    ensures refused { Refuses is_sent_packets handle.old.place.value result handle.new.place.value }
    ensures unchanged { result ≢ 0 → at.new ≡ at.old }
{
    let Some(mut object) = handle.take(alloc) else {
        return status::EMPTY;
    };
    let answer = match &mut *object {
        Object::SentPackets(sent) => match sent.sent_at(number) {
            Some(time) => {
                *at = time.0;
                status::OK
            }
            None => status::NONE,
        },
        _ => status::OTHER_KIND,
    };
    handle.put(object);
    answer
}
