//! RED senders, which repeat earlier payloads (RFC 2198).

ghost use Rattle.std.specs.Prelude.{◌≡◌, ◌≢◌};
ghost use Rattle.codec_payload_core.specs.RedLevels.{is_accepted};
ghost use Rattle.codec_payload_handle.specs.Kinds.{Makes, OnRedSender, Refuses, is_red_sender};
ghost use Rattle.codec_payload_c_packets.specs.Reds.{IsRedSenderOf, Syncs, Wraps};

use codec_payload_c_packets::red::{Media, sync, wrap};
use codec_payload_core::red::RedSender;
use codec_payload_core::wire::Pt;
use codec_payload_handle::handle::Handle;
use codec_payload_handle::object::Object;
use codec_payload_handle::status;
use std::alloc::Global;

/// Creates a RED sender without earlier payloads in an empty handle.
#[unsafe(no_mangle)]
pub extern "C" fn cpay_red_sender_new(
    alloc: Global,
    handle: &mut Handle,
    red_pt: u8,
    primary_pt: u8,
    distances: &[u32],
) -> u32
    ensures { Makes (IsRedSenderOf red_pt primary_pt distances.now) (is_accepted distances.now) handle.old.place.value result handle.new.place.value }
{
    if let Some(object) = handle.take(alloc) {
        handle.put(object);
        return status::FULL;
    }
    if !RedSender::accepts(distances) {
        return status::INVALID;
    }
    let sender = RedSender::new(
        alloc,
        Pt::new_with_value(red_pt),
        Pt::new_with_value(primary_pt),
        distances,
    );
    let Ok(sender) = Box::new(alloc, sender) else {
        return status::OUT_OF_MEMORY;
    };
    match Box::new(alloc, Object::RedSender(sender)) {
        Ok(object) => {
            handle.put(object);
            status::OK
        }
        Err(_) => status::OUT_OF_MEMORY,
    }
}

/// Sets new payload types and distances.
#[unsafe(no_mangle)]
pub extern "C" fn cpay_red_sync(
    alloc: Global,
    handle: &mut Handle,
    red_pt: u8,
    primary_pt: u8,
    distances: &[u32],
) -> u32
    ensures syncs { OnRedSender handle.old.place.value (λ r s. Syncs r red_pt primary_pt distances.now result s) handle.new.place.value }
    ensures refused { Refuses is_red_sender handle.old.place.value result handle.new.place.value }
{
    let Some(mut object) = handle.take(alloc) else {
        return status::EMPTY;
    };
    let answer = match &mut *object {
        Object::RedSender(sender) => sync(sender, red_pt, primary_pt, distances),
        _ => status::OTHER_KIND,
    };
    handle.put(object);
    answer
}

/// Writes the RED payload of a media payload, and remembers the media payload.
#[unsafe(no_mangle)]
pub extern "C" fn cpay_red_wrap(
    alloc: Global,
    handle: &mut Handle,
    rtp_time: u32,
    budget: usize,
    payload: &[u8],
    bytes: &mut [u8],
    size: &mut usize,
) -> u32
    ensures wraps { OnRedSender handle.old.place.value (λ r s. Wraps r rtp_time budget payload.now result bytes.old bytes.new size.new s) handle.new.place.value }
    ensures refused { Refuses is_red_sender handle.old.place.value result handle.new.place.value }
    ensures untouched { result ≢ 0 → bytes.new ≡ bytes.old }
    ensures same_size { result ≢ 0 → result ≢ 33 → size.new ≡ size.old }
{
    let Some(mut object) = handle.take(alloc) else {
        return status::EMPTY;
    };
    let media = Media {
        rtp_time,
        budget,
        payload,
    };
    let answer = match &mut *object {
        Object::RedSender(sender) => wrap(sender, alloc, &media, bytes, size),
        _ => status::OTHER_KIND,
    };
    handle.put(object);
    answer
}
