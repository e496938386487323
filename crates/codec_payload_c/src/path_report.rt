//! The path to a viewer: which packets a feedback reports lost, packets that are taken back, and what the path knows.

ghost use Rattle.std.specs.Prelude.{◌≡◌, ◌≢◌};
ghost use Rattle.codec_payload_c_packets.specs.Congestion.{message_with};
ghost use Rattle.codec_payload_c_path.specs.Kinds.{OnPath, Refuses, is_path};
ghost use Rattle.codec_payload_c_path.specs.PathReports.{TakesBack, TellsEstimate};
ghost use Rattle.codec_payload_c.specs.PathReports.{NamesMessage};

use codec_payload_c_packets::congestion::message_with;
use codec_payload_c_path::handle::PathHandle;
use codec_payload_c_path::object::PathObject;
use codec_payload_c_path::path_report::{PathEstimateInfo, estimate_told, lost, take_back};
use codec_payload_feedback_transport::messages::MessageKind;
use codec_payload_handle::status;
use std::alloc::Global;

/// Writes the numbers of the packets that the transport-wide feedback with this index in a compound RTCP packet reports lost.
#[unsafe(no_mangle)]
pub extern "C" fn cpay_path_lost(
    alloc: Global,
    handle: &mut PathHandle,
    rtcp: &[u8],
    full: bool,
    index: usize,
    numbers: &mut [u16],
    count: &mut usize,
) -> u32
    ensures names { OnPath handle.old.place.value (λ r s. (s ≡ r) × NamesMessage (message_with full 205 index rtcp.now) r result (record { before = numbers.old; bytes = numbers.new; size_before = count.old; size = count.new })) handle.new.place.value }
    ensures refused { Refuses is_path handle.old.place.value result handle.new.place.value }
    ensures untouched { result ≢ 0 → numbers.new ≡ numbers.old }
    ensures unchanged { result ≢ 0 → result ≢ 33 → count.new ≡ count.old }
{
    let Some(mut object) = handle.take(alloc) else {
        return status::EMPTY;
    };
    let answer = match &mut *object {
        PathObject::Path(path) => match message_with(rtcp, full, MessageKind::Transport, index) {
            Ok(message) => lost(alloc, &path.path, message.control, numbers, count),
            Err(status) => status,
        },
        _ => status::OTHER_KIND,
    };
    handle.put(object);
    answer
}

/// Takes back the latest packet that left, if it has this number.
#[unsafe(no_mangle)]
pub extern "C" fn cpay_path_take_back(alloc: Global, handle: &mut PathHandle, number: u16) -> u32
    ensures takes { OnPath handle.old.place.value (λ r s. TakesBack number r result s) handle.new.place.value }
    ensures refused { Refuses is_path handle.old.place.value result handle.new.place.value }
{
    let Some(mut object) = handle.take(alloc) else {
        return status::EMPTY;
    };
    let answer = match &mut *object {
        PathObject::Path(path) => take_back(path, number),
        _ => status::OTHER_KIND,
    };
    handle.put(object);
    answer
}

/// Reports what the path knows.
#[unsafe(no_mangle)]
pub extern "C" fn cpay_path_estimate(
    alloc: Global,
    handle: &mut PathHandle,
    info: &mut PathEstimateInfo,
) -> u32
    ensures tells { OnPath handle.old.place.value (λ r s. TellsEstimate r result info.new s) handle.new.place.value }
    ensures refused { Refuses is_path handle.old.place.value result handle.new.place.value }
    ensures unchanged { result ≢ 0 → info.new ≡ info.old }
{
    let Some(mut object) = handle.take(alloc) else {
        return status::EMPTY;
    };
    let answer = match &mut *object {
        PathObject::Path(path) => {
            *info = estimate_told(path.path.statistics());
            status::OK
        }
        _ => status::OTHER_KIND,
    };
    handle.put(object);
    answer
}
