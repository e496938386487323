//! The units of a receiver of datagrams.

ghost use Rattle.std.specs.Prelude.{◌≡◌, ◌≢◌};
ghost use Rattle.codec_payload_handle.specs.Kinds.{OnStreamReceiver, Refuses, is_stream_receiver};
ghost use Rattle.codec_payload_c_receiving.specs.StreamReceivers.{LendsUnit, PopsUnit, TellsTaken};

use codec_payload_c_receiving::receiver_lending::lend;
use codec_payload_c_receiving::receiver_units::pop;
use codec_payload_handle::extension_values::ExtensionValues;
use codec_payload_handle::handle::Handle;
use codec_payload_handle::object::{Object, StreamReceiver};
use codec_payload_handle::status;
use codec_payload_handle::unit::Unit;
use std::alloc::Global;

/// Writes the next unit to the output buffer, or describes the next refused frame or unit that is too
/// large, if one is due at that time.
#[unsafe(no_mangle)]
pub extern "C" fn cpay_receiver_pop(
    alloc: Global,
    handle: &mut Handle,
    now: u64,
    unit: &mut Unit,
    bytes: &mut [u8],
) -> u32
    ensures pops { OnStreamReceiver handle.old.place.value (λ r s. PopsUnit r now result unit.old unit.new bytes.old bytes.new s) handle.new.place.value }
    ensures refused { Refuses is_stream_receiver handle.old.place.value result handle.new.place.value }
    ensures untouched { result ≢ 0 → bytes.new ≡ bytes.old }
    ensures unchanged { result ≢ 0 → result ≢ 33 → unit.new ≡ unit.old }
{
    let Some(mut object) = handle.take(alloc) else {
        return status::EMPTY;
    };
    let answer = match &mut *object {
        Object::StreamReceiver(stream) => pop(stream, alloc, now, unit, bytes),
        _ => status::OTHER_KIND,
    };
    handle.put(object);
    answer
}

/// Lends the next unit, or describes the next refused frame or unit that is too large, if one is due at that time. The bytes of
/// the unit are in the receiver's memory, until the next call with the handle.
#[unsafe(no_mangle)]
pub extern "C" fn cpay_receiver_lend(
    alloc: Global,
    handle: &mut Handle,
    now: u64,
    unit: &mut Unit,
    at: &mut *const u8,
) -> u32
    ensures lends { OnStreamReceiver handle.old.place.value (λ r s. LendsUnit r now result unit.old unit.new at.old at.new s) handle.new.place.value }
    ensures refused { Refuses is_stream_receiver handle.old.place.value result handle.new.place.value }
    ensures unchanged { result ≢ 0 → (unit.new ≡ unit.old) × (at.new ≡ at.old) }
{
    let Some(mut object) = handle.take(alloc) else {
        return status::EMPTY;
    };
    let answer = match &mut *object {
        Object::StreamReceiver(stream) => lend(stream, alloc, now, unit, at),
        _ => status::OTHER_KIND,
    };
    handle.put(object);
    answer
}

/// Reads the values of header extensions of the latest popped unit.
#[unsafe(no_mangle)]
pub extern "C" fn cpay_receiver_values(
    alloc: Global,
    handle: &mut Handle,
    values: &mut ExtensionValues,
) -> u32
    ensures tells { OnStreamReceiver handle.old.place.value (λ r s. (s ≡ r) × TellsTaken r.taken result values.old values.new) handle.new.place.value }
    ensures refused { Refuses is_stream_receiver handle.old.place.value result handle.new.place.value }
    ensures unchanged { result ≢ 0 → values.new ≡ values.old }
{
    let Some(mut object) = handle.take(alloc) else {
        return status::EMPTY;
    };
    let answer = match &mut *object {
        Object::StreamReceiver(stream) => match stream.taken.values() {
            Some(told) => {
                *values = told;
                status::OK
            }
            None => status::NONE,
        },
        _ => status::OTHER_KIND,
    };
    handle.put(object);
    answer
}
