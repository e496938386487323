//! Depacketizers for callers that restore the order of packets themselves.

ghost use Rattle.std.specs.Prelude.{◌≡◌, ◌≢◌, is_some};
ghost use Rattle.codec_payload_c_packets.specs.Assemblers.{Forgets, IsAssemblerOf, Lends, Takes, Unpacks};
ghost use Rattle.codec_payload_handle.specs.Kinds.{Makes, OnAssembler, Refuses, is_assembler};
ghost use Rattle.codec_payload_handle.specs.Settings.{depacketizer_set};

use codec_payload_c_packets::depacketizer::{LentUnit, depacketize, lend, start_anew, take};
use codec_payload_core::codec::CodecExtra;
use codec_payload_handle::extra::Extra;
use codec_payload_handle::handle::Handle;
use codec_payload_handle::object::{Assembler, Object};
use codec_payload_handle::settings::{Spec, depacketizer_of};
use codec_payload_handle::status;
use std::alloc::Global;

/// Creates a depacketizer with these settings in an empty handle.
#[unsafe(no_mangle)]
pub extern "C" fn cpay_depacketizer_new(alloc: Global, handle: &mut Handle, spec: &Spec) -> u32
    ensures { Makes (IsAssemblerOf (depacketizer_set spec.now)) (is_some (depacketizer_set spec.now)) handle.old.place.value result handle.new.place.value }
{
    if let Some(object) = handle.take(alloc) {
        handle.put(object);
        return status::FULL;
    }
    let Some(depacketizer) = depacketizer_of(alloc, spec) else {
        return status::INVALID;
    };
    let assembler = Assembler {
        depacketizer,
        bytes: Vec::new(alloc),
        extra: CodecExtra::None,
    };
    let Ok(assembler) = Box::new(alloc, assembler) else {
        return status::OUT_OF_MEMORY;
    };
    match Box::new(alloc, Object::Assembler(assembler)) {
        Ok(object) => {
            handle.put(object);
            status::OK
        }
        Err(_) => status::OUT_OF_MEMORY,
    }
}

/// Reads a payload.
#[unsafe(no_mangle)]
pub extern "C" fn cpay_depacketize(alloc: Global, handle: &mut Handle, payload: &[u8]) -> u32
    ensures unpacks { OnAssembler handle.old.place.value (λ r s. Unpacks r payload.now result s) handle.new.place.value }
    ensures refused { Refuses is_assembler handle.old.place.value result handle.new.place.value }
{
    let Some(mut object) = handle.take(alloc) else {
        return status::EMPTY;
    };
    let answer = match &mut *object {
        Object::Assembler(assembler) => depacketize(assembler, payload),
        _ => status::OTHER_KIND,
    };
    handle.put(object);
    answer
}

/// Writes the unit from the payloads since the last call of this function.
#[unsafe(no_mangle)]
pub extern "C" fn cpay_depacketized(
    alloc: Global,
    handle: &mut Handle,
    size: &mut usize,
    extra: &mut Extra,
    bytes: &mut [u8],
) -> u32
    ensures takes { OnAssembler handle.old.place.value (λ r s. Takes r result size.new extra.new bytes.old bytes.new s) handle.new.place.value }
    ensures refused { Refuses is_assembler handle.old.place.value result handle.new.place.value }
    ensures untouched { result ≢ 0 → bytes.new ≡ bytes.old }
    ensures same_size { result ≢ 0 → result ≢ 33 → size.new ≡ size.old }
    ensures unchanged { result ≢ 0 → result ≢ 33 → extra.new ≡ extra.old }
{
    let Some(mut object) = handle.take(alloc) else {
        return status::EMPTY;
    };
    let answer = match &mut *object {
        Object::Assembler(assembler) => take(assembler, size, extra, bytes),
        _ => status::OTHER_KIND,
    };
    handle.put(object);
    answer
}

/// Reports where the unit so far is: in the depacketizer's memory, until the next call with the handle.
#[unsafe(no_mangle)]
pub extern "C" fn cpay_depacketizer_unit(
    alloc: Global,
    handle: &mut Handle,
    unit: &mut LentUnit,
) -> u32
    ensures lends { OnAssembler handle.old.place.value (λ r s. Lends r result unit.new s) handle.new.place.value }
    ensures refused { Refuses is_assembler handle.old.place.value result handle.new.place.value }
    ensures unchanged { result ≢ 0 → unit.new ≡ unit.old }
{
    let Some(mut object) = handle.take(alloc) else {
        return status::EMPTY;
    };
    let answer = match &mut *object {
        Object::Assembler(assembler) => {
            lend(assembler, unit);
            status::OK
        }
        _ => status::OTHER_KIND,
    };
    handle.put(object);
    answer
}

/// Starts the next unit, and keeps the memory of the unit so far.
#[unsafe(no_mangle)]
pub extern "C" fn cpay_depacketizer_clear(alloc: Global, handle: &mut Handle) -> u32
    ensures forgets { OnAssembler handle.old.place.value (λ r s. Forgets r result s) handle.new.place.value }
    ensures refused { Refuses is_assembler handle.old.place.value result handle.new.place.value }
{
    let Some(mut object) = handle.take(alloc) else {
        return status::EMPTY;
    };
    let answer = match &mut *object {
        Object::Assembler(assembler) => {
            start_anew(assembler);
            status::OK
        }
        _ => status::OTHER_KIND,
    };
    handle.put(object);
    answer
}
