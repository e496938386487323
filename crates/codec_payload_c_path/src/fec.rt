//! Packets of FEC that came (RFC 5109), and the packets that they rebuild.

ghost use Rattle.std.specs.Prelude.{◌≡◌, ◌≢◌};
ghost use Rattle.codec_payload_fec.specs.FecReading.{fec_at, fec_of};
ghost use Rattle.codec_payload_c_path.specs.Fec.{KeepsPacket, ReadsFec, RebuildsPacket, fec_status, info_of};

use crate::status;
use crate::writing::put_packet;
use codec_payload_fec::packet::{FecFault, FecPacket};
use codec_payload_fec::store::PacketStore;
use std::alloc::Global;

/// What a packet of FEC protects.
#[repr(C)]
#[derive(Clone, Copy)]
pub struct FecInfo {
    /// The mask as 48 bits: bit 47 stands for the number `base`, bit 0 for the number 47 after it.
    pub mask: u64,
    /// The bytes of each packet that are protected, without the 12 of the fixed header.
    pub bytes: usize,
    /// The number of the first bit of the mask.
    pub base: u16,
}

/// Returns the status for bytes that are not a packet of FEC.
fn fec_status(fault: FecFault) -> u32
    ensures { result ≡ fec_status fault }
{
    match fault {
        FecFault::HeaderTooShort => status::FEC_HEADER_TOO_SHORT,
        FecFault::Extended => status::FEC_EXTENDED,
        FecFault::LevelTooShort => status::FEC_LEVEL_TOO_SHORT,
        FecFault::EmptyMask => status::FEC_EMPTY_MASK,
        FecFault::PayloadTooShort => status::FEC_PAYLOAD_TOO_SHORT,
    }
}

/// Describes a packet of FEC.
fn info_of(fec: &FecPacket<'_>) -> FecInfo
    ensures { result ≡ info_of (fec_of fec.now) }
{
    FecInfo {
        mask: fec.mask_bits(),
        bytes: fec.payload.len(),
        base: fec.base,
    }
}

/// Reads a packet of FEC, and writes what it protects.
pub fn read(bytes: &[u8], info: &mut FecInfo) -> u32
    ensures reads { ReadsFec (fec_at bytes.now) result info.old info.new }
    ensures unchanged { result ≢ 0 → info.new ≡ info.old }
{
    match FecPacket::read(bytes) {
        Ok(fec) => {
            *info = info_of(&fec);
            status::OK
        }
        Err(fault) => fec_status(fault),
    }
}

/// Keeps a copy of a packet that came.
pub fn keep(store: &mut PacketStore, packet: &[u8]) -> u32
    ensures { KeepsPacket packet.now store.old result store.new }
{
    match store.keep(packet) {
        Ok(()) => status::OK,
        Err(_) => status::OUT_OF_MEMORY,
    }
}

/// Writes the only missing one of the packets that a packet of FEC protects to the output buffer.
pub fn rebuild(
    alloc: Global,
    store: &PacketStore,
    fec: (u32, &[u8]),
    bytes: &mut [u8],
    size: &mut usize,
) -> u32
    ensures rebuilds { RebuildsPacket (fec_at fec.entry.1.now) fec.entry.0 store.now result (record { before = bytes.old; bytes = bytes.new; size_before = size.old; size = size.new }) }
    ensures untouched { result ≢ 0 → bytes.new ≡ bytes.old }
    ensures unchanged { result ≢ 0 → result ≢ 33 → size.new ≡ size.old }
{
    let (ssrc, payload) = fec;
    match FecPacket::read(payload) {
        Ok(fec) => match fec.rebuild(alloc, ssrc, store) {
            Ok(Some(packet)) => put_packet(&packet, bytes, size),
            Ok(None) => status::NONE,
            Err(_) => status::OUT_OF_MEMORY,
        },
        Err(fault) => fec_status(fault),
    }
}
