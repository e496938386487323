//! The description of a unit, for C.

ghost use Rattle.std.specs.Prelude.{◌≡◌, ◌<◌, length};
ghost use Rattle.codec_payload_core.specs.Release.{IsFirst, IsLast, IsReceivedFirst};
ghost use Rattle.codec_payload_core.specs.Steps.{released_into};
ghost use Rattle.codec_payload_handle.specs.Units.{TellsUnit, TellsValues, no_unit, refused_unit, too_large_unit};

use crate::extension_values::{ExtensionValues, values_between};
use crate::extra::{Extra, nothing, tell_extra};
use crate::status;
use codec_payload_core::buffer::{Depacketized, PoppedUnit, RtpMeta, UnitInfo};
use codec_payload_core::error::PacketError;

/// A unit, without its bytes.
#[repr(C)]
#[derive(Drop)]
pub struct Unit {
    /// The number of its first packet.
    pub first: u64,
    /// The number of its last packet.
    pub last: u64,
    /// The RTP time in ticks of the RTP clock, as it was pushed.
    pub rtp_time: u64,
    /// When the first of its packets arrived, by the caller's clock.
    pub received: u64,
    /// The number of its bytes.
    pub bytes: usize,
    /// Whether it directly follows the previous unit.
    pub contiguous: bool,
    /// Whether its first packet has the marker, which audio sets at the start of a talk spurt.
    pub starts_talk_spurt: bool,
    /// Whether a decoder can show it, by the answer of a receiver. Always true from a buffer.
    pub decodable: bool,
    /// Whether it is a keyframe, by the answer of a receiver. Always false from a buffer.
    pub keyframe: bool,
    /// The codec-specific data of its payloads.
    pub extra: Extra,
    /// 0 for a unit. Of a receiver: the number of the fault of a refused frame, or 76 for a unit that is too large; then all
    /// other fields are 0 or false.
    pub fault: u32,
}

/// Returns the first of the packets.
fn first_of(metas: &[RtpMeta]) -> &RtpMeta
    requires { 0 < length metas.now }
    ensures { IsFirst metas.now result.now }
{
    &metas[0]
}

/// Returns the last of the packets.
fn last_of(metas: &[RtpMeta]) -> &RtpMeta
    requires { 0 < length metas.now }
    ensures { IsLast metas.now result.now }
{
    &metas[metas.len() - 1]
}

/// Returns the first of the packets with the earliest time of arrival.
fn received_first(metas: &[RtpMeta]) -> &RtpMeta
    requires { 0 < length metas.now }
    ensures { IsReceivedFirst metas.now result.now }
{
    let mut first = 0;
    for (i, meta) in metas.iter().enumerate() {
        if meta.received.0 < metas[first].received.0 {
            first = i;
        }
    }
    &metas[first]
}

/// Returns the values of header extensions of a unit with these packets for C: the values of its last packet, with the capture
/// time and layers allocation of its first packet, if that has them.
pub fn values_of_packets(metas: &[RtpMeta]) -> ExtensionValues
    requires { 0 < length metas.now }
    ensures { TellsValues metas.now result }
{
    let first = first_of(metas);
    let last = last_of(metas);
    values_between(&first.header.ext_vals, &last.header.ext_vals)
}

/// Returns the values of header extensions of a unit for C, as [`values_of_packets`] does.
pub fn values_in(unit: &Depacketized) -> ExtensionValues
    ensures { TellsValues unit.now.metas result }
{
    values_of_packets(unit.meta())
}

/// Returns a description with each number 0 and each flag false.
pub fn no_unit() -> Unit
    ensures { result ≡ no_unit }
{
    Unit {
        first: 0,
        last: 0,
        rtp_time: 0,
        received: 0,
        bytes: 0,
        contiguous: false,
        starts_talk_spurt: false,
        decodable: false,
        keyframe: false,
        extra: nothing(),
        fault: 0,
    }
}

/// Returns the description of a frame that was refused with this fault.
pub fn refused_unit(fault: &PacketError) -> Unit
    ensures { result ≡ refused_unit fault.now }
{
    Unit {
        fault: u32::from(fault.number()),
        ..no_unit()
    }
}

/// Returns the description of a unit that is too large.
pub fn too_large_unit() -> Unit
    ensures { result ≡ too_large_unit }
{
    Unit {
        fault: status::UNIT_TOO_LARGE,
        ..no_unit()
    }
}

/// Describes a unit with this data, these bytes and these packets for C, in place of what `unit` has.
pub fn describe(unit: &mut Unit, info: &UnitInfo, bytes: &[u8], metas: &[RtpMeta])
    requires { 0 < length metas.now }
    ensures { TellsUnit (released_into info.now bytes.now metas.now) unit.new }
{
    let first = first_of(metas);
    unit.first = first.seq_no.0;
    unit.last = last_of(metas).seq_no.0;
    unit.rtp_time = info.time.numer();
    unit.received = received_first(metas).received.0;
    unit.bytes = bytes.len();
    unit.contiguous = info.contiguous;
    unit.starts_talk_spurt = first.header.marker;
    unit.decodable = true;
    unit.keyframe = false;
    tell_extra(&mut unit.extra, &info.codec_extra);
    unit.fault = 0;
}

/// Describes a unit in memory that is used again for C, in place of what `unit` has.
#[inline(always)]
pub fn describe_popped(unit: &mut Unit, popped: &PoppedUnit)
    requires { 0 < length popped.now.metas }
    ensures { TellsUnit popped.now unit.new }
{
    let numbers = popped.seq_range();
    unit.first = numbers.start().0;
    unit.last = numbers.end().0;
    unit.rtp_time = popped.time.numer();
    unit.received = popped.first_network_time().0;
    unit.bytes = popped.bytes.len();
    unit.contiguous = popped.contiguous;
    unit.starts_talk_spurt = popped.start_of_talkspurt();
    unit.decodable = true;
    unit.keyframe = false;
    tell_extra(&mut unit.extra, &popped.codec_extra);
    unit.fault = 0;
}

/// Describes a unit for C.
pub fn unit_of(unit: &Depacketized) -> Unit
    ensures { TellsUnit unit.now result }
{
    let info = UnitInfo {
        time: unit.time,
        contiguous: unit.contiguous,
        codec_extra: unit.codec_extra,
    };
    let mut told = no_unit();
    describe(&mut told, &info, &unit.bytes, unit.meta());
    told
}
