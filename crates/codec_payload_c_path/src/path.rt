//! The path to a viewer: what leaves now, what may be retransmitted, what feedback says, and which layers fit.

ghost use Rattle.std.specs.Prelude.{◌≡◌, ◌≢◌, IfOk, IfSome, OnErr, OnOk, map};
ghost use Rattle.codec_payload_bandwidth_path.specs.Paths.{new_path};
ghost use Rattle.codec_payload_c_path.specs.Paths.{AsksResend, ChoosesLayers, HearsControl, PopsPacket, PushesPacket, RemovesPacket, choice_given, fault_status, kind_number, kind_numbered, leaving_told, order_told, packet_given, packet_told, state_told};
ghost use Rattle.codec_payload_c_path.specs.Settings.{path_set};

use crate::limit::answer_number;
use crate::object::CallerPath;
use crate::path_settings::{PathSettings, path_set};
use crate::status;
use codec_payload_bandwidth_layers::chooser::LayerChoice;
use codec_payload_bandwidth_pacer::pacer::{PacedKind, PacedPacket, PacerError};
use codec_payload_bandwidth_path::path::{Leaving, PathOrder, ViewerPath};
use codec_payload_base::wire::Ticks;
use codec_payload_feedback_congestion::transport::{
    TransportError, TransportFault, read_transport_feedback,
};
use std::alloc::{AllocError, Global};

/// A packet that waits to leave.
#[repr(C)]
#[derive(Clone, Copy)]
pub struct PathPacket {
    /// The caller's name of the packet.
    pub id: u64,
    /// Its bytes, with the headers that the path carries.
    pub size: u32,
    /// What it is for: 0 audio, 1 a retransmission, 2 media, 3 padding.
    pub kind: u32,
}

/// A packet that leaves now.
#[repr(C)]
#[derive(Clone, Copy)]
pub struct PathLeaving {
    pub packet: PathPacket,
    /// The transport-wide number to write into its header extension.
    pub number: u16,
}

/// A choice of what a viewer gets.
#[repr(C)]
#[derive(Clone, Copy)]
pub struct PathChoice {
    /// The rate of all that is sent with it, in bits per second.
    pub rate: u64,
    /// The least rate to begin it, in bits per second.
    pub begin: u64,
}

/// What a choice says.
#[repr(C)]
#[derive(Clone, Copy)]
pub struct PathOrderInfo {
    /// The index of the choice of layers that the viewer gets.
    pub choice: usize,
    /// How many bytes of padding are to be pushed now.
    pub padding: u32,
    /// Whether the choice before had a higher index.
    pub fell: bool,
    /// Whether the choice before had a lower index.
    pub rose: bool,
}

/// The state of a path.
#[repr(C)]
#[derive(Clone, Copy)]
pub struct PathStateInfo {
    /// The estimate of the rate that the path carries, in bits per second.
    pub estimate: u64,
    /// How many bytes wait.
    pub waiting: u64,
    /// The index of the current choice.
    pub choice: usize,
}

/// Returns a path on which nothing left.
pub fn path_by(alloc: Global, now: u64, settings: &PathSettings) -> Result<CallerPath, AllocError>
    ensures { IfOk result (λ made. made.path ≡ new_path now (path_set settings.now)) }
{
    let path = ViewerPath::new(alloc, Ticks(now), path_set(settings))?;
    Ok(CallerPath {
        path,
        choices: Vec::new(alloc),
    })
}

/// Returns the kind with this number.
fn kind_numbered(number: u32) -> Option<PacedKind>
    ensures { result ≡ kind_numbered number }
{
    match number {
        0 => Some(PacedKind::Audio),
        1 => Some(PacedKind::Resent),
        2 => Some(PacedKind::Media),
        3 => Some(PacedKind::Padding),
        _ => None,
    }
}

/// Returns the number of a kind.
fn kind_number(kind: PacedKind) -> u32
    ensures { result ≡ kind_number kind }
{
    match kind {
        PacedKind::Audio => 0,
        PacedKind::Resent => 1,
        PacedKind::Media => 2,
        PacedKind::Padding => 3,
    }
}

/// Describes a packet for C.
fn packet_told(packet: PacedPacket) -> PathPacket
    ensures { result ≡ packet_told packet }
{
    PathPacket {
        id: packet.id,
        size: packet.size,
        kind: kind_number(packet.kind),
    }
}

/// Converts a packet of this kind from C.
fn packet_given(kind: PacedKind, packet: &PathPacket) -> PacedPacket
    ensures { result ≡ packet_given kind packet.now }
{
    PacedPacket {
        kind,
        size: packet.size,
        id: packet.id,
    }
}

/// Stores a packet after those of its kind.
pub fn push(caller: &mut CallerPath, packet: &PathPacket) -> u32
    ensures { PushesPacket packet.now caller.old.path result caller.new.path }
{
    let Some(kind) = kind_numbered(packet.kind) else {
        return status::INVALID;
    };
    match caller.path.push(packet_given(kind, packet)) {
        Ok(()) => status::OK,
        Err(PacerError::Full) => status::QUEUE_FULL,
        Err(PacerError::OutOfMemory) => status::OUT_OF_MEMORY,
    }
}

/// Describes a packet that leaves for C.
fn leaving_told(leaving: Leaving) -> PathLeaving
    ensures { result ≡ leaving_told leaving }
{
    PathLeaving {
        packet: packet_told(leaving.packet),
        number: leaving.number,
    }
}

/// Removes the packet that leaves now, and writes it with its transport-wide number.
pub fn pop(caller: &mut CallerPath, now: u64, leaving: &mut PathLeaving) -> u32
    ensures pops { PopsPacket now caller.old.path result leaving.old leaving.new caller.new.path }
    ensures unchanged { result ≢ 0 → leaving.new ≡ leaving.old }
{
    match caller.path.pop(Ticks(now)) {
        Some(packet) => {
            *leaving = leaving_told(packet);
            status::OK
        }
        None => status::NONE,
    }
}

/// Removes the first packet of a kind that waits, and writes it.
pub fn remove(caller: &mut CallerPath, kind: u32, packet: &mut PathPacket) -> u32
    ensures removes { RemovesPacket kind caller.old.path result packet.old packet.new caller.new.path }
    ensures unchanged { result ≢ 0 → packet.new ≡ packet.old }
{
    let Some(kind) = kind_numbered(kind) else {
        return status::INVALID;
    };
    match caller.path.remove(kind) {
        Some(removed) => {
            *packet = packet_told(removed);
            status::OK
        }
        None => status::NONE,
    }
}

/// Asks whether the packet with this number and size may be retransmitted now, and writes the number of the answer.
pub fn resend(
    caller: &mut CallerPath,
    now: u64,
    packet: (u16, u32),
    round_trip: u64,
    answer: &mut u32,
) -> u32
    ensures { AsksResend now packet.0 packet.1 round_trip caller.old.path result answer.new caller.new.path }
{
    let (number, size) = packet;
    *answer = answer_number(caller.path.resend(Ticks(now), number, size, round_trip));
    status::OK
}

/// Returns the status for control information that is not transport-wide feedback.
pub(crate) fn fault_status(fault: TransportFault) -> u32
    ensures { result ≡ fault_status fault }
{
    match fault {
        TransportFault::HeaderTooShort => status::TRANSPORT_HEADER_TOO_SHORT,
        TransportFault::ChunksTooShort => status::TRANSPORT_CHUNKS_TOO_SHORT,
        TransportFault::ReservedStatus => status::TRANSPORT_RESERVED,
        TransportFault::DeltasTooShort => status::TRANSPORT_DELTAS_TOO_SHORT,
    }
}

/// Hands in the control information of a transport-wide feedback of the viewer.
pub fn hear(
    alloc: Global,
    caller: &mut CallerPath,
    now: u64,
    round_trip: u64,
    control: &[u8],
) -> u32
    ensures { HearsControl control.now now round_trip caller.old.path result caller.new.path }
{
    match read_transport_feedback(alloc, control) {
        Ok(feedback) => match caller.path.feedback(Ticks(now), round_trip, &feedback) {
            Ok(()) => status::OK,
            Err(_) => status::OUT_OF_MEMORY,
        },
        Err(TransportError::Fault(fault)) => fault_status(fault),
        Err(TransportError::OutOfMemory) => status::OUT_OF_MEMORY,
    }
}

/// Converts a choice from C.
fn choice_given(choice: &PathChoice) -> LayerChoice
    ensures { result ≡ choice_given choice.now }
{
    LayerChoice {
        rate: choice.rate,
        begin: choice.begin,
    }
}

/// Puts the choices of C in place of those that the list has.
fn put_choices(given: &[PathChoice], choices: &mut Vec<LayerChoice>) -> Result<(), AllocError>
    ensures { OnOk result (choices.new.items ≡ map choice_given given.now) }
{
    choices.clear();
    for choice in given {
        choices.push(choice_given(choice))?;
    }
    Ok(())
}

/// Describes an order for C.
fn order_told(order: PathOrder) -> PathOrderInfo
    ensures { result ≡ order_told order }
{
    PathOrderInfo {
        choice: order.choice,
        padding: order.padding,
        fell: order.fell,
        rose: order.rose,
    }
}

/// Chooses layers, and writes what the choice says.
pub fn choose(
    caller: &mut CallerPath,
    now: u64,
    choices: &[PathChoice],
    order: &mut PathOrderInfo,
) -> u32
    ensures chooses { ChoosesLayers now choices.now caller.old.path result order.old order.new caller.new.path }
    ensures unchanged { result ≢ 0 → order.new ≡ order.old }
{
    if put_choices(choices, &mut caller.choices).is_err() {
        return status::OUT_OF_MEMORY;
    }
    *order = order_told(caller.path.choose(Ticks(now), &caller.choices));
    status::OK
}

/// Describes a path.
pub fn state_told(path: &ViewerPath) -> PathStateInfo
    ensures { result ≡ state_told path.now }
{
    PathStateInfo {
        estimate: path.estimate(),
        waiting: path.waiting(),
        choice: path.choice(),
    }
}
