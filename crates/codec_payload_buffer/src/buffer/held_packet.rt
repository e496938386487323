//! A packet in the queue of a buffer.

ghost use Rattle.std.specs.Prelude.{◌≡◌, Option, if◌then◌else◌, true};
ghost use Rattle.codec_payload_metadata.specs.Rare.{plain_meta};

use codec_payload_metadata::known::PackedMeta;
use codec_payload_metadata::meta::RtpMeta;
use std::mem::size_of;

/// An entry of the queue: the number of a held packet, and a pointer to the rest.
#[derive(Debug, Drop)]
pub(super) struct HeldPacket {
    /// The sequence number, repeated here so that a search reads only entries.
    pub(super) number: u64,
    /// The rest of the packet, in its own memory block, so that an entry has 16 bytes.
    pub(super) packet: Box<Packet>,
    ghost numbered: { number ≡ packet.value.known.seq_no.0 },
}

/// The memory block of one packet.
#[derive(Debug, Drop)]
pub(super) struct Packet {
    pub(super) known: PackedMeta,
    /// The payload.
    pub(super) bytes: Vec<u8>,
    /// In the first packet of a row: the number of the last packet. In the last packet: the number of the first. In the packets
    /// between them it has no meaning.
    pub(super) other_end: u64,
    /// In the last packet of a row: the lowest number in the row of a packet that begins a unit.
    pub(super) row_head: Option<u64>,
    /// Whether the packet begins a unit, as the depacketizer answered on arrival.
    pub(super) head: bool,
    /// Whether the packet ends a unit, as the depacketizer answered on arrival.
    pub(super) tail: bool,
}

/// The memory block of a packet has at most 128 bytes, without the payload and the entry.
const _: () = prove!(size_of::<Packet>() <= 128);

impl Packet {
    /// Makes a packet that is a row by itself.
    #[inline(always)]
    pub(super) fn of(known: PackedMeta, bytes: Vec<u8>, head: bool, tail: bool) -> Self
        ensures known { result.known ≡ known }
        ensures bytes { result.bytes.items ≡ bytes.items }
        ensures head { result.head ≡ head }
        ensures tail { result.tail ≡ tail }
        ensures other_end { result.other_end ≡ known.seq_no.0 }
        ensures row_head { result.row_head ≡ if head then Option.Some known.seq_no.0 else Option.None }
    {
        let number = known.number();
        Packet {
            known,
            bytes,
            other_end: number,
            row_head: if head { Some(number) } else { None },
            head,
            tail,
        }
    }
}

/// A type that returns a value about itself, made new on each call. A plain value costs less.
pub(super) trait Tells<T> {
    ghost told: { Self → T };

    ghost plain: { Self → T };

    fn is_plain(&self) -> bool
        ensures { result ≡ true → plain self.now ≡ told self.now };

    fn tell_plain(&self) -> T
        ensures { result ≡ plain self.now };

    fn tell(&self) -> T
        ensures { result ≡ told self.now };
}

/// Returns the metadata of the packet, as users see it.
impl Tells<RtpMeta> for HeldPacket {
    ghost told = { λ entry. entry.packet.value.known };

    ghost plain = { λ entry. plain_meta entry.packet.value.known };

    #[inline(always)]
    fn is_plain(&self) -> bool {
        self.packet.known.is_plain()
    }

    #[inline(always)]
    fn tell_plain(&self) -> RtpMeta {
        self.packet.known.plain_meta()
    }

    fn tell(&self) -> RtpMeta {
        self.packet.known.meta()
    }
}

/// An entry has at most 16 bytes, since a push far from both ends moves up to half of all entries.
const _: () = prove!(size_of::<HeldPacket>() <= 16);
