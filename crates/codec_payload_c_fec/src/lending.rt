//! Packets that are lent to the caller.

ghost use Rattle.codec_payload_c_fec.specs.Lending.{IsLent};

/// A packet in the memory of a port or of a sender.
#[repr(C)]
#[derive(Clone, Copy)]
pub struct LentPacket {
    /// Where its bytes begin.
    pub at: *const u8,
    /// The number of its bytes.
    pub bytes: usize,
}

/// Sets where a packet is.
pub fn lend(bytes: &Vec<u8>, packet: &mut LentPacket)
    ensures { IsLent bytes.now packet.new }
{
    packet.at = bytes.as_ptr();
    packet.bytes = bytes.len();
}
