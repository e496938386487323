//! How the items of a buffer's queues are ordered.

use super::frames::CompleteFrame;
use super::held_packet::HeldPacket;
use codec_payload_queue::search::Numbered;

impl Numbered for HeldPacket {
    ghost number_of = { λ packet. packet.number };

    fn number(&self) -> u64 {
        self.number
    }
}

/// Frames are ordered by their last number.
impl Numbered for CompleteFrame {
    ghost number_of = { λ frame. frame.last };

    fn number(&self) -> u64 {
        self.last
    }
}
