//! A sink that keeps packets in memory.

ghost use Rattle.std.specs.Prelude.{◌≡◌, ◌∷◌, ◌++◌, ◌+◌, ◌^◌, ◌<◌, ◌≤◌, [], Option, length, Ok};
ghost use Rattle.codec_payload_payloader.specs.Packets.{packets_in};

use crate::sink::{OutgoingPacket, PacketSink};
use codec_payload_base::error::PacketError;
use codec_payload_base::wire::SeqNo;
use std::alloc::Global;
use std::marker::Model;

/// Keeps the packets in memory, in order.
#[derive(Drop)]
pub struct MemorySink {
    first: u64,
    kept: Vec<OutgoingPacket>,
}

impl Model for MemorySink {
    ghost use Rattle.std.specs.Prelude.{◌≤◌, ◌^◌};
    ghost use Rattle.codec_payload_payloader.specs.Packets.{SentPackets, packets_in};

    ghost Value = { SentPackets };

    ghost view = { λ s. record { first = s.first; packets = packets_in s.kept.items } };

    ghost invariant = { λ s. s.first ≤ 2 ^ 62 };
}

impl MemorySink {
    /// Returns an empty sink, whose first packet gets the number `first`. `first` must be at most 2^62, so that each number
    /// fits 64 bits.
    pub fn new(alloc: Global, first: u64) -> Self
        requires { first ≤ 2 ^ 62 }
        ensures { result ≡ record { first = first; packets = [] } }
    {
        MemorySink {
            first,
            kept: Vec::new(alloc),
        }
    }

    /// Returns the sent packets, in order.
    pub fn packets(&self) -> &[OutgoingPacket]
        ensures value { packets_in result.now ≡ self.now.packets }
        ensures few { length self.now.packets < 2 ^ 63 }
    {
        &self.kept
    }
}

impl PacketSink for MemorySink {
    ghost use Rattle.std.specs.Prelude.{◌≡◌, ◌+◌, ◌<◌, ◌^◌, ◌++◌, ◌∷◌, [], length};
    ghost use Rattle.codec_payload_base.specs.declared.error.PacketError.TheVariants as faults;

    ghost sent = { λ s. s.packets };

    ghost next = { λ s. s.first + length s.packets };

    ghost accepts = { λ before packet image after. (image ≡ packet) × (after ≡ record before { packets = before.packets ++ packet ∷ [] }) × (after.first + length after.packets < 2 ^ 64) };

    ghost refuses = { λ before _ fault after. (fault ≡ faults.OutOfMemory) × (after ≡ before) };

    ghost keeps = { λ _ _. Unit {0} };

    ghost keeps_same = { λ _. tt };

    ghost keeps_on = { λ _ _ _ _ _. tt };

    fn next_seq_no(&mut self) -> SeqNo {
        SeqNo(self.first + self.kept.len() as u64)
    }

    fn last_packet(&self) -> Option<&[u8]> {
        match self.kept.last() {
            Some(packet) => Some(packet.payload.as_slice()),
            None => None,
        }
    }

    fn send(&mut self, packet: OutgoingPacket) -> Result<(), PacketError> {
        self.kept.push(packet)?;
        Ok(())
    }
}
