//! Outgoing packets, and the sinks that accept them.

ghost use Rattle.std.specs.Prelude.{◌≡◌, ◌∷◌, ◌++◌, ◌+◌, ◌%◌, ◌^◌, ◌<◌, ℕ, List, [], Option, OnOk, IfErr};
ghost use Rattle.std.specs.Option.{option_copied};
ghost use Rattle.codec_payload_base.specs.declared.error.PacketError.{PacketError as Fault};
ghost use Rattle.codec_payload_payloader.specs.Packets.{Packet, packet_of, last_payload};

use codec_payload_base::error::PacketError;
use codec_payload_base::wire::{ExtensionValues, Pt, SeqNo, Ticks};

/// A packet that a sink sends.
#[derive(Drop)]
pub struct OutgoingPacket {
    pub pt: Pt,
    pub seq_no: SeqNo,
    /// The RTP time, in ticks of the RTP clock, modulo 2^32.
    pub rtp_time: u32,
    /// The time of the sample, by your clock.
    pub wallclock: Ticks,
    pub marker: bool,
    /// Whether a receiver may request a retransmission of the packet.
    pub nackable: bool,
    pub ext_vals: ExtensionValues,
    pub payload: Vec<u8>,
}

/// The destination of packets.
pub trait PacketSink {
    /// The sent packets.
    ghost sent: { Self → List Packet };

    /// The number of the next packet.
    ghost next: { Self → ℕ };

    /// The sink before, a packet, the packet as it was sent, and the sink afterwards.
    ghost accepts: { Self → Packet → Packet → Self → Type 0 };

    /// The sink before, a refused packet, the fault, and the sink afterwards.
    ghost refuses: { Self → Packet → Fault → Self → Type 0 };

    /// The sink afterwards has the same borrows as before.
    ghost keeps: { Self → Self → Type 0 };

    /// Returns the number of the next packet.
    fn next_seq_no(&mut self) -> SeqNo
        ensures number { result.0 ≡ next self.old }
        ensures same { self.new ≡ self.old };

    /// Returns the payload of the last sent packet, or `None` before the first.
    fn last_packet(&self) -> Option<&[u8]>
        ensures { option_copied result ≡ last_payload (sent self.now) };

    /// Sends a packet. If the sink refuses the packet, the sent packets and the next number are unchanged.
    fn send(&mut self, packet: OutgoingPacket) -> Result<(), PacketError>
        ensures ok { OnOk result ((image : Packet) × accepts self.old (packet_of packet) image self.new
            × (sent self.new ≡ sent self.old ++ image ∷ []) × (next self.new ≡ (next self.old + 1) % 2 ^ 64)) }
        ensures err { IfErr result (λ fault. refuses self.old (packet_of packet) fault self.new
            × (sent self.new ≡ sent self.old) × (next self.new ≡ next self.old)) }
        ensures kept { keeps self.old self.new };

    /// An unchanged sink keeps its borrows.
    ghost keeps_same: { (x : Self) → keeps x x };

    /// Keeping is transitive: if `keeps x y` and `keeps y z`, then `keeps x z`.
    ghost keeps_on: { (x y z : Self) → keeps x y → keeps y z → keeps x z };
}
