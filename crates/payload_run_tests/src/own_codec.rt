//! A custom codec, as in docs/develop/RATTLE.md.

ghost use Rattle.std.specs.Prelude.{[], ⊤, false, true};

use crate::asserts::assert_bytes;
use crate::library::{bytes_and_markers, sample};
use codec_payload_core::codec::{BoxedPacketizer, CodecPacketizer, Packetizer};
use codec_payload_core::error::PacketError;
use codec_payload_core::payload::{MemorySink, Payloader};
use codec_payload_core::wire::{Frequency, ToPayload};
use std::alloc::Global;
use std::test::Fail;

/// Sends each byte of a frame in a separate packet.
#[derive(Debug, Drop)]
pub(super) struct EachByte {}

impl Packetizer for EachByte {
    // What callers may rely on is the author's choice. These promise nothing, and owe no proof.
    ghost state = { λ _. [] };

    ghost packetize_step = { λ _ _ _ _ _. ⊤ };

    ghost marker_step = { λ _ _ _ _ _ _. ⊤ };

    ghost marks_spurts = { λ _. false };

    ghost may_be_asked_for = { λ _. true };

    fn packetize(
        &mut self,
        alloc: Global,
        _mtu: usize,
        b: &[u8],
    ) -> Result<Vec<Vec<u8>>, PacketError> {
        let mut packets = Vec::new(alloc);
        for byte in b {
            packets.push(Vec::from_slice(alloc, &[*byte])?)?;
        }
        Ok(packets)
    }

    fn is_marker(&mut self, _data: &[u8], _previous: Option<&[u8]>, last: bool) -> bool {
        last
    }

    fn marks_talkspurt(&self) -> bool {
        false
    }

    fn nackable(&self) -> bool {
        true
    }
}

/// Sends a sample twice: by its codec's type, and by a box whose contents are known when the program runs.
fn send_twice(alloc: Global, sample: &ToPayload, sink: &mut MemorySink) -> Result<(), PacketError> {
    let own = CodecPacketizer::Boxed(EachByte {});
    let mut payloader = Payloader::with_packetizer(own, Frequency::EIGHT_KHZ);
    payloader.push_sample(alloc, sample, 1_200, sink)?;

    let boxed = CodecPacketizer::Boxed(BoxedPacketizer(Box::new(alloc, EachByte {})?));
    let mut payloader = Payloader::with_packetizer(boxed, Frequency::EIGHT_KHZ);
    payloader.push_sample(alloc, sample, 1_200, sink)
}

#[test]
fn a_codec_of_ones_own(rt: HostRuntime) -> Result<(), Fail> {
    let alloc = rt.alloc();
    let mut sink = MemorySink::new(alloc, 1);
    send_twice(alloc, &sample(alloc, 960, &[1, 2])?, &mut sink)?;
    let sent = bytes_and_markers(alloc, &sink)?;
    assert_bytes(&rt, "what is sent", &sent, &[1, 0, 2, 1, 1, 0, 2, 1]);
    Ok(())
}
