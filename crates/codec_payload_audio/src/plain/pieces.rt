//! Frames cut into pieces that carry themselves (docs/use/FORMATS.md, "Opus, G.711, G.722").

ghost use Rattle.std.specs.Prelude.{◌≡◌, [], OnErr, true, false};
ghost use Rattle.codec_payload_base.specs.Answers.{written, IsWritten};
ghost use Rattle.codec_payload_base.specs.PayloadLists.{rooms_of};
ghost use Rattle.codec_payload_base.specs.Pieces.{AnswersPieces};

use codec_payload_base::described::{send_pieces, write_pieces};
use codec_payload_base::error::PacketError;
use codec_payload_base::interface::Packetizer;
use codec_payload_base::payloads::Payloads;
use std::alloc::Global;
use std::fmt;

/// Cuts frames into pieces of MTU bytes: the packetizer of Opus, and of G.711 and G.722. `IS_OPUS` makes them two types, and has no
/// other effect.
#[derive(Clone, Default, Drop)]
pub struct PiecesPacketizer<const IS_OPUS: bool> {}

/// Prints the name of the packetizer.
impl<const IS_OPUS: bool> fmt::Debug for PiecesPacketizer<IS_OPUS> {
    fn fmt<W: fmt::Write>(&self, f: &mut fmt::Formatter<W>) -> fmt::Result {
        if IS_OPUS {
            f.write_str("OpusPacketizer")
        } else {
            f.write_str("G7xxPacketizer")
        }
    }
}

impl<const IS_OPUS: bool> Packetizer for PiecesPacketizer<IS_OPUS> {
    ghost state = { λ _. [] };

    ghost packetize_step = { λ _ mtu frame answer after. AnswersPieces mtu frame answer × (after ≡ []) };

    ghost marker_step = { λ _ _ _ _ answer after. (answer ≡ false) × (after ≡ []) };

    ghost marks_spurts = { λ _. true };

    ghost may_be_asked_for = { λ _. false };

    /// The frame in pieces of `mtu` bytes, the last with the rest. An empty frame, or an MTU of 0, gives no packets.
    /// Each byte is copied once.
    fn packetize(
        &mut self,
        alloc: Global,
        mtu: usize,
        b: &[u8],
    ) -> Result<Vec<Vec<u8>>, PacketError> {
        send_pieces(alloc, mtu, b)
    }

    fn packetize_into(
        &mut self,
        _alloc: Global,
        mtu: usize,
        b: &[u8],
        out: &mut Payloads,
    ) -> Result<(), PacketError>
        ensures written { AnswersPieces mtu b.now (written result out.new.payloads) }
        ensures step { IsWritten (λ answer. ⟦<PiecesPacketizer<IS_OPUS> as Packetizer>⟧.packetize_step self.old mtu b.now answer []) result out.new.payloads }
        ensures fault { OnErr result (out.new.payloads ≡ []) }
        ensures rooms { rooms_of out.new ≡ rooms_of out.old }
    {
        out.clear();
        let answer = write_pieces(mtu, b, out);
        out.settle(answer)
    }

    fn is_marker(&mut self, _data: &[u8], _previous: Option<&[u8]>, _last: bool) -> bool {
        false
    }

    fn marks_talkspurt(&self) -> bool
        ensures { result ≡ true }
    {
        true
    }

    fn nackable(&self) -> bool
        ensures { result ≡ false }
    {
        false
    }
}
