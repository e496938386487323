//! Leaving the sender of a stream: restarts that a caller announces, and the choice of another stream.

ghost use Rattle.std.specs.Prelude.{◌≡◌, Option, false, slice_get};
ghost use Rattle.codec_payload_codec.specs.Depacketizers.{is_built_in_depacketizer};
ghost use Rattle.codec_payload_datagrams.specs.Kinds.{retransmitted_under};
ghost use Rattle.codec_payload_jitter.specs.OwnReceiving.{OwnStores};
ghost use Rattle.codec_payload_receiver.specs.Sessions.{SettlesAnew, come_back, gone_over_to, restarted};

use super::Receiver;
use crate::notes::{put_suspect, take_suspect};
use crate::reports::ReceptionStatistics;
use codec_payload_codec::codec::Depacketizer;
use codec_payload_jitter::jitter::BeforeRestart;
use codec_payload_numbers::seen_times::LazySeenTimes;
use codec_payload_references::note::FrameNote;
use std::mem;

/// What a receiver knew of the sender that it has left.
#[derive(Debug, Drop)]
struct LeftStream {
    ssrc: Option<u32>,
    statistics: ReceptionStatistics,
    seen: LazySeenTimes,
    /// The note of the suspect packet, with its number.
    suspect: Option<(u16, FrameNote)>,
    before: BeforeRestart,
}

impl<B: Depacketizer> Receiver<B> {
    /// Announces that the sender has restarted. The next packet of the stream gets a number above all earlier numbers, with
    /// media or without, and pops wait again. Held packets stay, and are released before the packets after the restart. A
    /// suspect packet is dropped, and stays counted as suspect. Reports start again. A keyframe is needed from now on
    /// ([`Receiver::wants_keyframe`]).
    ///
    /// If the settings name no SSRC, two packets choose the stream again; packets that wait belong to other streams.
    pub fn restart(&mut self)
        ensures { self.new ≡ restarted self.old.named self.old }
    {
        let named = self.named;
        self.begin_anew(named);
    }

    /// Does the same as [`Receiver::restart`] if you know the new SSRC. From then on packets of the earlier SSRC belong to
    /// another stream. `retransmission` is the new SSRC of retransmissions; with `None` it stays. Without `retransmission` in
    /// the settings the argument is ignored.
    pub fn restart_as(&mut self, ssrc: u32, retransmission: Option<u32>)
        ensures { self.new ≡ restarted (Option.Some ssrc) (record self.old { stream = retransmitted_under retransmission self.old.stream; named = Option.Some ssrc }) }
    {
        self.stream.retransmit_under(retransmission);
        self.named = Some(ssrc);
        self.begin_anew(Some(ssrc));
    }

    /// Leaves the stream, if there is one, and chooses the stream of the packet that waits at this place. Returns false if memory runs
    /// out; nothing has changed then.
    pub(super) fn settle_anew(&mut self, place: usize) -> bool
        ensures settled { SettlesAnew (slice_get self.old.choice.candidates place) result self.old self.new }
        ensures own { is_built_in_depacketizer self.old.packets.buffer.depacketizer ≡ false → OwnStores B.is_head B.is_tail self.old.packets.buffer self.new.packets.buffer }
    {
        if self.ssrc.is_none() {
            return self.settle_on(place);
        }
        let left = self.leave();
        if self.settle_on(place) {
            return true;
        }
        self.come_back(left);
        false
    }

    /// Restarts the stream, with this SSRC if it is known.
    fn begin_anew(&mut self, ssrc: Option<u32>)
        ensures { self.new ≡ restarted ssrc self.old }
    {
        let waiting = self.choice.candidates.len();
        self.turn_away(waiting);
        self.choice.forget();
        self.gates.skip();
        self.go_over_to(ssrc);
    }

    /// Begins the numbers of another sender, with this SSRC if it is known.
    fn go_over_to(&mut self, ssrc: Option<u32>)
        ensures { self.new ≡ gone_over_to ssrc self.old }
    {
        let _ = self.leave();
        self.ssrc = ssrc;
    }

    /// Begins the numbers of another sender whose SSRC is not known, and returns what [`Receiver::come_back`] needs to undo it.
    fn leave(&mut self) -> LeftStream
        ensures left { self.new ≡ gone_over_to Option.None self.old }
        ensures back { come_back result self.new ≡ self.old }
    {
        let left = LeftStream {
            ssrc: self.ssrc,
            statistics: self.statistics,
            seen: mem::replace(&mut self.seen, LazySeenTimes::none()),
            suspect: take_suspect(&mut self.notes),
            before: self.packets.restart_for_now(),
        };
        self.ssrc = None;
        self.statistics = self.statistics.anew();
        left
    }

    /// Goes back to the stream that was left.
    fn come_back(&mut self, left: LeftStream)
        ensures { self.new ≡ come_back left self.old }
    {
        self.ssrc = left.ssrc;
        self.statistics = left.statistics;
        self.seen = left.seen;
        put_suspect(&mut self.notes, left.suspect);
        self.packets.take_back(left.before);
    }
}
