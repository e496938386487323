//! The suspect packet that is kept, and restarts that the caller takes back.

ghost use Rattle.std.specs.Prelude.{◌≡◌};
ghost use Rattle.std.specs.Option.{is_some};
ghost use Rattle.codec_payload_jitter.specs.Receiving.{begun_anew};
ghost use Rattle.codec_payload_jitter.specs.Suspects.{is_kept_at, taken_back};

use super::{JitterBuffer, KeptPacket};
use codec_payload_codec::codec::Depacketizer;
use codec_payload_numbers::noted_times::NotedTime;

/// What a restart that the caller announced has replaced. See [`JitterBuffer::restart_for_now`].
#[derive(Debug, Drop)]
pub struct BeforeRestart {
    ended: bool,
    is_restarting: bool,
    first: Option<NotedTime>,
    kept: Option<KeptPacket>,
}

impl<B: Depacketizer> JitterBuffer<B> {
    /// Returns whether a suspect packet is kept.
    pub fn has_suspect(&self) -> bool
        ensures { result ≡ is_some self.now.kept }
    {
        self.kept.is_some()
    }

    /// Returns whether the suspect packet that is kept has this sequence number and this RTP time.
    pub fn keeps_suspect(&self, low: u16, time: u32) -> bool
        ensures { result ≡ is_kept_at low time self.now.kept }
    {
        match &self.kept {
            Some(kept) => kept.header.sequence_number() == low && kept.header.timestamp() == time,
            None => false,
        }
    }

    /// Does the same as [`JitterBuffer::restart`], and returns what [`JitterBuffer::take_back`] needs to undo it. Allocates nothing.
    pub fn restart_for_now(&mut self) -> BeforeRestart
        ensures after { self.new ≡ begun_anew self.old }
        // If no packet was pushed since, `take_back` leaves the jitter buffer as it was.
        ensures back { taken_back result self.new ≡ self.old }
    {
        let before = BeforeRestart {
            ended: self.ended,
            is_restarting: self.is_restarting,
            first: self.first,
            kept: self.kept.take(),
        };
        self.restart();
        before
    }

    /// Takes back a restart that [`JitterBuffer::restart_for_now`] announced. Call it only if no packet was pushed since.
    pub fn take_back(&mut self, before: BeforeRestart)
        ensures { self.new ≡ taken_back before self.old }
    {
        self.ended = before.ended;
        self.is_restarting = before.is_restarting;
        self.first = before.first;
        self.kept = before.kept;
    }
}
