//! The sender before a restart. Its packets that still arrive must not become the highest.

ghost use Rattle.std.specs.Prelude.{◌≡◌, IfOk, OnOk, OnErr, IfErr, Option, false};
ghost use Rattle.codec_payload_base.specs.declared.error.PacketError.TheVariants.{OutOfMemory};
ghost use Rattle.codec_payload_codec.specs.Depacketizers.{is_built_in_depacketizer};
ghost use Rattle.codec_payload_jitter.specs.OwnReceiving.{OwnStores};
ghost use Rattle.codec_payload_jitter.specs.Receiving.{NotesAs, ReceivesAs, arrival_of, former_of};
ghost use Rattle.codec_payload_numbers.specs.declared.numbers.Extended.TheVariants as extended;

use super::{JitterBuffer, KeptPacket};
use crate::outcome::Outcome;
use codec_payload_base::error::PacketError;
use codec_payload_codec::codec::Depacketizer;
use codec_payload_numbers::noted_times::FormerSender;

impl<B: Depacketizer> JitterBuffer<B> {
    /// Stores the packet that confirms a restart, as [`JitterBuffer::restart_with`] does, and remembers the former sender.
    #[inline(never)]
    pub(super) fn restart_after_former(
        &mut self,
        number: u64,
        packet: KeptPacket,
    ) -> Result<Outcome, PacketError>
        ensures ok { IfOk result (λ outcome. ReceivesAs (extended.Restarted number) (arrival_of packet) self.old outcome self.new) }
        ensures err { OnErr result (self.new ≡ self.old) }
        ensures fault { IfErr result (λ f. f ≡ OutOfMemory) }
        ensures own { is_built_in_depacketizer self.old.buffer.depacketizer ≡ false → OwnStores B.is_head B.is_tail self.old.buffer self.new.buffer }
    {
        let former = self.former();
        let outcome = self.restart_with(number, packet)?;
        self.noted_times.set_former(former);
        Ok(outcome)
    }

    /// Notes a number without media that confirms a restart, and remembers the former sender.
    pub(super) fn restart_without_media_after_former(
        &mut self,
        number: u64,
    ) -> Result<(), PacketError>
        ensures ok { OnOk result (NotesAs (extended.Restarted number) self.old self.new) }
        ensures err { OnErr result (self.new ≡ self.old) }
        ensures fault { IfErr result (λ f. f ≡ OutOfMemory) }
        ensures own { is_built_in_depacketizer self.old.buffer.depacketizer ≡ false → OwnStores B.is_head B.is_tail self.old.buffer self.new.buffer }
    {
        let former = self.former();
        self.restart_without_media(number)?;
        self.noted_times.set_former(former);
        Ok(())
    }

    /// Returns the sender up to now. After a restart that the caller announced there is none.
    fn former(&self) -> Option<FormerSender>
        ensures { result ≡ former_of self.now }
    {
        match self.numbers.greatest() {
            Some(highest) if !self.is_restarting => self.noted_times.sender(highest),
            _ => None,
        }
    }
}
