//! A stream of a port with FEC.

ghost use Rattle.std.specs.Prelude.{◌≡◌, IfOk, OnErr, OnOk};
ghost use Rattle.std.specs.Option.{option_map};
ghost use Rattle.codec_payload_fec_port.specs.Streams.{begun, counted, fed, may_go, no_counts, rebuilt_in, restarted, tried_in, with_rebuilt};

use crate::plain::Kind;
use crate::port_settings::FecPortSettings;
use codec_payload_fec_receiver::fec_receiver::FecReceiver;
use std::alloc::{AllocError, Global};

/// How many packets of media or of FEC make a stream one that is live.
const LIVE: u64 = 16;

/// After how many packets of the streams of the port a stream without a packet is silent.
const SILENT: u64 = 16_384;

/// How many packets there were, modulo 2^64.
#[derive(Clone, Copy, Debug, PartialEq, Eq)]
pub struct FecCounts {
    /// Packets of media that came, padding among them.
    pub media: u64,
    /// Packets of FEC that came.
    pub fec: u64,
    /// Packets that were rebuilt.
    pub rebuilt: u64,
}

/// A stream.
#[derive(Drop)]
pub(crate) struct FecStream {
    pub(crate) ssrc: u32,
    receiver: FecReceiver,
    pub(crate) counts: FecCounts,
    /// How many packets the streams of the port had when its latest one came.
    heard: u64,
}

/// Returns counts of nothing.
pub(crate) fn no_counts() -> FecCounts
    ensures { result ≡ no_counts }
{
    FecCounts {
        media: 0,
        fec: 0,
        rebuilt: 0,
    }
}

/// Returns the counts with one packet more.
pub(crate) fn counted(kind: Kind, counts: FecCounts) -> FecCounts
    ensures { result ≡ counted kind counts }
{
    match kind {
        Kind::Neither => counts,
        Kind::Media => FecCounts {
            media: counts.media.wrapping_add(1),
            ..counts
        },
        Kind::Fec => FecCounts {
            fec: counts.fec.wrapping_add(1),
            ..counts
        },
    }
}

/// Returns the counts with one rebuilt packet more.
pub(crate) fn with_rebuilt(counts: FecCounts) -> FecCounts
    ensures { result ≡ with_rebuilt counts }
{
    FecCounts {
        rebuilt: counts.rebuilt.wrapping_add(1),
        ..counts
    }
}

impl FecStream {
    /// Returns a stream that holds nothing.
    pub(crate) fn new(
        alloc: Global,
        settings: &FecPortSettings,
        ssrc: u32,
    ) -> Result<FecStream, AllocError>
        ensures { IfOk result (λ s. s ≡ begun settings.now ssrc) }
    {
        Ok(FecStream {
            ssrc,
            receiver: FecReceiver::new(alloc, settings.of_stream(ssrc))?,
            counts: no_counts(),
            heard: 0,
        })
    }

    /// Returns whether a stream that begins may take the place of this one: it is not live yet, or silent.
    pub(crate) fn may_go(&self, taken: u64) -> bool
        ensures { result ≡ may_go taken self.now }
    {
        (self.counts.media < LIVE && self.counts.fec < LIVE)
            || SILENT <= taken.wrapping_sub(self.heard)
    }

    /// Takes a packet.
    pub(crate) fn feed(&mut self, kind: Kind, taken: u64, datagram: &[u8]) -> Result<(), AllocError>
        ensures ok { OnOk result (self.new ≡ fed kind taken datagram.now self.old) }
        ensures err { OnErr result (self.new ≡ self.old) }
    {
        self.receiver.receive(datagram)?;
        self.counts = counted(kind, self.counts);
        self.heard = taken;
        Ok(())
    }

    /// Drops all packets.
    pub(crate) fn restart(&mut self)
        ensures { self.new ≡ restarted self.old }
    {
        self.receiver.restart();
    }

    /// Returns a packet that was rebuilt, as FEC protects it.
    pub(crate) fn next(&mut self) -> Result<Option<Vec<u8>>, AllocError>
        ensures ok { IfOk result (λ p. (option_map (λ v. v.items) p, self.new) ≡ rebuilt_in self.old) }
        ensures err { OnErr result (self.new ≡ tried_in self.old) }
    {
        let packet = self.receiver.next_rebuilt()?;
        if packet.is_some() {
            self.counts = with_rebuilt(self.counts);
        }
        Ok(packet)
    }
}
