//! Numbers without media of which no packet arrived, and what a caller needs to find them.

ghost use Rattle.std.specs.Prelude.{◌≡◌, IfOk, OnErr};
ghost use Rattle.codec_payload_base.specs.Extended.{extended};
ghost use Rattle.codec_payload_jitter.specs.NotedRanges.{NotesRange};

use super::Receiver;
use crate::notes::near;
use codec_payload_codec::codec::Depacketizer;
use std::alloc::AllocError;

impl<B: Depacketizer> Receiver<B> {
    /// Records that the extended numbers from `first` up to `end`, exclusive, carry no media, though none of their packets arrived. They
    /// are then not missing, and no unit waits for them. Returns how many of these numbers were not known to carry no media. `None`: a
    /// packet with one of these numbers is held, and nothing has changed. See [`JitterBuffer::note_no_media`].
    ///
    /// A receiver finds no such numbers by itself. [`PictureEdges`] finds them, by the extended numbers of packets
    /// ([`Receiver::extended_number`]).
    ///
    /// [`JitterBuffer::note_no_media`]: codec_payload_jitter::jitter::JitterBuffer::note_no_media
    /// [`PictureEdges`]: codec_payload_edges::pictures::PictureEdges
    ///
    /// # Errors
    ///
    /// Out of memory: nothing has changed.
    pub fn note_no_media(&mut self, first: u64, end: u64) -> Result<Option<usize>, AllocError>
        ensures ok { IfOk result (λ noted. NotesRange first end self.old.packets noted self.new.packets) }
        ensures beside { self.new ≡ record self.old { packets = record self.old.packets { no_media_numbers = self.new.packets.no_media_numbers } } }
        ensures err { OnErr result (self.new ≡ self.old) }
    {
        self.packets.note_no_media(first, end)
    }

    /// Returns the extended number of the packet of the stream whose sequence number is `low`: at most 32,768 above or 32,767 below the
    /// highest number received so far. Before the first packet it is `low`.
    pub fn extended_number(&self, low: u16) -> u64
        ensures { result ≡ extended 65536 self.now.packets.numbering.greatest low }
    {
        near(self.packets.greatest(), low)
    }

    /// Returns how many restarts of the sender were found, modulo 2^64.
    pub fn restarts(&self) -> u64
        ensures { result ≡ self.now.packets.counters.restarts }
    {
        self.packets.counters().restarts
    }
}
