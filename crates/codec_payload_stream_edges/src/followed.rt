//! The edges of one sender's pictures, and what they say to a receiver.

ghost use Rattle.std.specs.Prelude.{◌≡◌, ◌<◌, IfSome};
ghost use Rattle.codec_payload_stream_edges.specs.Following.{HearsEdge, NotesGap, NotesLater, begun, checked_for, is_of_sender, of_sender};

use codec_payload_codec::codec::Depacketizer;
use codec_payload_edges::edge::Edge;
use codec_payload_edges::pictures::{Between, PictureEdges};
use codec_payload_receiver::receiver::Receiver;
use std::alloc::AllocError;

/// The sender of a stream's packets: its SSRC, and how many restarts were found before.
#[derive(Clone, Copy, Debug)]
pub(crate) struct SenderMark {
    pub(crate) ssrc: u32,
    pub(crate) restarts: u64,
}

/// The edges of the pictures of a sender.
#[derive(Clone, Copy, Debug)]
pub(crate) struct Followed {
    sender: SenderMark,
    pictures: PictureEdges,
}

impl Followed {
    /// Returns the state before the first packet of a sender.
    pub(crate) fn begin(sender: SenderMark) -> Followed
        ensures { result ≡ begun sender }
    {
        Followed {
            sender,
            pictures: PictureEdges::none(),
        }
    }

    /// Returns whether the edges are of this sender's pictures.
    fn is_of(&self, sender: SenderMark) -> bool
        ensures { result ≡ is_of_sender sender self.now }
    {
        self.sender.ssrc == sender.ssrc && self.sender.restarts == sender.restarts
    }

    /// Returns whether the sender has kept the rule so far.
    pub(crate) fn is_trusted(&self) -> bool
        ensures { result ≡ self.now.pictures.is_trusted }
    {
        self.pictures.is_trusted()
    }

    /// Records that media of this sender arrived under this number.
    pub(crate) fn check(&mut self, sender: SenderMark, number: u64)
        ensures { self.new ≡ checked_for sender number self.old }
    {
        if self.is_of(sender) {
            self.pictures.check(number);
        }
    }

    /// Records a packet of this sender, and passes the numbers beside it that carry no media to the receiver.
    pub(crate) fn hear<B: Depacketizer>(
        &mut self,
        sender: SenderMark,
        number: u64,
        edge: Edge,
        receiver: &mut Receiver<B>,
    ) -> Result<(), AllocError>
        ensures heard { HearsEdge number edge (of_sender sender self.old) receiver.old.packets result self.new receiver.new.packets }
        ensures beside { receiver.new ≡ record receiver.old { packets = record receiver.old.packets { no_media_numbers = receiver.new.packets.no_media_numbers } } }
    {
        self.go_over_to(sender);
        let gaps = self.pictures.hear(number, edge);
        let first = self.note(gaps.before, receiver);
        self.note_later(first, gaps.after, receiver)
    }

    /// Forgets the pictures of another sender.
    fn go_over_to(&mut self, sender: SenderMark)
        ensures { self.new ≡ of_sender sender self.old }
    {
        if !self.is_of(sender) {
            *self = Followed::begin(sender);
        }
    }

    /// Passes the numbers behind a packet to the receiver. `first` is the answer for the numbers before it: if memory ran out, or if the
    /// sender does not keep the rule, none are passed.
    fn note_later<B: Depacketizer>(
        &mut self,
        first: Result<(), AllocError>,
        range: Option<Between>,
        receiver: &mut Receiver<B>,
    ) -> Result<(), AllocError>
        requires { IfSome range (λ r. r.after < r.before) }
        ensures noted { NotesLater range first self.old receiver.old.packets result self.new receiver.new.packets }
        ensures beside { receiver.new ≡ record receiver.old { packets = record receiver.old.packets { no_media_numbers = receiver.new.packets.no_media_numbers } } }
    {
        first?;
        if !self.pictures.is_trusted() {
            return Ok(());
        }
        self.note(range, receiver)
    }

    /// Passes the numbers of a range to the receiver. If a packet of them is held, the sender does not keep the rule.
    fn note<B: Depacketizer>(
        &mut self,
        range: Option<Between>,
        receiver: &mut Receiver<B>,
    ) -> Result<(), AllocError>
        requires { IfSome range (λ r. r.after < r.before) }
        ensures noted { NotesGap range self.old receiver.old.packets result self.new receiver.new.packets }
        ensures beside { receiver.new ≡ record receiver.old { packets = record receiver.old.packets { no_media_numbers = receiver.new.packets.no_media_numbers } } }
    {
        let Some(range) = range else {
            return Ok(());
        };
        match receiver.note_no_media(range.after + 1, range.before)? {
            Some(0) => {}
            Some(_) => self.pictures.note(range),
            None => self.pictures.distrust(),
        }
        Ok(())
    }
}
