//! The edges of the pictures of a receiver's stream.

ghost use Rattle.std.specs.Prelude.{◌≡◌, Option};
ghost use Rattle.std.specs.Option.{option_map};
ghost use Rattle.codec_payload_stream_edges.specs.Following.{Follows, FollowsMedia, HearsFor, checked_for, has_come, is_stored, is_trusted};

use crate::followed::{Followed, SenderMark};
use crate::rules::EdgeRules;
use codec_payload_codec::codec::Depacketizer;
use codec_payload_datagrams::parsed::ParsedDatagram;
use codec_payload_edges::edge::Edge;
use codec_payload_jitter::outcome::Outcome;
use codec_payload_receiver::receiver::{ReceiveError, Receiver};
use std::alloc::{AllocError, Global};
use std::marker::Model;

/// The edges of the latest pictures of a receiver's stream: they show which of its missing numbers carry no media.
///
/// Lost padding, and lost packets of error correction under the SSRC of the media, are numbers that never come. Without this they are
/// requested again and again, hold frames back for `max_wait`, and cost a keyframe. The picture ids of VP8 and VP9, and the frame_numbers
/// of the dependency descriptor, show that no media lies between two pictures. See [`StreamEdges::follow`].
///
/// It takes one word, and 1.5 kB on the heap from the first packet on that begins or ends a picture with an id.
#[derive(Debug, Drop)]
pub struct StreamEdges {
    alloc: Global,
    followed: Option<Box<Followed>>,
}

impl Model for StreamEdges {
    ghost use Rattle.std.specs.Prelude.{Option};
    ghost use Rattle.codec_payload_stream_edges.specs.Following.{unboxed};
    ghost use Rattle.codec_payload_stream_edges.specs.declared.followed.Followed.{Followed};

    ghost Value = { Option Followed };

    ghost view = { λ s. unboxed s.followed };
}

impl StreamEdges {
    /// Returns the state before the first packet. Does not allocate.
    pub fn new(alloc: Global) -> StreamEdges
        ensures { result ≡ Option.None }
    {
        StreamEdges {
            alloc,
            followed: None,
        }
    }

    /// Forgets everything. Call it if you call [`Receiver::restart`] or [`Receiver::restart_as`]; restarts that the receiver finds by
    /// itself need no call.
    ///
    /// [`Receiver::restart`]: codec_payload_receiver::receiver::Receiver::restart
    /// [`Receiver::restart_as`]: codec_payload_receiver::receiver::Receiver::restart_as
    pub fn forget(&mut self)
        ensures { self.new ≡ Option.None }
    {
        self.followed = None;
    }

    /// Returns whether the sender has kept the rule so far: its pictures come in the order of their ids, and no media arrived under a
    /// number between two of them. If it did not, no numbers are found until the receiver finds a restart, or you call
    /// [`StreamEdges::forget`].
    pub fn is_trusted(&self) -> bool
        ensures { result ≡ is_trusted self.now }
    {
        match &self.followed {
            Some(followed) => followed.is_trusted(),
            None => true,
        }
    }

    /// Follows a datagram that the receiver has received, and records which numbers carry no media
    /// ([`Receiver::note_no_media`]). Call it after each call of [`Receiver::receive_parsed`], with the same datagram and the answer of
    /// that call.
    ///
    /// If the packet that was stored ends a picture, another packet begins the next picture, and their numbers differ by 2 to 128, then
    /// the numbers between them carry no media. Retransmissions count under their original numbers. Nothing is recorded if a packet with
    /// one of these numbers is held: the sender then does not keep the rule, and its edges count no longer.
    ///
    /// [`Receiver::note_no_media`]: codec_payload_receiver::receiver::Receiver::note_no_media
    /// [`Receiver::receive_parsed`]: codec_payload_receiver::receiver::Receiver::receive_parsed
    ///
    /// # Errors
    ///
    /// Out of memory: the receiver is unchanged but for numbers that were recorded before memory ran out. The packet may count no longer as
    /// an edge; the stream goes on, and later packets are followed.
    #[inline(always)]
    pub fn follow<B: Depacketizer>(
        &mut self,
        rules: &EdgeRules,
        receiver: &mut Receiver<B>,
        datagram: &ParsedDatagram<'_>,
        answer: &Result<Outcome, ReceiveError>,
    ) -> Result<(), AllocError>
        ensures follows { Follows rules.now datagram.now answer.now self.old receiver.old result self.new receiver.new }
        ensures beside { receiver.new ≡ record receiver.old { packets = record receiver.old.packets { no_media_numbers = receiver.new.packets.no_media_numbers } } }
    {
        if !rules.can_say() || !has_come(answer) {
            return Ok(());
        }
        self.follow_media(rules, receiver, datagram, is_stored(answer))
    }

    /// Does the same for a datagram whose packet was stored, or was late.
    #[inline(never)]
    fn follow_media<B: Depacketizer>(
        &mut self,
        rules: &EdgeRules,
        receiver: &mut Receiver<B>,
        datagram: &ParsedDatagram<'_>,
        is_stored: bool,
    ) -> Result<(), AllocError>
        ensures follows { FollowsMedia rules.now datagram.now is_stored self.old receiver.old result self.new receiver.new }
        ensures beside { receiver.new ≡ record receiver.old { packets = record receiver.old.packets { no_media_numbers = receiver.new.packets.no_media_numbers } } }
    {
        let Some(ssrc) = receiver.ssrc() else {
            return Ok(());
        };
        let Some(packet) = rules.brought(ssrc, datagram) else {
            return Ok(());
        };
        let sender = SenderMark {
            ssrc,
            restarts: receiver.restarts(),
        };
        let number = receiver.extended_number(packet.number);
        self.check(sender, number);
        match rules.edge(&packet) {
            Some(edge) if is_stored => self.hear(sender, number, edge, receiver),
            _ => Ok(()),
        }
    }

    /// Records that media arrived under this number.
    fn check(&mut self, sender: SenderMark, number: u64)
        ensures { self.new ≡ option_map (checked_for sender number) self.old }
    {
        if let Some(followed) = &mut self.followed {
            followed.check(sender, number);
        }
    }

    /// Records a packet that begins or ends a picture. The first one needs memory.
    fn hear<B: Depacketizer>(
        &mut self,
        sender: SenderMark,
        number: u64,
        edge: Edge,
        receiver: &mut Receiver<B>,
    ) -> Result<(), AllocError>
        ensures heard { HearsFor sender number edge self.old receiver.old.packets result self.new receiver.new.packets }
        ensures beside { receiver.new ≡ record receiver.old { packets = record receiver.old.packets { no_media_numbers = receiver.new.packets.no_media_numbers } } }
    {
        if let Some(followed) = &mut self.followed {
            return followed.hear(sender, number, edge, receiver);
        }
        let mut followed = Box::new(self.alloc, Followed::begin(sender))?;
        let answer = followed.hear(sender, number, edge, receiver);
        self.followed = Some(followed);
        answer
    }
}

/// Returns whether the packet was stored.
#[inline(always)]
fn is_stored(answer: &Result<Outcome, ReceiveError>) -> bool
    ensures { result ≡ is_stored answer.now }
{
    matches!(
        answer,
        Ok(Outcome::Held | Outcome::HeldAndEvicted | Outcome::Restarted(_))
    )
}

/// Returns whether the packet has media that came for the first time: it was stored, or it was late.
#[inline(always)]
fn has_come(answer: &Result<Outcome, ReceiveError>) -> bool
    ensures { result ≡ has_come answer.now }
{
    is_stored(answer) || matches!(answer, Ok(Outcome::Late))
}
