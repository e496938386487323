//! The receiver of a stream of a session: its settings name the SSRC, so no packet waits for the choice of a stream.

ghost use Rattle.std.specs.Prelude.{◌≡◌, IfOk, OnOk, false};
ghost use Rattle.codec_payload_jitter.specs.Missing.{missing_numbers};
ghost use Rattle.codec_payload_codec.specs.Depacketizers.{depacketizer_state_of};
ghost use Rattle.codec_payload_receiver.specs.Pops.{NamesFault, PopsGated, answer_of, is_large, is_too_large};
ghost use Rattle.codec_payload_session_requests.specs.Named.{FollowsEdges, popped_with};
ghost use Rattle.codec_payload_numbers.specs.Reports.{report_of, reported};
ghost use Rattle.codec_payload_receiver.specs.Sessions.{Ends, ReceivesBytes, is_none_of, session_by};

use codec_payload_base::wire::Ticks;
use codec_payload_buffer::buffer::PoppedUnit;
use codec_payload_codec::codec::CodecDepacketizer;
use codec_payload_datagrams::parsed::ParsedDatagram;
use codec_payload_jitter::jitter::WaitLimits;
use codec_payload_jitter::outcome::Outcome;
use codec_payload_receiver::pops::Popped;
use codec_payload_receiver::receiver::{
    ReceiveError, Receiver, Retransmission, Settings, SettingsError,
};
use codec_payload_receiver::reports::ReceptionReport;
use codec_payload_stream_edges::following::StreamEdges;
use codec_payload_stream_edges::rules::EdgeRules;
use std::alloc::{AllocError, Global};
use std::marker::Model;

/// A receiver whose settings name the SSRC. It has its own memory, so that little is moved if a stream before it ends.
#[derive(Debug, Drop)]
pub struct NamedReceiver {
    receiver: Box<Receiver>,
}

impl Model for NamedReceiver {
    ghost use Rattle.codec_payload_receiver.specs.Sessions.{Session};

    ghost Value = { Session };

    ghost use Rattle.codec_payload_session_requests.specs.Named.{IsNamed};

    ghost view = { λ r. r.receiver.value };

    ghost invariant = { λ r. IsNamed r.receiver.value };
}

impl NamedReceiver {
    /// Creates a receiver with these settings. See [`Receiver::new`].
    pub fn begin(
        alloc: Global,
        depacketizer: CodecDepacketizer,
        settings: Settings,
    ) -> Result<Result<NamedReceiver, SettingsError>, AllocError>
        requires { is_none_of settings.ssrc ≡ false }
        ensures { IfOk result (λ begun. begun ≡ session_by settings (depacketizer_state_of depacketizer)) }
    {
        match Receiver::new(alloc, depacketizer, settings) {
            Ok(receiver) => Ok(Ok(NamedReceiver {
                receiver: Box::new(alloc, receiver)?,
            })),
            Err(fault) => Ok(Err(fault)),
        }
    }

    /// Lends the receiver.
    #[inline(always)]
    pub fn inner(&self) -> &Receiver
        ensures { result.now ≡ self.now }
    {
        &self.receiver
    }

    /// Writes the missing numbers to `numbers`, at most `most` of them. See [`Receiver::missing_into`].
    pub(crate) fn missing_into(
        &mut self,
        most: usize,
        numbers: &mut Vec<u64>,
    ) -> Result<(), AllocError>
        ensures numbers { OnOk result (numbers.new.items ≡ missing_numbers self.old.packets most) }
        ensures same { self.new ≡ self.old }
    {
        self.receiver.missing_into(most, numbers)
    }

    /// Receives a datagram. See [`Receiver::receive_parsed`].
    #[inline(always)]
    pub fn receive(
        &mut self,
        now: Ticks,
        datagram: &ParsedDatagram<'_>,
    ) -> Result<Outcome, ReceiveError>
        ensures received { ReceivesBytes now datagram.now self.old result self.new }
    {
        self.receiver.receive_parsed(now, datagram)
    }

    /// Follows a datagram by the edges of the stream's pictures, and records which numbers carry no media. `answer` is what
    /// [`NamedReceiver::receive`] returned for it. If memory runs out, fewer numbers are recorded, and nothing else differs. See
    /// [`StreamEdges::follow`].
    #[inline(always)]
    pub fn follow(
        &mut self,
        edges: &mut StreamEdges,
        rules: &EdgeRules,
        datagram: &ParsedDatagram<'_>,
        answer: &Result<Outcome, ReceiveError>,
    )
        ensures { FollowsEdges rules.now datagram.now answer.now edges.old self.old edges.new self.new }
    {
        let _ = edges.follow(rules, &mut self.receiver, datagram, answer);
    }

    /// Pops the next unit into `unit`, or returns a refused frame. See [`Receiver::pop_unit`].
    #[inline(always)]
    pub fn pop_unit(
        &mut self,
        now: Ticks,
        unit: &mut PoppedUnit,
    ) -> Option<Result<Popped<()>, AllocError>>
        ensures pops { PopsGated now.0 self.old (answer_of (popped_with result unit.new)) self.new }
        ensures refused { NamesFault (popped_with result unit.new) }
        ensures large { is_too_large (popped_with result unit.new) ≡ is_large self.old.bound.most (answer_of (popped_with result unit.new)) }
    {
        self.receiver.pop_unit(now, unit)
    }

    /// Ends the stream. Allocates nothing, since no packet waits. See [`Receiver::finish`].
    pub fn finish(&mut self)
        ensures finished { Ends self.old self.new }
    {
        self.receiver.finish().unwrap();
    }

    /// Replaces the wait limits. See [`Receiver::set_wait_limits`].
    pub fn set_wait_limits(&mut self, wait_limits: WaitLimits)
        ensures { self.new ≡ record self.old { packets = record self.old.packets { wait_limits = wait_limits } } }
    {
        self.receiver.set_wait_limits(wait_limits);
    }

    /// Replaces the SSRC and payload type of retransmissions. See [`Receiver::set_retransmission`].
    pub fn set_retransmission(&mut self, retransmission: Option<Retransmission>)
        ensures { self.new ≡ record self.old { stream = record self.old.stream { retransmission = retransmission } } }
    {
        self.receiver.set_retransmission(retransmission);
    }

    /// Returns the fields of a receiver report. See [`Receiver::report`].
    pub fn report(&mut self) -> Option<ReceptionReport>
        ensures value { result ≡ report_of self.old.reception }
        ensures after { self.new ≡ record self.old { reception = reported self.old.reception } }
    {
        self.receiver.report()
    }
}
