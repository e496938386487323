//! Runs of a session: calls in order, with the answer of each.

ghost use Rattle.std.specs.Prelude.{◌≡◌, length, IfErr, IfOk, OnErr, Option};
ghost use Rattle.codec_payload_session.specs.Accepting.{Accepts, time_for};
ghost use Rattle.codec_payload_session_formats.specs.Checks.{fault_of};
ghost use Rattle.codec_payload_session.specs.Ports.{counts_with, new_session, taken_in};
ghost use Rattle.codec_payload_session_formats.specs.declared.formats.SessionSettings.{SessionSettings as Settings};
ghost use Rattle.codec_payload_session_runs.specs.Counting.{Counts};
ghost use Rattle.codec_payload_session_runs.specs.Endings.{EndsHaveCauses, FinishesHaveCauses, StreamsAreAlone, TwoDatagramsBegin};
ghost use Rattle.codec_payload_session_runs.specs.Lives.{EachEndedAlone, EachIsAlone, TellsInOrder};
ghost use Rattle.codec_payload_session_runs.specs.SessionRuns.{Does, Runs, calls_of, refusal_of};
ghost use Rattle.codec_payload_session_runs.specs.Tightness.{NotesBehindReceipt, NotesWhatIsShown, PairsByFormat, PairsNoOther, ReportsOnce, ReportsWithReport, UnpairsNone, WaitsWithin};

use codec_payload_base::wire::Ticks;
use codec_payload_jitter::waiting::WaitLimits;
use codec_payload_rtcp::items::ReportBlock;
use codec_payload_session::keyframe::KeyframeAnswer;
use codec_payload_session::session::{Arrival, Event, Session, SessionCounts};
use codec_payload_session_formats::checks::SessionSettingsError;
use codec_payload_session_formats::formats::SessionSettings;
use std::alloc::{AllocError, Global};
use thiserror::Error;

/// A call of a session that can change it.
#[derive(Debug, Drop)]
pub enum SessionStep {
    /// [`Session::receive`], or with `micros` [`Session::receive_at`].
    Receive {
        now: Ticks,
        micros: Option<u64>,
        datagram: Vec<u8>,
    },
    /// [`Session::poll`].
    Poll {
        now: Ticks,
    },
    /// [`Session::end`].
    End {
        now: Ticks,
        ssrc: u32,
    },
    /// [`Session::finish`].
    Finish {
        now: Ticks,
    },
    /// [`Session::set_wait_limits`].
    SetWaitLimits {
        ssrc: u32,
        payload_type: u8,
        wait_limits: WaitLimits,
    },
    /// [`Session::report`].
    Report {
        now: Ticks,
        ssrc: u32,
        payload_type: u8,
    },
    /// [`Session::add_pair`].
    AddPair {
        ssrc: u32,
        retransmission: u32,
    },
    /// [`Session::restart_transport`].
    RestartTransport,
    /// [`Session::remove_pair`].
    RemovePair {
        ssrc: u32,
    },
    /// [`Session::request_keyframe`].
    RequestKeyframe {
        ssrc: u32,
    },
}

/// The answer of a call of a session.
#[derive(Debug, Drop)]
pub enum StepAnswer {
    /// The answer of [`Session::receive`] or [`Session::receive_at`].
    Received(Result<Arrival, AllocError>),
    /// The answer of [`Session::poll`].
    Polled(Option<Event>),
    /// The answer of [`Session::report`].
    Reported(Option<ReportBlock>),
    /// The answer of [`Session::add_pair`].
    PairAdded(Result<(), AllocError>),
    /// The answer of [`Session::request_keyframe`].
    KeyframeAsked(KeyframeAnswer),
    /// A call without an answer: [`Session::end`], [`Session::finish`], [`Session::set_wait_limits`],
    /// [`Session::restart_transport`] or [`Session::remove_pair`].
    Done,
}

/// The answers of a run.
#[derive(Debug, Drop)]
pub struct SessionRun {
    /// The answer of each call, in order.
    pub answers: Vec<StepAnswer>,
    /// The counters of the session after the run.
    pub counts: SessionCounts,
}

/// Makes the calls in order, and returns the answer of each. If a call runs out of memory, its answer says so, and the run goes
/// on.
///
/// # Errors
///
/// Out of memory for the list of answers: no call is made.
pub fn run_session(
    alloc: Global,
    session: &mut Session,
    steps: &[SessionStep],
) -> Result<SessionRun, AllocError>
    ensures each { IfOk result (λ run. length run.answers.items ≡ length steps.now) }
    ensures runs { IfOk result (λ run. Runs (calls_of steps.now run.answers.items) session.old session.new) }
    ensures counts { IfOk result (λ run. run.counts ≡ counts_with session.new.counts session.new.port.ended session.new.telephone.dropped) }
    // From a new session on: every datagram is counted once.
    ensures counted { IfOk result (λ run. (settings : Settings) → session.old ≡ new_session settings → Counts (calls_of steps.now run.answers.items) run.counts (taken_in session.new.port.streams)) }
    // From a new session on: each stream is a receiver alone.
    ensures alone { IfOk result (λ run. (settings : Settings) → session.old ≡ new_session settings → EachIsAlone settings (calls_of steps.now run.answers.items) session.new.port.streams) }
    // So is each stream that ended.
    ensures ended { IfOk result (λ run. (settings : Settings) → session.old ≡ new_session settings → EachEndedAlone settings (calls_of steps.now run.answers.items)) }
    // From a new session on: the events of each SSRC and payload type are in order.
    ensures order { IfOk result (λ run. (settings : Settings) → session.old ≡ new_session settings → TellsInOrder (calls_of steps.now run.answers.items) session.new.port.streams) }
    ensures err { OnErr result (session.new ≡ session.old) }
{
    let mut answers = Vec::with_capacity(alloc, steps.len())?;
    for step in steps {
        answers.push(do_step(session, step)).unwrap();
    }
    Ok(SessionRun {
        answers,
        counts: session.counts(),
    })
}

/// Each end of a stream has its cause in the run: a BYE, the idle timeout, another format of its SSRC, or a call of the caller.
pub fn ends_have_causes()
    ensures { EndsHaveCauses }
{}

/// The receiver of a stream is finished at most once, and only after a call that lets the stream end.
pub fn finishes_have_causes()
    ensures { FinishesHaveCauses }
{}

/// What one call makes of the receiver of a stream is bounded: retransmissions only by a datagram for its SSRC and with the payload type
/// of its format, one report at most and only with the event of a report, and `max_wait` only within the ranges of the stream. The edges
/// of its pictures follow only a datagram that the stream took, right behind its receipt.
pub fn parts_are_tight()
    ensures pairs { PairsNoOther }
    ensures unpairs { UnpairsNone }
    ensures by_format { PairsByFormat }
    ensures reports { ReportsWithReport }
    ensures once { ReportsOnce }
    ensures waits { WaitsWithin }
    ensures notes { NotesWhatIsShown }
    ensures behind { NotesBehindReceipt }
{}

/// At each moment of a run each stream is a receiver alone, also one that a new SSRC replaces before it is announced.
pub fn streams_are_alone()
    ensures { StreamsAreAlone }
{}

/// A sender whose stream accepts two datagrams is announced if a place is free throughout, whatever other SSRCs send in between.
pub fn two_datagrams_begin()
    ensures { TwoDatagramsBegin }
{}

/// A session and the run that it made.
#[derive(Debug, Drop)]
pub struct RecordedSession {
    pub session: Session,
    pub run: SessionRun,
}

/// Why no run was made.
#[derive(Clone, Copy, Debug, PartialEq, Eq, Error)]
pub enum NewRunError {
    /// No session can meet the settings.
    #[error("no session can meet the settings")]
    Settings(SessionSettingsError),
    /// Out of memory for the list of answers.
    #[error("out of memory")]
    OutOfMemory,
}

/// Makes a new session, and makes the calls in order with it. See [`run_session`].
///
/// # Errors
///
/// - `Settings`: the first setting that no session can meet ([`SessionSettings::check`]).
/// - `OutOfMemory`: for the list of answers.
pub fn run_new_session(
    alloc: Global,
    settings: SessionSettings,
    steps: &[SessionStep],
) -> Result<RecordedSession, NewRunError>
    ensures each { IfOk result (λ made. length made.run.answers.items ≡ length steps.now) }
    ensures runs { IfOk result (λ made. Runs (calls_of steps.now made.run.answers.items) (new_session settings) made.session) }
    ensures counted { IfOk result (λ made. Counts (calls_of steps.now made.run.answers.items) made.run.counts (taken_in made.session.port.streams)) }
    ensures alone { IfOk result (λ made. EachIsAlone settings (calls_of steps.now made.run.answers.items) made.session.port.streams) }
    ensures ended { IfOk result (λ made. EachEndedAlone settings (calls_of steps.now made.run.answers.items)) }
    ensures order { IfOk result (λ made. TellsInOrder (calls_of steps.now made.run.answers.items) made.session.port.streams) }
    // The settings are refused exactly if they have a fault.
    ensures usable { IfOk result (λ made. fault_of settings ≡ Option.None) }
    ensures refused { IfErr result (λ e. refusal_of (fault_of settings) ≡ e) }
{
    match Session::new(alloc, settings) {
        Ok(mut session) => match run_session(alloc, &mut session, steps) {
            Ok(run) => Ok(RecordedSession { session, run }),
            Err(_) => Err(NewRunError::OutOfMemory),
        },
        Err(fault) => Err(NewRunError::Settings(fault)),
    }
}

/// Makes one call, and returns its answer. If the call runs out of memory, its answer says so.
pub fn do_step(session: &mut Session, step: &SessionStep) -> StepAnswer
    ensures { Does step.now session.old result session.new }
{
    match step {
        SessionStep::Receive {
            now,
            micros,
            datagram,
        } => StepAnswer::Received(receive(session, *now, *micros, datagram)),
        SessionStep::Poll { now } => StepAnswer::Polled(session.poll(*now)),
        SessionStep::End { now, ssrc } => {
            session.end(*now, *ssrc);
            StepAnswer::Done
        }
        SessionStep::Finish { now } => {
            session.finish(*now);
            StepAnswer::Done
        }
        SessionStep::SetWaitLimits {
            ssrc,
            payload_type,
            wait_limits,
        } => {
            session.set_wait_limits(*ssrc, *payload_type, *wait_limits);
            StepAnswer::Done
        }
        SessionStep::Report {
            now,
            ssrc,
            payload_type,
        } => StepAnswer::Reported(session.report(*now, *ssrc, *payload_type)),
        SessionStep::AddPair {
            ssrc,
            retransmission,
        } => StepAnswer::PairAdded(session.add_pair(*ssrc, *retransmission)),
        SessionStep::RestartTransport => {
            session.restart_transport();
            StepAnswer::Done
        }
        SessionStep::RemovePair { ssrc } => {
            session.remove_pair(*ssrc);
            StepAnswer::Done
        }
        SessionStep::RequestKeyframe { ssrc } => {
            StepAnswer::KeyframeAsked(session.request_keyframe(*ssrc))
        }
    }
}

/// Receives a datagram that arrived at `micros` ([`Session::receive_at`]), or without it at `now` ([`Session::receive`]).
///
/// # Errors
///
/// Those of [`Session::receive`].
pub fn receive(
    session: &mut Session,
    now: Ticks,
    micros: Option<u64>,
    datagram: &[u8],
) -> Result<Arrival, AllocError>
    ensures { Accepts (time_for micros now session.old) now datagram.now session.old result session.new }
{
    match micros {
        Some(micros) => session.receive_at(now, micros, datagram),
        None => session.receive(now, datagram),
    }
}
