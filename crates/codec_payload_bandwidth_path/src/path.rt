//! The path to one viewer: what leaves now, what may be retransmitted, and which layers fit.

ghost use Rattle.std.specs.Prelude.{◌≡◌, ◌↔◌, ◌<◌, ◌+◌, ◌++◌, IfErr, IfOk, OnErr, OnOk, length};
ghost use Rattle.std.specs.Option.{option_map};
ghost use Rattle.codec_payload_bandwidth_pacer.specs.Pacing.{bytes_in, deadline_of, pushed, removed, removed_of};
ghost use Rattle.codec_payload_bandwidth_pacer.specs.Resending.{after_resend, answer_to};
ghost use Rattle.codec_payload_bandwidth_path.specs.Paths.{after_choice, after_feedback, after_pop, choice_in, earned, estimate_by, fill_after, leaving_of, least_pace, new_path, order_by, padding_of, statistics_of, wanted_by};
ghost use Rattle.codec_payload_bandwidth_path.specs.Departures.{is_latest, lost_of, taken_back};
ghost use Rattle.codec_payload_bandwidth_pacer.specs.declared.pacer.PacerError.TheVariants as errors;

use crate::departures::Departures;
use codec_payload_bandwidth_estimate::rate::Trial;
use codec_payload_bandwidth_estimator::estimator::{BandwidthEstimator, PacketFate};
use codec_payload_bandwidth_layers::chooser::{LayerChoice, LayerChooser, LayerSettings};
use codec_payload_bandwidth_pacer::pacer::{
    PacedKind, PacedPacket, Pacer, PacerError, PacerSettings,
};
use codec_payload_bandwidth_pacer::resends::{ResendLimit, ResendRefused, ResendSettings};
use codec_payload_base::wire::Ticks;
use codec_payload_feedback_congestion::transport::TransportFeedback;
use std::alloc::{AllocError, Global};
use std::marker::Model;

/// What a byte of padding weighs: bits, times microseconds in a second.
const BYTE: u128 = 8_000_000;

/// The most padding that is asked for at once, in bytes.
const MOST_PADDING: u128 = 6_000;

/// How the path to a viewer is used. Rates are in bits per second.
#[derive(Clone, Copy, Debug, PartialEq, Eq)]
pub struct PathSettings {
    /// The estimate of the path at the beginning. 300,000 by default.
    pub start: u64,
    /// No estimate is below this rate. 50,000 by default: the path carries audio.
    pub least: u64,
    /// No estimate is above this rate. 10,000,000 by default.
    pub most: u64,
    /// The index of the choice of layers at the beginning. 0 by default.
    pub choice: usize,
    pub pacer: PacerSettings,
    pub resends: ResendSettings,
    pub layers: LayerSettings,
}

impl PathSettings {
    /// Returns the defaults.
    pub fn live() -> PathSettings
        ensures start { result.start ≡ 300000 }
        ensures least { result.least ≡ 50000 }
        ensures most { result.most ≡ 10000000 }
        ensures choice { result.choice ≡ 0 }
        ensures pacer { result.pacer ≡ record { burst = 2500; bound = 250000 } }
        ensures resends { result.resends ≡ record { share = 250; half_window = 500000 } }
        ensures layers { result.layers ≡ record { pause = 2000000 } }
    {
        PathSettings {
            start: 300_000,
            least: 50_000,
            most: 10_000_000,
            choice: 0,
            pacer: PacerSettings::live(),
            resends: ResendSettings::live(),
            layers: LayerSettings::live(),
        }
    }
}

/// A packet that leaves now.
#[derive(Clone, Copy, Debug, PartialEq, Eq)]
pub struct Leaving {
    pub packet: PacedPacket,
    /// The transport-wide number to write into its header extension.
    pub number: u16,
}

/// What [`ViewerPath::choose`] returns.
#[derive(Clone, Copy, Debug, PartialEq, Eq)]
pub struct PathOrder {
    /// The index of the choice of layers that the viewer gets.
    pub choice: usize,
    /// The choice before had a higher index. What waits of its layers helps nobody: see [`ViewerPath::remove`].
    pub fell: bool,
    /// The choice before had a lower index.
    pub rose: bool,
    /// How many bytes of padding are to be pushed now, as [`PacedKind::Padding`]: a trial has to be filled. 0 without a trial.
    pub padding: u32,
}

/// What a path knows, for statistics.
#[derive(Clone, Copy, Debug, PartialEq, Eq)]
pub struct PathStatistics {
    /// The estimate of the rate that the path carries, in bits per second.
    pub estimate: u64,
    /// What is left of it for first transmissions, in bits per second.
    pub carries: u64,
    /// How long packets wait in the queue of the path, in microseconds.
    pub standing: u64,
    /// The usual losses, in thousandths.
    pub usual_losses: u64,
    /// The trial of a higher rate that is under way.
    pub trial: Option<Trial>,
    /// Whether a queue is being emptied: the pace is 3/4 of the estimate.
    pub is_draining: bool,
}

/// The path to one viewer: a pacer, a limit of retransmissions, a choice of layers, and an estimate of what the path carries.
///
/// Push the packets of all streams that go to the viewer, send what [`ViewerPath::pop`] returns with the number that it gets, hand
/// in what the viewer answers, and ask [`ViewerPath::choose`] each 10 ms or so which layers to forward. Times are in microseconds of
/// your clock and do not fall; rates are in bits per second.
///
/// It takes about 11 kB, and 32 kB of memory for the packets that left. After [`ViewerPath::new`] only [`ViewerPath::push`] and
/// [`ViewerPath::feedback`] allocate.
#[derive(Debug, Drop)]
pub struct ViewerPath {
    pacer: Pacer,
    limit: ResendLimit,
    chooser: LayerChooser,
    estimator: BandwidthEstimator,
    departures: Departures,
    /// What a trial has not filled yet, in bits times 1,000,000.
    fill: u128,
    /// The time of the latest choice.
    chosen: u64,
    /// What the latest feedback reported: memory that is used again.
    fates: Vec<PacketFate>,
}

impl Model for ViewerPath {
    ghost use Rattle.codec_payload_bandwidth_path.specs.Paths.{Path};

    ghost Value = { Path };

    ghost view = { λ p. record { pacer = p.pacer; limit = p.limit; chooser = p.chooser; estimator = p.estimator; departures = p.departures; fill = p.fill; chosen = p.chosen } };
}

impl ViewerPath {
    /// Returns a path on which nothing left.
    ///
    /// # Errors
    ///
    /// Out of memory.
    pub fn new(alloc: Global, now: Ticks, settings: PathSettings) -> Result<ViewerPath, AllocError>
        ensures { IfOk result (λ path. path ≡ new_path now.0 settings) }
    {
        Ok(ViewerPath {
            pacer: Pacer::new(alloc, settings.start, settings.pacer),
            limit: ResendLimit::new(settings.resends),
            chooser: LayerChooser::new(settings.layers, settings.choice),
            estimator: BandwidthEstimator::new(now, settings.start, settings.least, settings.most),
            departures: Departures::new(alloc)?,
            fill: 0,
            chosen: now.0,
            fates: Vec::new(alloc),
        })
    }

    /// Stores a packet after those of its kind: see [`Pacer::push`].
    ///
    /// # Errors
    ///
    /// Nothing changed. [`PacerError::Full`] exactly if more than the `bound` of the pacer would wait.
    pub fn push(&mut self, packet: PacedPacket) -> Result<(), PacerError>
        ensures ok { OnOk result (self.new ≡ record self.old { pacer = pushed packet self.old.pacer }) }
        ensures err { OnErr result (self.new ≡ self.old) }
        ensures full { IfErr result (λ fault. (fault ≡ errors.Full) ↔ (self.old.pacer.settings.bound < bytes_in self.old.pacer.waits + packet.size)) }
    {
        self.pacer.push(packet)
    }

    /// Returns the packet that leaves now, with its transport-wide number, and removes it. `None`: nothing waits, or the rate does not
    /// allow a packet yet.
    pub fn pop(&mut self, now: Ticks) -> Option<Leaving>
        ensures leaving { result ≡ leaving_of now.0 self.old }
        ensures after { self.new ≡ after_pop now.0 self.old }
    {
        let packet = self.pacer.pop(now)?;
        let number = self.departures.note(now, packet.size);
        self.estimator.sent(now);
        if !matches!(packet.kind, PacedKind::Resent) {
            self.limit.sent(now, packet.size);
        }
        self.fill = fill_after(self.fill, packet.size);
        Some(Leaving { packet, number })
    }

    /// Asks whether the packet with this number of its stream may be retransmitted now: see [`ResendLimit::resend`]. Then push it as
    /// [`PacedKind::Resent`].
    ///
    /// # Errors
    ///
    /// The packet is not to be retransmitted.
    pub fn resend(
        &mut self,
        now: Ticks,
        number: u16,
        size: u32,
        round_trip: u64,
    ) -> Result<(), ResendRefused>
        ensures answer { result ≡ answer_to now.0 number size self.old.limit }
        ensures after { self.new ≡ record self.old { limit = after_resend now.0 number size round_trip self.old.limit } }
    {
        self.limit.resend(now, number, size, round_trip)
    }

    /// Hands in a transport-wide feedback of the viewer. What it says of packets that did not leave on this path changes nothing. If its
    /// first packet did not leave, it is ignored whole.
    ///
    /// # Errors
    ///
    /// Out of memory: nothing changed.
    pub fn feedback(
        &mut self,
        now: Ticks,
        round_trip: u64,
        feedback: &TransportFeedback,
    ) -> Result<(), AllocError>
        ensures ok { OnOk result (self.new ≡ after_feedback now.0 round_trip feedback.now.base feedback.now.statuses.items self.old) }
        ensures err { OnErr result (self.new ≡ self.old) }
    {
        self.fates.clear();
        self.departures.append_fates(feedback, &mut self.fates)?;
        self.departures.hear(feedback);
        judge(&mut self.estimator, now, round_trip, &self.fates);
        Ok(())
    }

    /// Appends the transport-wide numbers of the packets that a feedback reports lost, in the order of leaving. Call it before
    /// [`ViewerPath::feedback`] with the same feedback: then each lost packet is named once, whatever later feedback repeats.
    ///
    /// # Errors
    ///
    /// Out of memory: `lost` has some of them.
    pub fn append_lost(
        &self,
        feedback: &TransportFeedback,
        lost: &mut Vec<u16>,
    ) -> Result<(), AllocError>
        ensures { OnOk result (lost.new.items ≡ lost.old.items ++ lost_of feedback.now.base feedback.now.statuses.items self.now.departures) }
    {
        self.departures.append_lost(feedback, lost)
    }

    /// Takes back the latest packet that [`ViewerPath::pop`] returned, if it has this number and was not sent: the next packet gets its
    /// number, and feedback has no gap. Returns whether that is so: `false` if another packet left after it, or if feedback counted of
    /// it. Then nothing changes. A packet that is taken back still counts for the pace and for the share of retransmissions.
    pub fn take_back(&mut self, number: u16) -> bool
        ensures answer { result ≡ is_latest number self.old.departures }
        ensures after { self.new ≡ record self.old { departures = taken_back number self.old.departures } }
    {
        self.departures.take_back(number)
    }

    /// Chooses layers, begins and fills trials, and sets the pace, which is never below the rate of the first choice and a quarter.
    /// List the choices from the lowest to the highest.
    pub fn choose(&mut self, now: Ticks, choices: &[LayerChoice]) -> PathOrder
        ensures order { result ≡ order_by now.0 choices.now self.old }
        ensures after { self.new ≡ after_choice now.0 choices.now self.old }
        ensures within { 0 < length choices.now → result.choice < length choices.now }
    {
        let before = self.chooser.current();
        let carries = self.estimator.carries();
        let choice = self.chooser.choose(now, carries, choices);
        let wanted = wanted_by(
            self.chooser.wanted(self.estimator.steps(), choices),
            self.estimator.estimate(),
            carries,
        );
        self.estimator.tick(now, choice_in(choices, choice), wanted);
        let pace = self.estimator.pace(now).max(least_pace(choices));
        self.pacer.set_rate(now, pace);
        self.fill = self.earned(now);
        self.chosen = self.chosen.max(now.0);
        PathOrder {
            choice,
            fell: choice < before,
            rose: before < choice,
            padding: self.padding(),
        }
    }

    /// Removes the first packet of a kind that waits, and returns it: it is not to leave any more.
    pub fn remove(&mut self, kind: PacedKind) -> Option<PacedPacket>
        ensures packet { result ≡ removed_of kind self.old.pacer }
        ensures after { self.new ≡ record self.old { pacer = removed kind self.old.pacer } }
    {
        self.pacer.remove(kind)
    }

    /// Returns how many bytes wait.
    pub fn waiting(&self) -> u64
        ensures { result ≡ bytes_in self.now.pacer.waits }
    {
        self.pacer.waiting()
    }

    /// Returns the time from which on [`ViewerPath::pop`] returns a packet. `None`: nothing waits.
    pub fn next_deadline(&self) -> Option<Ticks>
        ensures { option_map (λ at. at.0) result ≡ deadline_of self.now.pacer }
    {
        self.pacer.next_deadline()
    }

    /// Returns the estimate of the rate that the path carries.
    pub fn estimate(&self) -> u64
        ensures { result ≡ self.now.estimator.rate.estimate }
    {
        self.estimator.estimate()
    }

    /// Returns what the path knows, for statistics.
    pub fn statistics(&self) -> PathStatistics
        ensures { result ≡ statistics_of self.now }
    {
        PathStatistics {
            estimate: self.estimator.estimate(),
            carries: self.estimator.carries(),
            standing: self.estimator.standing(),
            usual_losses: self.estimator.usual_losses(),
            trial: self.estimator.trial(),
            is_draining: self.estimator.is_draining(),
        }
    }

    /// Returns the index of the current choice.
    pub fn choice(&self) -> usize
        ensures { result ≡ self.now.chooser.current }
    {
        self.chooser.current()
    }

    /// Returns what a trial is to fill after the time since the latest choice. Without a trial there is nothing to fill.
    fn earned(&self, now: Ticks) -> u128
        ensures { result ≡ earned now.0 self.now }
    {
        match self.estimator.trial() {
            Some(trial) => {
                let elapsed = now.0.saturating_sub(self.chosen);
                let more = u128::from(trial.rate(now)) * u128::from(elapsed);
                self.fill.saturating_add(more).min(MOST_PADDING * BYTE)
            }
            None => 0,
        }
    }

    /// Returns the bytes of padding that a trial needs now. While packets wait it needs none.
    fn padding(&self) -> u32
        ensures { result ≡ padding_of self.now }
    {
        if self.pacer.waiting() > 0 {
            return 0;
        }
        (self.fill / BYTE).min(MOST_PADDING) as u32
    }
}

/// Judges the path by what feedback says. If it says nothing, nothing changes.
fn judge(estimator: &mut BandwidthEstimator, now: Ticks, round_trip: u64, fates: &[PacketFate])
    ensures { estimator.new ≡ estimate_by now.0 round_trip fates.now estimator.old }
{
    if let [_, ..] = fates {
        estimator.feedback(now, round_trip, fates);
    }
}

/// Returns what a trial has not filled after a packet left.
fn fill_after(fill: u128, size: u32) -> u128
    ensures { result ≡ fill_after fill size }
{
    fill.saturating_sub(u128::from(size) * BYTE)
}

/// Returns the rate that a trial is to reach, so that this rate is left for first transmissions.
fn wanted_by(wanted: u64, estimate: u64, carries: u64) -> u64
    ensures { result ≡ wanted_by wanted estimate carries }
{
    let whole = u128::from(wanted) * u128::from(estimate) / u128::from(carries.max(1));
    whole.min(u128::from(u64::MAX)) as u64
}

/// Returns the rate of a choice, or 0.
fn choice_in(choices: &[LayerChoice], choice: usize) -> u64
    ensures { result ≡ choice_in choice choices.now }
{
    match choices.get(choice) {
        Some(choice) => choice.rate,
        None => 0,
    }
}

/// Returns the least rate at which packets leave: the rate of the first choice and a quarter.
fn least_pace(choices: &[LayerChoice]) -> u64
    ensures { result ≡ least_pace choices.now }
{
    let rate = choice_in(choices, 0);
    rate.saturating_add(rate / 4)
}
