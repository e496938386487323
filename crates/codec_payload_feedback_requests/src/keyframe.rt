//! When to request a keyframe (PLI: RFC 4585, section 6.3.1; FIR: RFC 5104, section 4.3.1).

ghost use Rattle.std.specs.Prelude.{◌≡◌, IfSome, IfNone};
ghost use Rattle.std.specs.Option.{option_map};
ghost use Rattle.codec_payload_feedback_requests.specs.KeyframeRequests.{Spacing, after_pause, after_request, deadline_of, is_due, new_requests};

use codec_payload_base::wire::Ticks;

/// Spaces the requests for a keyframe: the first is due at once, and later ones follow at least `interval` ticks apart while a
/// keyframe is needed.
///
/// Hand it the answer of `KeyframeGate::wants_keyframe` after each unit, and send a PLI or FIR if [`KeyframeRequests::take_due`]
/// returns true. Does not allocate.
#[derive(Clone, Copy, Debug, PartialEq, Eq)]
pub struct KeyframeRequests {
    interval: u64,
    wanted: bool,
    next: Option<u64>,
}

impl KeyframeRequests {
    /// Returns a schedule without requests so far; no keyframe is needed. `interval` is the least number of ticks between two
    /// requests: 500 ms suit live video.
    pub fn new(interval: u64) -> KeyframeRequests
        ensures { result ≡ new_requests interval }
    {
        KeyframeRequests {
            interval,
            wanted: false,
            next: Some(0),
        }
    }

    /// Sets whether a keyframe is needed. `false`: no request is due until a keyframe is needed again.
    pub fn set_wanted(&mut self, wanted: bool)
        ensures { self.new ≡ record self.old { wanted = wanted } }
    {
        self.wanted = wanted;
    }

    /// Returns whether a keyframe is needed.
    pub fn is_wanted(&self) -> bool
        ensures { result ≡ self.now.wanted }
    {
        self.wanted
    }

    /// Returns whether a request is due now: a keyframe is needed, and no request was sent in the last `interval` ticks. If
    /// so, the request counts as sent.
    pub fn take_due(&mut self, now: Ticks) -> bool
        ensures due { result ≡ is_due now.0 self.old }
        ensures after { self.new ≡ after_request now.0 self.old }
    {
        if !self.is_due(now.0) {
            return false;
        }
        self.next = now.0.checked_add(self.interval);
        true
    }

    /// Does the same where an answer takes longer than `interval`: the next request follows at least `pause` ticks later, too.
    pub fn take_due_after(&mut self, now: Ticks, pause: u64) -> bool
        ensures due { result ≡ is_due now.0 self.old }
        ensures after { self.new ≡ after_pause now.0 pause self.old }
    {
        if !self.is_due(now.0) {
            return false;
        }
        self.next = now.0.checked_add(self.interval.max(pause));
        true
    }

    /// Whether a request is due at that moment.
    fn is_due(&self, now: u64) -> bool
        ensures { result ≡ is_due now self.now }
    {
        match self.next {
            Some(next) => self.wanted && next <= now,
            None => false,
        }
    }

    /// Returns the moment from which on a request is due: `Ticks(0)` if the first one is. `None`: no keyframe is needed.
    pub fn next_deadline(&self) -> Option<Ticks>
        ensures { option_map (λ at. at.0) result ≡ deadline_of self.now }
    {
        match self.next {
            Some(next) if self.wanted => Some(Ticks(next)),
            _ => None,
        }
    }
}

/// Proves a theorem for each sequence of calls: two requests are at least the interval apart, and at least the pause of the first one.
/// A request is due exactly if a keyframe is needed and both have passed since the last request. This function does nothing else.
pub fn keyframe_requests_are_spaced()
    ensures { Spacing }
{}
