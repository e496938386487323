//! How long a jitter buffer waits for missing packets.

ghost use Rattle.std.specs.Prelude.{◌≡◌, ◌≤◌, ◌+◌, ◌*◌, ◌^◌, ◌-◌, ◌/◌, ℕ, max, min, IfSome, true};
ghost use Rattle.std.specs.Option.{option_map};
ghost use Rattle.codec_payload_jitter.specs.Receiving.{deadline_by, is_overdue};
ghost use Rattle.codec_payload_jitter.specs.Waiting.{most_held_back, room_for, waits_by_number, waits_for};

use codec_payload_base::wire::Ticks;

/// How long to wait for missing packets.
///
/// Times are in ticks of the clock that you pass to the calls that receive and pop. The constructors assume ticks of
/// milliseconds. Any values are accepted.
#[derive(Clone, Copy, Debug, PartialEq, Eq)]
pub struct WaitLimits {
    /// A frame behind a gap is released once more complete frames than this are held. `None`: no frame is released by count
    /// alone.
    pub hold_back: Option<usize>,
    /// The first frame is released once more complete frames than this are held. With 1, two packets that arrive in the wrong
    /// order are both released. Later frames ignore it.
    pub start: usize,
    /// A complete frame is released once this number of ticks has passed since its last packet arrived. `None`: frames wait for
    /// as long as `hold_back` and `start` say.
    pub max_wait: Option<u64>,
}

impl WaitLimits {
    /// Returns limits for live audio or video without retransmission: a lost packet delays frames by at most 100 ms.
    pub fn live() -> WaitLimits
        ensures { result ≡ waits_for 1 100 }
    {
        WaitLimits::for_live(1, 100)
    }

    /// Returns limits for live audio with retransmission (RFC 4585): at most 200 ms.
    pub fn live_with_nack() -> WaitLimits
        ensures { result ≡ waits_for 1 200 }
    {
        WaitLimits::for_live(1, 200)
    }

    /// Returns limits for live video with retransmission: at most 200 ms, and the first frame waits for two more frames.
    pub fn live_video_with_nack() -> WaitLimits
        ensures { result ≡ waits_for 2 200 }
    {
        WaitLimits::for_live(2, 200)
    }

    /// Returns limits for live media with retransmission over a path with this round-trip time: two round trips and 100 ms, so
    /// that a lost retransmission can be repeated once. At most 2^64 - 1 ms.
    pub fn for_round_trip(milliseconds: u64) -> WaitLimits
        ensures { result ≡ waits_for 1 (min (2 * milliseconds + 100) (2 ^ 64 - 1)) }
    {
        WaitLimits::for_live(1, milliseconds.saturating_mul(2).saturating_add(100))
    }

    /// Returns limits for packets from a file: a frame behind a gap waits until the stream is finished, or the buffer has
    /// little room left.
    pub fn file() -> WaitLimits
        ensures { result ≡ waits_by_number }
    {
        WaitLimits {
            hold_back: None,
            start: 0,
            max_wait: None,
        }
    }

    /// Returns the largest number of complete frames that wait behind a gap: `hold_back`, or `usize::MAX` for no bound.
    pub fn most_held_back(self) -> usize
        ensures { result ≡ most_held_back self.hold_back }
    {
        match self.hold_back {
            Some(frames) => frames,
            None => usize::MAX,
        }
    }

    /// Returns limits by time alone.
    fn for_live(start: usize, milliseconds: u64) -> WaitLimits
        ensures { result ≡ waits_for start milliseconds }
    {
        WaitLimits {
            hold_back: None,
            start,
            max_wait: Some(milliseconds),
        }
    }
}

/// Returns whether `max_wait` ticks have passed from `since` to `now`.
pub(crate) fn overdue(max_wait: Option<u64>, now: Ticks, since: Option<Ticks>) -> bool
    ensures { result ≡ is_overdue max_wait now.0 since }
{
    match (max_wait, since) {
        (Some(max_wait), Some(since)) => max_wait <= now.0.saturating_sub(since.0),
        _ => false,
    }
}

/// Returns the time `max_wait` ticks after `since`, if 64 bits hold it.
pub(crate) fn deadline(max_wait: Option<u64>, since: Option<Ticks>) -> Option<Ticks>
    ensures value { option_map (λ at. at.0) result ≡ deadline_by max_wait since }
    ensures overdue { IfSome result (λ at. (now : ℕ) → at.0 ≤ now → is_overdue max_wait now since ≡ true) }
{
    let Some(max_wait) = max_wait else {
        return None;
    };
    let Some(since) = since else {
        return None;
    };
    match since.0.checked_add(max_wait) {
        Some(at) => Some(Ticks(at)),
        None => None,
    }
}

/// Returns how many places are kept free: an eighth of `limit`, and at least `least`.
pub(crate) fn room_for(limit: usize, least: usize) -> usize
    ensures { result ≡ room_for limit least }
{
    (limit / 8).max(least)
}
