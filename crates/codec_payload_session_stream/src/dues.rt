//! When the streams of a session may have an event without a datagram.

ghost use Rattle.std.specs.Prelude.{◌≡◌, IfSome, true};
ghost use Rattle.codec_payload_index.specs.Times.{least_of};
ghost use Rattle.codec_payload_session_stream.specs.Dues.{HasKey, keys_of};
ghost use Rattle.codec_payload_session_stream.specs.Streams.{due_in};
ghost use Rattle.codec_payload_session_stream.specs.Waking.{IsBound, or_max};

use crate::stream::StreamState;
use crate::times::{LAST_KEY, earlier};
use crate::waking::Waking;

/// Returns when a stream may have an event without a datagram.
#[inline(always)]
pub fn due_in(waking: &Waking, streams: &[StreamState], idle_timeout: u64) -> Option<u64>
    requires { IsBound waking.now streams.now }
    ensures { result ≡ due_in idle_timeout streams.now }
{
    match least_key(waking, streams, idle_timeout) {
        Some(key) => due_by(key, streams, idle_timeout),
        None => due_of_all(streams, idle_timeout),
    }
}

/// Returns the least deadline as a number of a list of times, if the times of the streams say it.
#[inline(always)]
fn least_key(waking: &Waking, streams: &[StreamState], idle_timeout: u64) -> Option<u64>
    requires { IsBound waking.now streams.now }
    ensures { IfSome result (λ key. key ≡ least_of (keys_of idle_timeout streams.now)) }
{
    if !waking.known || waking.idle_timeout != idle_timeout {
        return None;
    }
    let key = streams[waking.fed].due_key(idle_timeout);
    let least = waking.times.least();
    if key <= least {
        return Some(key);
    }
    if is_due_at(waking, streams, idle_timeout, least) {
        Some(least)
    } else {
        None
    }
}

/// Returns whether the stream with the least time has it as its deadline.
fn is_due_at(waking: &Waking, streams: &[StreamState], idle_timeout: u64, least: u64) -> bool
    ensures { result ≡ true → HasKey idle_timeout least streams.now }
{
    let Some(place) = waking.times.first(least) else {
        return false;
    };
    place < streams.len() && streams[place].due_key(idle_timeout) == least
}

/// Returns the same time by the least key. Only a key of two times asks each stream.
fn due_by(key: u64, streams: &[StreamState], idle_timeout: u64) -> Option<u64>
    requires { key ≡ least_of (keys_of idle_timeout streams.now) }
    ensures { result ≡ due_in idle_timeout streams.now }
{
    if key < LAST_KEY {
        Some(key)
    } else if key == LAST_KEY {
        due_of_all(streams, idle_timeout)
    } else {
        None
    }
}

/// Asks each stream for the same time.
fn due_of_all(streams: &[StreamState], idle_timeout: u64) -> Option<u64>
    ensures { result ≡ due_in idle_timeout streams.now }
{
    let due = least_due(streams, idle_timeout);
    if due < u64::MAX {
        Some(due)
    } else {
        last_due(streams, idle_timeout)
    }
}

/// Returns the same time, and 2^64 - 1 without one.
fn least_due(streams: &[StreamState], idle_timeout: u64) -> u64
    ensures { result ≡ or_max (due_in idle_timeout streams.now) }
{
    let mut due = u64::MAX;
    for stream in streams {
        due = due.min(stream.due_or_max(idle_timeout));
    }
    due
}

/// Returns the same time. It may be 2^64 - 1 itself.
fn last_due(streams: &[StreamState], idle_timeout: u64) -> Option<u64>
    ensures { result ≡ due_in idle_timeout streams.now }
{
    let mut due = None;
    for stream in streams {
        due = earlier(due, stream.due(idle_timeout));
    }
    due
}
