//! Times that are numbers, and the earlier one of two times.

ghost use Rattle.std.specs.Prelude.{◌≡◌};
ghost use Rattle.codec_payload_session_stream.specs.Dues.{key_of};
ghost use Rattle.codec_payload_session_stream.specs.Quiet.{or_none, time_of};
ghost use Rattle.codec_payload_session_stream.specs.Streams.{earlier};
ghost use Rattle.codec_payload_session_stream.specs.Waking.{or_max};

/// The two last times in a list of times.
pub(crate) const LAST_KEY: u64 = u64::MAX - 1;

/// Returns the time. 0 is none.
pub(crate) fn time_of(at: u64) -> Option<u64>
    ensures { result ≡ time_of at }
{
    if at == 0 { None } else { Some(at) }
}

/// Returns the time as a number. 0 is none.
pub(crate) fn or_none(time: Option<u64>) -> u64
    ensures { result ≡ or_none time }
{
    time.unwrap_or(0)
}

/// Returns the time, or 2^64 - 1 without one.
pub(crate) fn or_max(time: Option<u64>) -> u64
    ensures { result ≡ or_max time }
{
    time.unwrap_or(u64::MAX)
}

/// Returns the time as a number of a list of times.
pub(crate) fn key_of(time: Option<u64>) -> u64
    ensures { result ≡ key_of time }
{
    match time {
        Some(at) => at.min(LAST_KEY),
        None => u64::MAX,
    }
}

/// Returns the earlier of two times.
pub fn earlier(one: Option<u64>, other: Option<u64>) -> Option<u64>
    ensures { result ≡ earlier one other }
{
    match (one, other) {
        (Some(one), Some(other)) => Some(one.min(other)),
        (Some(one), None) => Some(one),
        (None, other) => other,
    }
}
