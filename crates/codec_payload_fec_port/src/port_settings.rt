//! The settings of a port with FEC.

ghost use Rattle.std.specs.Prelude.{◌≡◌};
ghost use Rattle.codec_payload_fec_port.specs.Settings.{again_type, checked, fault_of, fec_settings, first_of, is_a_type, is_given, is_of_red, pair_fault, pairs_fault, streams_fault, type_fault, types_fault, given_fault};

use codec_payload_fec_receiver::content::FecSettings;
use codec_payload_fec_receiver::late::LateIds;
use thiserror::Error;

/// The largest number of streams of a port.
const MOST_STREAMS: usize = 256;

/// A payload type of media and that of its retransmissions (RFC 4588), as `a=fmtp:97 apt=96` names them.
#[derive(Clone, Copy, Debug, PartialEq, Eq)]
pub struct RetransmissionType {
    /// The payload type of the media, as blocks of RED have it.
    pub media: u8,
    /// The payload type of its retransmissions without RED.
    pub retransmission: u8,
}

/// The settings of a [`FecPort`](crate::fec_port::FecPort).
#[derive(Debug, Drop)]
pub struct FecPortSettings {
    /// The payload type of RED.
    pub red_type: u8,
    /// The payload type of ULPFEC, in a block of RED or of a packet without RED.
    pub fec_type: u8,
    /// The payload type of retransmissions of packets in RED: the one whose `apt` is RED. `None`: there is none.
    pub red_retransmission: Option<u8>,
    /// The payload types of retransmissions of media. A retransmission of a packet in RED becomes one of its media. If a payload type of
    /// media is at several places, the first one counts.
    pub retransmissions: Vec<RetransmissionType>,
    /// Which header extensions senders fill in late.
    pub late_ids: LateIds,
    /// How many bytes the packets of media may take that are kept of a stream. A packet that is larger than the 512th part of it is not
    /// kept. Packets of FEC take at most an eighth of it more.
    pub bytes: usize,
    /// The largest number of streams, 1 to 256.
    pub max_streams: usize,
}

/// The setting that no port can meet. `max_streams` is checked first, then the payload types in the order of [`FecPortSettings`].
#[derive(Clone, Copy, Debug, PartialEq, Eq, Error)]
pub enum FecPortSettingsError {
    /// `max_streams` is 0, or above 256.
    #[error("the streams of the port are not 1 to 256")]
    MaxStreams,
    /// A payload type is above 127, or 64 to 95: with a marker, packets of these look like RTCP (RFC 5761, section 4).
    #[error("payload type {0} is not 0 to 63 or 96 to 127")]
    PayloadType(u8),
    /// A payload type has another meaning already: RED, ULPFEC or retransmissions of RED.
    #[error("payload type {0} has two meanings")]
    TwoMeanings(u8),
}

/// Returns whether a number is a payload type that differs from the types of RTCP.
fn is_a_type(payload_type: u8) -> bool
    ensures { result ≡ is_a_type payload_type }
{
    payload_type < 64 || (96 <= payload_type && payload_type < 128)
}

/// Returns whether this payload type is given.
fn is_given(given: Option<u8>, payload_type: u8) -> bool
    ensures { result ≡ is_given given payload_type }
{
    match given {
        Some(given) => given == payload_type,
        None => false,
    }
}

/// Returns the fault of a payload type, if it has one.
fn type_fault(has_meaning: bool, payload_type: u8) -> Option<FecPortSettingsError>
    ensures { result ≡ type_fault has_meaning payload_type }
{
    if !is_a_type(payload_type) {
        return Some(FecPortSettingsError::PayloadType(payload_type));
    }
    if has_meaning {
        return Some(FecPortSettingsError::TwoMeanings(payload_type));
    }
    None
}

/// Returns the first of two faults.
fn first_of(
    one: Option<FecPortSettingsError>,
    other: Option<FecPortSettingsError>,
) -> Option<FecPortSettingsError>
    ensures { result ≡ first_of one other }
{
    match one {
        Some(fault) => Some(fault),
        None => other,
    }
}

/// Returns the fault of the number of streams, if it has one.
fn streams_fault(max_streams: usize) -> Option<FecPortSettingsError>
    ensures { result ≡ streams_fault max_streams }
{
    if max_streams == 0 || MOST_STREAMS < max_streams {
        return Some(FecPortSettingsError::MaxStreams);
    }
    None
}

/// Returns the payload type of retransmissions of this media, if there is one.
pub(crate) fn again_type(pairs: &[RetransmissionType], media: u8) -> Option<u8>
    ensures { result ≡ again_type media pairs.now }
{
    for pair in pairs {
        if pair.media == media {
            return Some(pair.retransmission);
        }
    }
    None
}

impl FecPortSettings {
    /// Returns whether a port can meet these settings. [`FecPort::new`] asks for it. Does not allocate.
    ///
    /// # Errors
    ///
    /// The first fault.
    ///
    /// [`FecPort::new`]: crate::fec_port::FecPort::new
    pub fn check(&self) -> Result<(), FecPortSettingsError>
        ensures { result ≡ checked (fault_of self.now) }
    {
        match self.fault() {
            Some(fault) => Err(fault),
            None => Ok(()),
        }
    }

    /// Returns the first fault.
    fn fault(&self) -> Option<FecPortSettingsError>
        ensures { result ≡ fault_of self.now }
    {
        let types = first_of(self.types_fault(), self.pairs_fault());
        first_of(streams_fault(self.max_streams), types)
    }

    /// Returns the first fault of the payload types of RED, of ULPFEC and of retransmissions of RED.
    fn types_fault(&self) -> Option<FecPortSettingsError>
        ensures { result ≡ types_fault self.now }
    {
        let red = type_fault(false, self.red_type);
        let fec = type_fault(self.fec_type == self.red_type, self.fec_type);
        first_of(red, first_of(fec, self.given_fault()))
    }

    /// Returns the fault of the payload type of retransmissions of RED, if it has one.
    fn given_fault(&self) -> Option<FecPortSettingsError>
        ensures { result ≡ given_fault self.now self.now.red_retransmission }
    {
        match self.red_retransmission {
            Some(it) => type_fault(it == self.red_type || it == self.fec_type, it),
            None => None,
        }
    }

    /// Returns whether a payload type is that of RED, of ULPFEC or of retransmissions of RED.
    fn is_of_red(&self, payload_type: u8) -> bool
        ensures { result ≡ is_of_red self.now payload_type }
    {
        payload_type == self.red_type
            || payload_type == self.fec_type
            || is_given(self.red_retransmission, payload_type)
    }

    /// Returns the first fault of a payload type of media and of that of its retransmissions.
    fn pair_fault(&self, pair: &RetransmissionType) -> Option<FecPortSettingsError>
        ensures { result ≡ pair_fault self.now pair.now }
    {
        let media = type_fault(self.is_of_red(pair.media), pair.media);
        let again = type_fault(self.is_of_red(pair.retransmission), pair.retransmission);
        first_of(media, again)
    }

    /// Returns the first fault of the payload types of retransmissions of media.
    fn pairs_fault(&self) -> Option<FecPortSettingsError>
        ensures { result ≡ pairs_fault self.now self.now.retransmissions.items }
    {
        for pair in &self.retransmissions {
            if let Some(fault) = self.pair_fault(pair) {
                return Some(fault);
            }
        }
        None
    }

    /// Returns whether packets of this payload type are retransmissions of packets in RED.
    pub(crate) fn is_red_again(&self, payload_type: u8) -> bool
        ensures { result ≡ is_given self.now.red_retransmission payload_type }
    {
        is_given(self.red_retransmission, payload_type)
    }

    /// Returns the settings of the receiver of a stream.
    pub(crate) fn of_stream(&self, ssrc: u32) -> FecSettings
        ensures { result ≡ fec_settings self.now ssrc }
    {
        FecSettings {
            ssrc,
            red_type: self.red_type,
            fec_type: self.fec_type,
            late_ids: self.late_ids,
            bytes: self.bytes,
        }
    }
}
