//! Checks of the settings of a receiver.

ghost use Rattle.std.specs.Prelude.{◌≡◌};
ghost use Rattle.codec_payload_receiver.specs.Sessions.{packets_at_once, red_within, retransmission_fits};

use crate::receiver::{RedSettings, SettingsError};
use codec_payload_datagrams::kinds::{RedStream, Retransmission};
use codec_payload_red::red::RedReceiver;

/// Places that are kept free with RED: for the primary block of a packet, a suspect packet, and eight redundant blocks.
const RED_AT_ONCE: usize = 10;

/// Places that are kept free without RED: for the packet itself, and a suspect packet.
const AT_ONCE: usize = 2;

/// Returns whether the payload type of retransmissions has 7 bits.
pub(crate) fn retransmission_fits(retransmission: Option<Retransmission>) -> bool
    ensures { result ≡ retransmission_fits retransmission }
{
    match retransmission {
        Some(it) => it.payload_type <= 127,
        None => true,
    }
}

/// Returns how many places are kept free for the packets of one datagram.
pub(crate) fn packets_at_once(red: &Option<RedStream>) -> usize
    ensures { result ≡ packets_at_once red.now }
{
    match red {
        Some(_) => RED_AT_ONCE,
        None => AT_ONCE,
    }
}

/// Returns how a stream with this payload type uses RED, if it does.
pub(crate) fn red_of(
    payload_type: u8,
    red: Option<RedSettings>,
) -> Result<Option<RedStream>, SettingsError>
    ensures { result ≡ red_within payload_type red }
{
    let Some(red) = red else {
        return Ok(None);
    };
    if red.payload_type > 127 || red.payload_type == payload_type {
        return Err(SettingsError::RedPayloadType);
    }
    match RedReceiver::new(payload_type, red.step) {
        Some(receiver) => Ok(Some(RedStream {
            payload_type: red.payload_type,
            receiver,
            retransmission: red.retransmission,
        })),
        None => Err(SettingsError::RedStep),
    }
}
