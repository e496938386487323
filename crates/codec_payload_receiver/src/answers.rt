//! The answer of a receiver to a datagram.

ghost use Rattle.std.specs.Prelude.{◌≡◌, ◌↔◌, IsTrue, Result};
ghost use Rattle.codec_payload_datagrams.specs.Kinds.{datagram_of};
ghost use Rattle.codec_payload_receiver.specs.Sessions.{AnswersFor, error_of};
ghost use Rattle.codec_payload_receiver.specs.declared.receiver.ReceiveError.TheVariants as errors;

use crate::receiver::ReceiveError;
use crate::storing::Taken;
use codec_payload_datagrams::kinds::{Datagram, Malformation};
use codec_payload_jitter::jitter::Outcome;

/// Returns whether memory ran out.
pub(crate) fn is_out_of_memory(answer: &Result<Outcome, ReceiveError>) -> bool
    ensures { IsTrue result ↔ (answer.now ≡ Result.Err errors.OutOfMemory) }
{
    matches!(answer, Err(ReceiveError::OutOfMemory))
}

/// Returns the error for a malformed datagram.
fn error_of(malformation: Malformation) -> ReceiveError
    ensures { result ≡ error_of malformation }
{
    match malformation {
        Malformation::Rtp(fault) => ReceiveError::Rtp(fault),
        Malformation::Red => ReceiveError::Red,
        Malformation::Retransmission => ReceiveError::Retransmission,
    }
}

/// Returns the outcome of a datagram, or its error.
pub(crate) fn answer_for(datagram: &Datagram<'_>, taken: Taken) -> Result<Outcome, ReceiveError>
    ensures { AnswersFor (datagram_of datagram.now) taken.outcome taken.whole result }
{
    match datagram {
        Datagram::Malformed(malformation) => Err(error_of(*malformation)),
        Datagram::Red(_) | Datagram::RedAgain(_) if !taken.whole => {
            Err(ReceiveError::BlocksOutOfMemory)
        }
        _ => Ok(taken.outcome),
    }
}
