//! Theorems about a receiver of FEC. These functions exist for what they prove; they do nothing.

ghost use Rattle.codec_payload_fec_receiver.specs.Beginning.{NewHoldsNothing, RestartedHoldsNothing};
ghost use Rattle.codec_payload_fec_receiver.specs.OwnFec.{OwnFecIsMade};
ghost use Rattle.codec_payload_fec_receiver.specs.Runs.{HandedOutWasSent};

/// Proves that each packet that a receiver hands out was sent, byte for byte, whatever datagrams are lost, repeated or come in another
/// order: if the packets and the FEC are of one sender, which makes its FEC from packets that it sent.
pub fn handed_out_was_sent()
    ensures { HandedOutWasSent }
{}

/// Proves that a new receiver holds nothing.
pub fn new_holds_nothing()
    ensures { NewHoldsNothing }
{}

/// Proves that a receiver holds nothing after a restart.
pub fn restarted_holds_nothing()
    ensures { RestartedHoldsNothing }
{}

/// Proves that the packets of FEC of [`FecWriter`](crate::writing::FecWriter) are made from packets that were sent, as the theorem above
/// asks of a sender.
pub fn own_fec_is_made()
    ensures { OwnFecIsMade }
{}
