//! Theorems about a port with FEC. These functions exist for what they prove; they do nothing.

ghost use Rattle.codec_payload_fec_port.specs.Passing.{MediaPassesAsBefore, OthersPassAsTheyAre};
ghost use Rattle.codec_payload_fec_port.specs.Runs.{PortHandsOutWhatWasSent};

/// Proves that each packet that a port hands out of a stream was sent, if the packets and the FEC of that stream are of one sender, which
/// makes its FEC from packets that it sent: whatever datagrams are lost, repeated or come in another order, whatever other datagrams come,
/// and whenever streams begin, end or are replaced. Only the elements of header extensions that the sender fills in late are left out.
pub fn port_hands_out_what_was_sent()
    ensures { PortHandsOutWhatWasSent }
{}

/// Proves that a packet of media that is put into RED passes as it was before.
pub fn media_passes_as_before_red()
    ensures { MediaPassesAsBefore }
{}

/// Proves that a packet that is neither RED nor FEC nor a retransmission of RED passes as it is.
pub fn others_pass_as_they_are()
    ensures { OthersPassAsTheyAre }
{}
