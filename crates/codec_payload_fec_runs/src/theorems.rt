//! Theorems on runs with FEC. These functions exist for their proofs and do nothing.

ghost use Rattle.codec_payload_fec_runs.specs.FecRuns.{ReleaseWithFec, RunsWithFecAreRuns};
ghost use Rattle.codec_payload_fec_runs.specs.Missing.{TheMissingIsHandedOut};

/// Proves that a run with FEC is a run over datagrams, in which each rebuilt packet is a further delivery of a datagram that was sent:
/// whatever datagrams and packets of FEC are lost, repeated or come in another order.
pub fn runs_with_fec_are_runs()
    ensures { RunsWithFecAreRuns }
{}

/// Proves that a run with FEC releases what a run over datagrams does: canonical units in order, each at most once, whole.
pub fn release_with_fec()
    ensures { ReleaseWithFec }
{}

/// Proves that a lost packet is handed out as soon as a packet of FEC comes that protects it, if it is the only one of the packets made
/// into that packet of FEC that is missing, and no other packet of FEC is to be tried.
pub fn the_missing_is_handed_out()
    ensures { TheMissingIsHandedOut }
{}
