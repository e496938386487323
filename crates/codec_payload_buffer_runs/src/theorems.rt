//! Theorems about all runs. These functions do nothing: their contracts are the theorems.

ghost use Rattle.codec_payload_buffer_runs.specs.Arrivals.{ReleaseInOrder};
ghost use Rattle.codec_payload_buffer_runs.specs.RedOrder.{OnlySetsCountInRed};
ghost use Rattle.codec_payload_buffer_runs.specs.RunOrder.{OnlySetsCount};

/// Only the set of packets pushed before each pop matters. Let two runs have the same packets, and push the same packets before
/// each pop. Then the results of the pops are the same, except for the receive times.
pub fn order_of_runs()
    ensures { OnlySetsCount }
{}

/// The same for two runs with RED that begin with equal states. A packet may arrive itself, or be recovered from another packet.
/// The marker and the values of header extensions may also differ, since a recovered packet has neither.
pub fn order_of_red_runs()
    ensures { OnlySetsCountInRed }
{}

/// Let the packets of a run arrive at an unused buffer for their codec, in any order and any number of times. Each pop may wait
/// for any number of complete frames. Then both halves of the main theorem hold for the popped units. So they also hold for a
/// receiver outside of a run.
pub fn release_in_order()
    ensures { ReleaseInOrder }
{}
