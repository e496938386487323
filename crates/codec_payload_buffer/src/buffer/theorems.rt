//! Theorems about all buffers. These functions exist for what they prove; they do nothing.

ghost use Rattle.codec_payload_buffer.specs.Blanks.{LeavesFew, TakesAway};
ghost use Rattle.codec_payload_buffer.specs.Frames.{AreFramesOfSet, AreInOrder, AreApart, AreOnlyList};
ghost use Rattle.codec_payload_buffer.specs.Stretches.{LeavesNumbers, OrderIsFree};

/// Proves that a pop that returns `None` leaves at most `hold_back` complete frames, so none if `hold_back` is 0. The packets
/// that were released in a unit, with the packets that are still held, are at most the packets that were held before.
pub fn pops_leave_few()
    ensures few { LeavesFew }
    ensures away { TakesAway }
{}

/// Proves that the frames of a buffer are the complete frames among the packets that it holds, in the order of their starts.
pub fn frames_of_set()
    ensures same { AreFramesOfSet }
    ensures in_order { AreInOrder }
    ensures apart { AreApart }
    ensures only { AreOnlyList }
{}

/// Proves that the set of numbers decides what the pushes between two pops leave: neither order nor repeats matter.
pub fn order_of_pushes()
    ensures leaves { LeavesNumbers }
    ensures free { OrderIsFree }
{}
