//! Theorems about numbers without media and jitter buffers. These functions exist for what they prove; they do
//! nothing.

ghost use Rattle.codec_payload_jitter.specs.NoMediaNumbers.{PassesNoMediaAlone, PassesInPlace};
ghost use Rattle.codec_payload_jitter.specs.Pressure.{SparesCompleteFrames};
ghost use Rattle.codec_payload_jitter.specs.Restarts.{HaveNoFormer, NeverRestarts};
ghost use Rattle.codec_payload_jitter.specs.Staying.{NoteChangesTwo, PassChangesNone, PopChangesNone, StoreChangesOne};
ghost use Rattle.codec_payload_jitter.specs.Runs.{AreChains, AreStretches, AreTrueStretches};

/// Proves that the cutoff skips only numbers without media, and that nothing else changes.
pub fn passes_no_media_alone()
    ensures alone { PassesNoMediaAlone }
    ensures in_place { PassesInPlace }
{}

/// Proves that some senders are never reported as restarted, with any loss, repetition, delay, retransmission or reordering:
/// senders that give each number one RTP time, and whose packets come within the windows.
pub fn senders_never_restart()
    ensures { NeverRestarts }
{}

/// Proves that no packet is taken for one of a former sender until a restart is counted. So of a sender that was never reported as
/// restarted, no packet is dropped for this reason. It holds for all senders, with any numbers and RTP times.
pub fn first_senders_have_no_former()
    ensures { HaveNoFormer }
{}

/// Proves that pushes into a jitter buffer are pushes into its buffer, under extended numbers. The sender does not restart, and
/// gives each number one RTP time. If each true number lies within the windows of the highest true number so far, the extended
/// numbers are the true ones plus one constant. So all that is proved of pushes into a buffer applies to a jitter buffer.
pub fn receives_are_pushes()
    ensures stretches { AreStretches }
    ensures true_numbers { AreTrueStretches }
    ensures rounds { AreChains }
{}

/// Proves that in a run that pops until `None` after each push, an eviction finds no frame that was complete before that push.
/// The same applies to several pushes between two pops, if they are fewer than the places that are kept free.
pub fn spares_complete_frames()
    ensures { SparesCompleteFrames }
{}

/// Proves which numbers can become missing, or stop being missing. Above the cutoff a packet that is stored changes its own number
/// alone, although another packet may be evicted. A number without media changes itself, and the number that is forgotten for
/// it. If the cutoff moves past numbers without media, no number above it changes, nor by a pop.
pub fn few_numbers_change()
    ensures store { StoreChangesOne }
    ensures note { NoteChangesTwo }
    ensures pass { PassChangesNone }
    ensures pop { PopChangesNone }
{}
