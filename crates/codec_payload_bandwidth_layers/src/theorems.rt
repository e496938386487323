//! What is proved of choices. These functions exist for what they prove; they do nothing.

ghost use Rattle.codec_payload_bandwidth_layers.specs.Choices.{Ascends, Fits, IsStable, PausesHold, TrialRaises};

/// Proves of [`choose`], for any choices: what is chosen fits, or is the lowest choice; to choose again changes nothing; a path that
/// carries more never gets less; and a path that carries what a trial reached for a choice gets it, or a higher one.
///
/// [`choose`]: crate::chooser::choose
pub fn choices_are_stable()
    ensures fits { Fits }
    ensures stable { IsStable }
    ensures ascends { Ascends }
    ensures raises { TrialRaises }
{}

/// Proves for any calls of a chooser that the choice does not rise while the pause after a fall lasts.
pub fn rises_are_paused()
    ensures { PausesHold }
{}
