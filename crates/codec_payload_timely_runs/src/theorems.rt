//! Theorems on the times at which units come, and on units above `max_unit`. These functions exist for their proofs and do nothing.

ghost use Rattle.codec_payload_timely_runs.specs.LargeUnits.{CallsCountLarge, LogsTell, RunsCountLarge, RunsTellInRed, RunsTellUnits, SamplesTellUnits};
ghost use Rattle.codec_payload_timely_runs.specs.Overdue.{PopsLeaveNoneOverdue};
ghost use Rattle.codec_payload_timely_runs.specs.RedTimes.{TimesInRed, TimesInRedWithHistory};
ghost use Rattle.codec_payload_timely_runs.specs.TimelyRunExample.{TimesCanBeMet};
ghost use Rattle.codec_payload_timely_runs.specs.TimelyRuns.{TimesOverDatagrams, TimesWithHistory};

/// Each unit of a run over datagrams comes in time, if pops come until `None` after each delivery and at each deadline.
pub fn units_come_in_time()
    ensures { TimesOverDatagrams }
{}

/// The same holds for runs with retransmissions.
pub fn units_come_in_time_with_history()
    ensures { TimesWithHistory }
{}

/// The premises can be met: of three datagrams of Opus the second is lost, and the third waits for it until its deadline, at which it
/// is popped.
pub fn times_can_be_met()
    ensures { TimesCanBeMet }
{}

/// The same holds for runs in RED.
pub fn units_come_in_time_in_red()
    ensures { TimesInRed }
{}

/// The same holds for runs in RED with retransmissions.
pub fn units_come_in_time_in_red_with_history()
    ensures { TimesInRedWithHistory }
{}

/// A pop of any jitter buffer, by the wait limits that it has at that pop: if it answers `None` and leaves a complete frame, then the
/// first complete frame was not due. So it is for receivers and sessions whose limits change.
pub fn pops_leave_none_overdue()
    ensures { PopsLeaveNoneOverdue }
{}

/// The log of a run says what each pop answered: a unit with more bytes than the receiver's bound as `Popped::TooLarge`, any other one
/// as `Popped::Unit`. The log has both as units.
pub fn logs_show_large_units()
    ensures { LogsTell }
{}

/// A receiver counts each unit above its bound, and nothing else changes the bound: of each call, and of a run over datagrams. There the
/// counter `too_large` is how many units of the log are above `max_unit` of the settings.
pub fn large_units_are_counted()
    ensures calls { CallsCountLarge }
    ensures runs { RunsCountLarge }
{}

/// If no unit that was sent is above `max_unit`, each unit that a pop returns is `Popped::Unit`. If all units are popped, exactly those
/// above `max_unit` are `Popped::TooLarge`. This applies to what runs over datagrams release, also with retransmissions, to each part of
/// a run with restarts and to the receiver of a viewer, and to runs in RED. The units are those of the samples (`samples`).
pub fn large_units_are_reported()
    ensures runs { RunsTellUnits }
    ensures in_red { RunsTellInRed }
    ensures samples { SamplesTellUnits }
{}
