//! Worked times of versions. None of these functions does anything when it runs.

ghost use Rattle.dk_times.specs.TimesExample.{AtTheEnds, BehindTheGap, ByStamps, FromStart, OfEvents, SinceAVersion};

/// The times of versions and the version at a moment (Delta Lake's PROTOCOL.md, "In-Commit Timestamps"): of a table whose
/// commits say their times from the start, never, and from a version on; of a log with a gap; and at the ends of the ranges.
pub fn worked_times()
    ensures from_start { FromStart }
    ensures by_stamps { ByStamps }
    ensures since_a_version { SinceAVersion }
    ensures of_events { OfEvents }
    ensures behind_the_gap { BehindTheGap }
    ensures at_the_ends { AtTheEnds }
{}
