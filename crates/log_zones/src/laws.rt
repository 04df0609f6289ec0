//! Laws of wall clocks in a zone: each function proves one, and does nothing when it is called.
ghost use Rattle.log_zones.specs.Earliest.{EarliestHolds};
ghost use Rattle.log_zones.specs.Instants.{ClocksShowIt, SkippedIsNeverShown};

/// The second of a wall clock is the earliest one at which clocks show it.
pub fn earliest_holds()
    ensures { EarliestHolds }
{}

/// At the instant of a wall clock the clocks of the zone show it, and at no earlier one.
pub fn clocks_show_it()
    ensures { ClocksShowIt }
{}

/// No clock of a zone shows a wall clock that it skips.
pub fn skipped_is_never_shown()
    ensures { SkippedIsNeverShown }
{}
