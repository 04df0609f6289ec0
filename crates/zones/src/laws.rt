//! Laws of zones: each function here proves one, and does nothing when it is called.
ghost use Rattle.zones.specs.Laws.{SecondsAreFound, TypesAreOne, StaysBetween, OrderIsKept, RulesRepeat, FixedIsOneOffset, OneTypeHolds, IntervalsHold};

/// Each second is among the seconds of the wall clock that the clocks show then.
pub fn seconds_are_found()
    ensures { SecondsAreFound }
{}

/// A second has one kind of local time.
pub fn types_are_one()
    ensures { TypesAreOne }
{}

/// From one transition up to the next one a zone has one kind of local time.
pub fn stays_between()
    ensures { StaysBetween }
{}

/// Where clocks are not put back between, a later second shows a later wall clock.
pub fn order_is_kept()
    ensures { OrderIsKept }
{}

/// A rule has the same kind of local time 400 years later.
pub fn rules_repeat()
    ensures { RulesRepeat }
{}

/// A zone with one kind of local time has its offset at all seconds, and each wall clock at one
/// second.
pub fn fixed_is_one_offset()
    ensures { FixedIsOneOffset }
{}

/// A rule that keeps one kind of local time all year has it at all seconds.
pub fn one_type_holds()
    ensures { OneTypeHolds }
{}

/// A zone has the kind of local time of an interval at each second of it.
pub fn intervals_hold()
    ensures { IntervalsHold }
{}
