//! Laws of date-times in zones: each function here proves one, and does nothing when it is called.
ghost use Rattle.zoned_times.specs.Laws.{RulesRepeat, InstantsAreKept, InstantsAreFound, ChoicesAreRight, FixedIsItsOffset, StaysBetween, OrderIsKept};

/// The instant of a date-time that a zone shows is the one that was asked for, and no other
/// date-time of the zone has it.
pub fn instants_are_kept()
    ensures { InstantsAreKept }
{
    zones::laws::types_are_one();
}

/// Each instant is among the date-times of the wall clock that the zone shows then.
pub fn instants_are_found()
    ensures { InstantsAreFound }
{}

/// Each date-time that a caller chooses is of the zone. Of two the earlier and the compatible one
/// are the first, and the later one is the last. In a gap the earlier one goes back by the length
/// of the gap, and the later and the compatible one go forward by it. What is not rejected is the
/// only date-time of its wall clock.
pub fn choices_are_right()
    ensures { ChoicesAreRight }
{}

/// A zone with one offset shows instants as [`offset_times::OffsetDateTime`] does at that offset,
/// and each wall clock is one date-time there.
pub fn fixed_is_its_offset()
    ensures { FixedIsItsOffset }
{
    zones::laws::fixed_is_one_offset();
}

/// From one transition up to the next one a zone shows instants at one offset.
pub fn stays_between()
    ensures { StaysBetween }
{
    zones::laws::stays_between();
}

/// Where clocks are not put back between, the later of two date-times of a zone has the later wall
/// clock.
pub fn order_is_kept()
    ensures { OrderIsKept }
{
    zones::laws::order_is_kept();
    zones::laws::types_are_one();
}

/// From the first moment of its rule on, a zone shows an instant 400 years later at the same
/// offset.
pub fn rules_repeat()
    ensures { RulesRepeat }
{
    zones::laws::rules_repeat();
}
