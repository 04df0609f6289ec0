//! Laws of the definitions that the contracts cite: each function here proves one, for every wall
//! clock and every duration. A call of it does nothing.
ghost use Rattle.std.specs.Prelude.{◌≡◌, ◌↔◌};
ghost use Rattle.calendar_values.specs.WallClock.{IsWallClock};
ghost use Rattle.plain_times.specs.Laws.{DifferencesUndoSums, DifferencesLeadBack, ReplacementsKeepTheRest, ReplacedPartsReadAsGiven};
ghost use Rattle.plain_times.specs.Laws.{TruncationsRoundDown, TruncationsRoundDownOnce, PackedNumbersKeepTheOrder, SumsAssociate};
ghost use Rattle.plain_times.specs.Laws.{SaturatingSumsKeepTheOrder, OutcomesAreAnswers};

use crate::PlainDateTime;
use std::hash::Hash;

/// Where a wall clock and its sum with a duration lie in the range, taking the duration from the
/// sum gives the wall clock back.
pub fn differences_undo_sums()
    ensures { DifferencesUndoSums }
{}

/// The difference of two wall clocks of the range leads from the second to the first.
pub fn differences_lead_back()
    ensures { DifferencesLeadBack }
{}

/// A replacement gives the only wall clock with the date or the time of day as given and the other
/// as before.
pub fn replacements_keep_the_rest()
    ensures { ReplacementsKeepTheRest }
{}

/// After an accepted replacement of a part of the date or of the time of day, that part reads as
/// given.
pub fn replaced_parts_read_as_given()
    ensures { ReplacedPartsReadAsGiven }
{
    calendar_values::laws::replacements_keep_the_rest();
    calendar_values::laws::clock_replacements_keep_the_rest();
}

/// A truncation gives the greatest multiple of its unit that is not above the wall clock.
pub fn truncations_round_down()
    ensures { TruncationsRoundDown }
{}

/// Truncating twice to a unit is truncating once.
pub fn truncations_round_down_once()
    ensures { TruncationsRoundDownOnce }
{}

/// The packed numbers by which date-times compare are equal, and in order, exactly where their wall
/// clocks are.
pub fn packed_numbers_keep_the_order()
    ensures { PackedNumbersKeepTheOrder }
{}

/// Date-times feed a hasher the same exactly where they are the same.
pub fn hashed_by_wall_clock()
    ensures { (x y : _) → IsWallClock x → IsWallClock y →
        (⟦<PlainDateTime as Hash>⟧.hash_input x ≡ ⟦<PlainDateTime as Hash>⟧.hash_input y)
        ↔ (x ≡ y) }
{}

/// After an accepted sum a second one answers as the one sum with both durations.
pub fn sums_associate()
    ensures { SumsAssociate }
{}

/// Saturating sums with one duration keep the order of wall clocks, and with one wall clock the
/// order of durations.
pub fn saturating_sums_keep_the_order()
    ensures { SaturatingSumsKeepTheOrder }
{}

/// A replacement has one outcome: its value if the part fits, and its error if it does not.
pub fn outcomes_are_answers()
    ensures { OutcomesAreAnswers }
{
    calendar_values::laws::outcomes_are_answers();
}
