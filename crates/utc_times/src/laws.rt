//! Laws of the definitions that the contracts cite: an instant of the range is counted as a wall
//! clock in UTC, so they are those of [`plain_times::laws`]. Each function does nothing when it is
//! called.
ghost use Rattle.std.specs.Prelude.{◌≡◌, ◌↔◌};
ghost use Rattle.plain_times.specs.Laws.{DifferencesUndoSums, DifferencesLeadBack, ReplacementsKeepTheRest, ReplacedPartsReadAsGiven};
ghost use Rattle.plain_times.specs.Laws.{TruncationsRoundDown, TruncationsRoundDownOnce, SumsAssociate, SaturatingSumsKeepTheOrder};
ghost use Rattle.plain_times.specs.Laws.{OutcomesAreAnswers};
ghost use Rattle.calendar_values.specs.Outcomes.{IsOneAnswer};
ghost use Rattle.calendar_values.specs.WallClock.{IsInstant};
ghost use Rattle.utc_times.specs.UnixTime.{instant_outcome};

use crate::UtcDateTime;
use std::hash::Hash;

/// As [`plain_times::laws::differences_undo_sums`].
pub fn differences_undo_sums()
    ensures { DifferencesUndoSums }
{
    plain_times::laws::differences_undo_sums()
}

/// As [`plain_times::laws::differences_lead_back`].
pub fn differences_lead_back()
    ensures { DifferencesLeadBack }
{
    plain_times::laws::differences_lead_back()
}

/// As [`plain_times::laws::replacements_keep_the_rest`].
pub fn replacements_keep_the_rest()
    ensures { ReplacementsKeepTheRest }
{
    plain_times::laws::replacements_keep_the_rest()
}

/// As [`plain_times::laws::replaced_parts_read_as_given`].
pub fn replaced_parts_read_as_given()
    ensures { ReplacedPartsReadAsGiven }
{
    plain_times::laws::replaced_parts_read_as_given()
}

/// As [`plain_times::laws::truncations_round_down`].
pub fn truncations_round_down()
    ensures { TruncationsRoundDown }
{
    plain_times::laws::truncations_round_down()
}

/// As [`plain_times::laws::truncations_round_down_once`].
pub fn truncations_round_down_once()
    ensures { TruncationsRoundDownOnce }
{
    plain_times::laws::truncations_round_down_once()
}

/// As [`plain_times::laws::hashed_by_wall_clock`].
pub fn hashed_by_instant()
    ensures { (x y : _) → IsInstant x → IsInstant y →
        (⟦<UtcDateTime as Hash>⟧.hash_input x ≡ ⟦<UtcDateTime as Hash>⟧.hash_input y) ↔ (x ≡ y) }
{
    plain_times::laws::hashed_by_wall_clock()
}

/// As [`plain_times::laws::sums_associate`].
pub fn sums_associate()
    ensures { SumsAssociate }
{
    plain_times::laws::sums_associate()
}

/// As [`plain_times::laws::saturating_sums_keep_the_order`].
pub fn saturating_sums_keep_the_order()
    ensures { SaturatingSumsKeepTheOrder }
{
    plain_times::laws::saturating_sums_keep_the_order()
}

/// As [`plain_times::laws::outcomes_are_answers`]; and the count of an instant has the instant if
/// it is in range, and otherwise the error of the count.
pub fn outcomes_are_answers()
    ensures replacements { OutcomesAreAnswers }
    ensures counts { (name : _) (instant : _) → IsOneAnswer (instant_outcome name instant) }
{
    plain_times::laws::outcomes_are_answers()
}
