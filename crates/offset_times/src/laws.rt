//! Laws of the definitions that the contracts cite: each function here proves one, for every wall
//! clock, offset and duration, and does nothing when it is called.
ghost use Rattle.std.specs.Prelude.{◌≡◌};
ghost use Rattle.std.specs.Ordering.{int_eq, int_cmp};
ghost use Rattle.offset_times.specs.Laws.{ConversionsCompose, OwnOffsetStays, DifferencesUndoSums, DifferencesLeadBack, TruncationsRoundDownOnce};
ghost use Rattle.offset_times.specs.Laws.{SumsKeepTheOrder, ReplacedPartsReadAsGiven, SumsAssociate, OutcomesAreAnswers};
ghost use Rattle.offset_times.specs.Local.{instant_of, IsLocal};
ghost use Rattle.plain_times.specs.Laws.{ReplacementsKeepTheRest};

use crate::OffsetDateTime;
use std::hash::Hash;

/// Date-times are equal exactly where their instants are, their order is that of their instants,
/// and they feed a hasher the same exactly where their instants are equal.
pub fn compared_by_instant()
    ensures equal { (x y : _) → ⟦<OffsetDateTime as PartialEq>⟧.eq x y ≡
        int_eq (instant_of x) (instant_of y) }
    ensures order { (x y : _) → ⟦<OffsetDateTime as Ord>⟧.cmp x y ≡
        int_cmp (instant_of x) (instant_of y) }
    ensures hashed { (x y : _) → instant_of x ≡ instant_of y →
        ⟦<OffsetDateTime as Hash>⟧.hash_input x ≡ ⟦<OffsetDateTime as Hash>⟧.hash_input y }
    ensures told_apart { (x y : _) → IsLocal x → IsLocal y →
        ⟦<OffsetDateTime as Hash>⟧.hash_input x ≡ ⟦<OffsetDateTime as Hash>⟧.hash_input y →
        instant_of x ≡ instant_of y }
{}

/// Where a conversion to an offset is accepted, a second one gives what it gives of the original,
/// wall clock and offset alike, or fails like it.
pub fn conversions_compose()
    ensures { ConversionsCompose }
{}

/// A conversion to the own offset gives the value, also where its date in UTC does not exist.
pub fn own_offset_stays()
    ensures { OwnOffsetStays }
{}

/// Where a sum is accepted, taking the duration from it gives the value back, offset included.
pub fn differences_undo_sums()
    ensures { DifferencesUndoSums }
{}

/// The difference of two values leads from the second to the instant of the first, at the offset of
/// the second.
pub fn differences_lead_back()
    ensures { DifferencesLeadBack }
{}

/// Accepted sums with one duration are in the order of the values; saturating ones, at one offset,
/// do not leave it.
pub fn sums_keep_the_order()
    ensures { SumsKeepTheOrder }
{}

/// Truncating twice to a unit is truncating once.
pub fn truncations_round_down_once()
    ensures { TruncationsRoundDownOnce }
{}

/// As [`plain_times::laws::replacements_keep_the_rest`], of the wall clock. What else a replacement
/// leaves as it was is said by the clauses `value` and `shown` of the calls.
pub fn replacements_keep_the_rest()
    ensures { ReplacementsKeepTheRest }
{
    plain_times::laws::replacements_keep_the_rest()
}

/// After an accepted replacement of a part of the date or of the time of day of the wall clock,
/// that part reads as given.
pub fn replaced_parts_read_as_given()
    ensures { ReplacedPartsReadAsGiven }
{
    plain_times::laws::replaced_parts_read_as_given()
}

/// After an accepted sum a second one answers as the one sum with both durations, offset included.
pub fn sums_associate()
    ensures { SumsAssociate }
{}

/// As [`plain_times::laws::outcomes_are_answers`], of the wall clock at its offset.
pub fn outcomes_are_answers()
    ensures { OutcomesAreAnswers }
{
    plain_times::laws::outcomes_are_answers()
}
