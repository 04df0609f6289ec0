//! Laws of timestamps: each function here proves one, for every instant, and does nothing when it
//! is called.
ghost use Rattle.std.specs.Prelude.{◌≡◌, ◌↔◌};
ghost use Rattle.std.specs.Ordering.{int_eq, int_cmp};
ghost use Rattle.plain_times.specs.Laws.{DifferencesUndoSums, DifferencesLeadBack, ReplacedPartsReadAsGiven, ReplacementsKeepTheRest, SumsAssociate};
ghost use Rattle.plain_times.specs.Laws.{SaturatingSumsKeepTheOrder, OutcomesAreAnswers};
ghost use Rattle.calendar_values.specs.Outcomes.{IsOneAnswer};
ghost use Rattle.calendar_values.specs.WallClock.{IsInstant};
ghost use Rattle.stamp_times.specs.Refusals.{timestamp_outcome};
ghost use Rattle.utc_times.specs.UnixTime.{instant_outcome};
ghost use Rattle.stamp_times.specs.Laws.{CountsReadAsGiven, NanosecondsKeepTheSecond, TextsTellInstants, RunsCompose, RefusedCallsChangeNothing, ChainsCompose};

use crate::Timestamp;
use std::hash::Hash;
use utc_times::UtcDateTime;

/// A timestamp as a date-time in UTC and back is the same timestamp, and so is a date-time in UTC
/// as a timestamp and back.
pub fn conversions_lose_nothing()
    ensures stamps { (stamp at back : _) → ⟦<UtcDateTime as From<Timestamp>>⟧.from_gives stamp at
        → ⟦<Timestamp as From<UtcDateTime>>⟧.from_gives at back → back ≡ stamp }
    ensures date_times { (at stamp back : _) →
        ⟦<Timestamp as From<UtcDateTime>>⟧.from_gives at stamp
        → ⟦<UtcDateTime as From<Timestamp>>⟧.from_gives stamp back → back ≡ at }
{}

/// Timestamps are equal, and in order, exactly where their instants are; so are date-times in UTC.
pub fn compared_by_instant()
    ensures stamps_equal { (x y : _) → ⟦<Timestamp as PartialEq>⟧.eq x y ≡ int_eq x y }
    ensures stamps_ordered { (x y : _) → ⟦<Timestamp as Ord>⟧.cmp x y ≡ int_cmp x y }
    ensures utc_equal { (x y : _) → ⟦<UtcDateTime as PartialEq>⟧.eq x y ≡ int_eq x y }
    ensures utc_ordered { (x y : _) → ⟦<UtcDateTime as Ord>⟧.cmp x y ≡ int_cmp x y }
{}

/// Timestamps feed a hasher the same exactly where they are the same.
pub fn hashed_by_instant()
    ensures { (x y : _) → IsInstant x → IsInstant y →
        (⟦<Timestamp as Hash>⟧.hash_input x ≡ ⟦<Timestamp as Hash>⟧.hash_input y) ↔ (x ≡ y) }
{}

/// The instant of a count of seconds, milliseconds or microseconds has this count.
pub fn counts_read_as_given()
    ensures { CountsReadAsGiven }
{}

/// Another nanosecond of the second is one of the same Unix second, before 1970 too.
pub fn nanoseconds_keep_the_second()
    ensures { NanosecondsKeepTheSecond }
{}

/// No two timestamps have one text, none ends a fraction in a zero, and none is `-0`.
pub fn texts_tell_instants()
    ensures { TextsTellInstants }
{}

/// As [`plain_times::laws::differences_undo_sums`], of instants.
pub fn differences_undo_sums()
    ensures { DifferencesUndoSums }
{
    plain_times::laws::differences_undo_sums()
}

/// As [`plain_times::laws::differences_lead_back`], of instants.
pub fn differences_lead_back()
    ensures { DifferencesLeadBack }
{
    plain_times::laws::differences_lead_back()
}

/// As [`plain_times::laws::replaced_parts_read_as_given`], of instants in UTC.
pub fn replaced_parts_read_as_given()
    ensures { ReplacedPartsReadAsGiven }
{
    plain_times::laws::replaced_parts_read_as_given()
}

/// As [`plain_times::laws::replacements_keep_the_rest`], of instants in UTC.
pub fn replacements_keep_the_rest()
    ensures { ReplacementsKeepTheRest }
{
    plain_times::laws::replacements_keep_the_rest()
}

/// As [`plain_times::laws::sums_associate`], of instants.
pub fn sums_associate()
    ensures { SumsAssociate }
{
    plain_times::laws::sums_associate()
}

/// As [`plain_times::laws::saturating_sums_keep_the_order`], of instants.
pub fn saturating_sums_keep_the_order()
    ensures { SaturatingSumsKeepTheOrder }
{
    plain_times::laws::saturating_sums_keep_the_order()
}

/// As [`utc_times::laws::outcomes_are_answers`]; and a second and a nanosecond of it have their
/// instant, or the error of one of them.
pub fn outcomes_are_answers()
    ensures replacements { OutcomesAreAnswers }
    ensures counts { (name : _) (instant : _) → IsOneAnswer (instant_outcome name instant) }
    ensures parts { (second : _) (nanosecond : _) →
        IsOneAnswer (timestamp_outcome second nanosecond) }
{
    utc_times::laws::outcomes_are_answers()
}

/// A run over calls and then others replies as the run over the first and the run over the others
/// from where the first end, and ends where that ends.
pub fn runs_compose()
    ensures { RunsCompose }
{}

/// A call that fails changes nothing: later calls reply as if it were absent.
pub fn refused_calls_change_nothing()
    ensures { RefusedCallsChangeNothing }
{}

/// A chain over steps and then others stops where the first stop, or else where the others do, and
/// holds what the others hold after the first.
pub fn chains_compose()
    ensures { ChainsCompose }
{}
