//! Lists of instants of any type.
ghost use Rattle.std.specs.Prelude.{◌≡◌, ◌≢◌, ◌↔◌, ◌⊎◌, ◌<ℤ◌, ◌≤ℤ◌, ℤ, [], All, Contains, IfSome, IsNone, IsPermutation};
ghost use Rattle.std.specs.Prelude.{IsSorted, IsSortedByKey, IsTrue, OnErr, OnOk, Some};
ghost use Rattle.std.specs.List.Sorted.{IsStrictlySortedBy};
ghost use Rattle.std.specs.Ordering.{int_cmp, on};
ghost use Rattle.stamp_times.specs.Logs.{ContainsByKey, last_by_key};
ghost use Rattle.uses.specs.Logs.{IsOfEither};

use stamp_times::{Moment, moment_logs};
use std::alloc::AllocError;
use utc_times::UtcDateTime;

/// The latest of instants in any order. None if there are none.
pub fn latest<M: Moment>(ats: &[M]) -> Option<M>
    ensures none { IsNone result ↔ (ats.now ≡ []) }
    ensures present { IfSome result (Contains ats.now) }
    ensures none_later { IfSome result (λ latest.
        All (λ at. M.instant at ≤ℤ M.instant latest) ats.now) }
    ensures last { IfSome result (λ latest.
        last_by_key M.instant ats.now latest ≡ Some latest) }
{
    moment_logs::latest(ats)
}

/// Puts instants into the order of time.
pub fn sort<M: Moment>(log: &mut Vec<M>) -> Result<(), AllocError>
    ensures same { IsPermutation log.old.items log.new.items }
    ensures in_order { OnOk result (IsSortedByKey M.instant int_cmp log.new.items) }
    ensures unchanged { OnErr result (log.new.items ≡ log.old.items) }
{
    log.sort()
}

/// The later of two.
pub fn later<M: Moment>(one: M, other: M) -> M
    ensures not_before_one { M.instant one ≤ℤ M.instant result }
    ensures not_before_other { M.instant other ≤ℤ M.instant result }
{
    if one < other { other } else { one }
}

/// Whether a sorted log has an entry of that instant.
pub fn has<M: Moment>(log: &[M], at: M) -> bool
    requires { IsSortedByKey M.instant int_cmp log.now }
    ensures { IsTrue result ↔ ContainsByKey M.instant log.now at }
{
    moment_logs::find(log, at).is_some()
}

/// Enters an instant in a log that has each instant once, whether it is new or not.
pub fn enter<M: Moment>(log: &mut Vec<M>, at: M) -> Result<(), AllocError>
    requires { IsStrictlySortedBy (on M.instant int_cmp) log.old.items }
    ensures in_order { IsStrictlySortedBy (on M.instant int_cmp) log.new.items }
    ensures entered { OnOk result (ContainsByKey M.instant log.new.items at) }
    ensures kept { (entry : M) → ContainsByKey M.instant log.old.items entry →
        ContainsByKey M.instant log.new.items entry }
    ensures no_other { (entry : M) → Contains log.new.items entry →
        Contains log.old.items entry ⊎ (entry ≡ at) }
    ensures unchanged { OnErr result (log.new.items ≡ log.old.items) }
{
    moment_logs::enter(log, at)?;
    Ok(())
}

/// Removes an instant from a log that has each instant once. Whether it was there.
pub fn withdraw<M: Moment>(log: &mut Vec<M>, at: M) -> bool
    requires { IsStrictlySortedBy (on M.instant int_cmp) log.old.items }
    ensures in_order { IsStrictlySortedBy (on M.instant int_cmp) log.new.items }
    ensures gone { ¬ ContainsByKey M.instant log.new.items at }
    ensures was_there { IsTrue result ↔ ContainsByKey M.instant log.old.items at }
    ensures kept { (entry : M) → ContainsByKey M.instant log.old.items entry →
        M.instant entry ≢ M.instant at → ContainsByKey M.instant log.new.items entry }
    ensures no_other { (entry : M) → ContainsByKey M.instant log.new.items entry →
        ContainsByKey M.instant log.old.items entry }
{
    moment_logs::remove(log, at)
}

/// Whether a date-time is after every entry of a log in order.
pub fn is_news(log: &[UtcDateTime], at: UtcDateTime) -> bool
    requires { IsSorted int_cmp log.now }
    ensures { IsTrue result ↔ All (λ entry. entry <ℤ at) log.now }
{
    moment_logs::last(log).is_none_or(|last| last < at)
}

/// Puts date-times of two lists in order, each instant once, and removes one. `AllocError`, with
/// the log as before, if there is no memory for them or to sort them.
pub fn join_without(
    log: &mut Vec<UtcDateTime>,
    other: &[UtcDateTime],
    at: UtcDateTime,
) -> Result<(), AllocError>
    ensures in_order { OnOk result (IsStrictlySortedBy int_cmp log.new.items) }
    ensures sorted { OnOk result (IsSorted int_cmp log.new.items) }
    ensures gone { OnOk result (¬ Contains log.new.items at) }
    ensures kept { OnOk result ((entry : ℤ) → Contains log.old.items entry → entry ≢ at →
        Contains log.new.items entry) }
    ensures entered { OnOk result ((entry : ℤ) → Contains other.now entry → entry ≢ at →
        Contains log.new.items entry) }
    ensures no_other { (entry : ℤ) → Contains log.new.items entry →
        IsOfEither log.old.items other.now entry }
    ensures unchanged { OnErr result (log.new.items ≡ log.old.items) }
{
    join(log, other)?;
    take_out(log, at);
    Ok(())
}

// Adds the date-times of another list, puts all in order, and leaves each instant once.
#[tactic(auto, unfolding(crate::specs::Logs::IsOfEither))]
fn join(log: &mut Vec<UtcDateTime>, other: &[UtcDateTime]) -> Result<(), AllocError>
    ensures in_order { OnOk result (IsStrictlySortedBy int_cmp log.new.items) }
    ensures kept { (entry : ℤ) → Contains log.old.items entry → Contains log.new.items entry }
    ensures entered { OnOk result ((entry : ℤ) → Contains other.now entry →
        Contains log.new.items entry) }
    ensures no_other { (entry : ℤ) → Contains log.new.items entry →
        IsOfEither log.old.items other.now entry }
    ensures unchanged { OnErr result (log.new.items ≡ log.old.items) }
{
    moment_logs::merge(log, other)
}

// Removes a date-time from a log that has each instant once.
fn take_out(log: &mut Vec<UtcDateTime>, at: UtcDateTime)
    requires { IsStrictlySortedBy int_cmp log.old.items }
    ensures in_order { IsStrictlySortedBy int_cmp log.new.items }
    ensures gone { ¬ Contains log.new.items at }
    ensures kept { (entry : ℤ) → Contains log.old.items entry → entry ≢ at →
        Contains log.new.items entry }
    ensures no_other { (entry : ℤ) → Contains log.new.items entry → Contains log.old.items entry }
{
    moment_logs::remove(log, at);
}
