//! Logs: timestamps in the order of time.
ghost use Rattle.std.specs.Prelude.{◌≡◌, ◌≢◌, ◌<◌, ◌↔◌, ◌⊎◌, ◌≤ℤ◌, ℤ, [], All, Contains, IfNone, IfOk, IfSome, IsNone, IsTrue, IsPermutation, IsSorted};
ghost use Rattle.std.specs.Prelude.{◌++◌, ◌<ℤ◌, IsSortedByKey, OnOk, OnErr, filter, int_le, int_lt, length};
ghost use Rattle.std.specs.List.{HoldsAt};
ghost use Rattle.std.specs.List.Sorted.{IsStrictlySortedBy, IsStableByKey};
ghost use Rattle.std.specs.Ordering.{int_cmp, on};
ghost use Rattle.offset_times.specs.Local.{Local, instant_of};

use crate::{Timestamp, moment_logs};
use offset_times::OffsetDateTime;
use std::alloc::AllocError;

/// A place of the timestamp in a log that is in order. None if the log does not have it.
pub fn find(log: &[Timestamp], at: Timestamp) -> Option<usize>
    requires { IsSorted int_cmp log.now }
    ensures place { IfSome result (λ place. place < length log.now) }
    ensures found { IfSome result (HoldsAt (λ entry. entry ≡ at) log.now) }
    ensures present { IfSome result (λ _. Contains log.now at) }
    ensures absent { IfNone result (¬ Contains log.now at) }
{
    moment_logs::find(log, at)
}

/// Enters the timestamp in its place in a log that has each once. False if it is there already;
/// `AllocError`, with the log as before, where there is no memory for one more.
pub fn enter(log: &mut Vec<Timestamp>, at: Timestamp) -> Result<bool, AllocError>
    requires { IsStrictlySortedBy int_cmp log.old.items }
    ensures in_order { IsStrictlySortedBy int_cmp log.new.items }
    ensures entered { OnOk result (Contains log.new.items at) }
    ensures was_new { IfOk result (λ is_new. IsTrue is_new ↔ (¬ Contains log.old.items at)) }
    ensures kept { (entry : ℤ) → Contains log.old.items entry → Contains log.new.items entry }
    ensures no_other { (entry : ℤ) → Contains log.new.items entry →
        Contains log.old.items entry ⊎ (entry ≡ at) }
    ensures unchanged { OnErr result (log.new.items ≡ log.old.items) }
{
    moment_logs::enter(log, at)
}

/// Removes the timestamp from a log that has each once, and the others stay. False if it is not
/// there.
pub fn remove(log: &mut Vec<Timestamp>, at: Timestamp) -> bool
    requires { IsStrictlySortedBy int_cmp log.old.items }
    ensures in_order { IsStrictlySortedBy int_cmp log.new.items }
    ensures was_there { IsTrue result ↔ Contains log.old.items at }
    ensures absent { ¬ Contains log.new.items at }
    ensures kept { (entry : ℤ) → Contains log.old.items entry → entry ≢ at →
        Contains log.new.items entry }
    ensures no_other { (entry : ℤ) → Contains log.new.items entry → Contains log.old.items entry }
{
    moment_logs::remove(log, at)
}

/// Puts a log in order, and leaves each timestamp once. `AllocError` if there is no memory to sort
/// it.
pub fn put_in_order(log: &mut Vec<Timestamp>) -> Result<(), AllocError>
    ensures in_order { OnOk result (IsStrictlySortedBy int_cmp log.new.items) }
    ensures kept { (entry : ℤ) → Contains log.old.items entry → Contains log.new.items entry }
    ensures no_other { (entry : ℤ) → Contains log.new.items entry → Contains log.old.items entry }
    ensures unchanged { OnErr result (log.new.items ≡ log.old.items) }
{
    moment_logs::put_in_order(log)
}

/// Adds the entries of another list, puts all in order, and leaves each timestamp once.
/// `AllocError`, with the log as before, where there is no memory for them or to sort them.
pub fn merge(log: &mut Vec<Timestamp>, other: &[Timestamp]) -> Result<(), AllocError>
    ensures in_order { OnOk result (IsStrictlySortedBy int_cmp log.new.items) }
    ensures entered { OnOk result ((entry : ℤ) →
        Contains other.now entry → Contains log.new.items entry) }
    ensures kept { (entry : ℤ) → Contains log.old.items entry → Contains log.new.items entry }
    ensures no_other { (entry : ℤ) → Contains log.new.items entry →
        Contains log.old.items entry ⊎ Contains other.now entry }
    ensures unchanged { OnErr result (log.new.items ≡ log.old.items) }
{
    moment_logs::merge(log, other)
}

/// The last entry of a log that is in order: none of the others is later. None if it is empty.
pub fn last(log: &[Timestamp]) -> Option<Timestamp>
    requires { IsSorted int_cmp log.now }
    ensures none { IsNone result ↔ (log.now ≡ []) }
    ensures present { IfSome result (Contains log.now) }
    ensures none_later { IfSome result (λ last. All (λ entry. entry ≤ℤ last) log.now) }
{
    moment_logs::last(log)
}

/// The latest of timestamps in any order. None if there are none.
///
/// ```
/// let stamps = [Timestamp::UNIX_EPOCH, Timestamp::MIN];
/// assert_eq!(rt; stamp_times::logs::latest(&stamps), Some(Timestamp::UNIX_EPOCH));
/// assert_eq!(rt; stamp_times::logs::latest(&[]), None);
/// ```
pub fn latest(stamps: &[Timestamp]) -> Option<Timestamp>
    ensures none { IsNone result ↔ (stamps.now ≡ []) }
    ensures present { IfSome result (Contains stamps.now) }
    ensures none_later { IfSome result (λ latest. All (λ at. at ≤ℤ latest) stamps.now) }
{
    moment_logs::latest(stamps)
}

/// The earliest of timestamps in any order. None if there are none.
///
/// ```
/// let stamps = [Timestamp::UNIX_EPOCH, Timestamp::MIN];
/// assert_eq!(rt; stamp_times::logs::earliest(&stamps), Some(Timestamp::MIN));
/// assert_eq!(rt; stamp_times::logs::earliest(&[]), None);
/// ```
pub fn earliest(stamps: &[Timestamp]) -> Option<Timestamp>
    ensures none { IsNone result ↔ (stamps.now ≡ []) }
    ensures present { IfSome result (Contains stamps.now) }
    ensures none_earlier { IfSome result (λ earliest. All (λ at. earliest ≤ℤ at) stamps.now) }
{
    moment_logs::earliest(stamps)
}

/// The entries before an instant, of a log that is in order.
pub fn before(log: &[Timestamp], at: Timestamp) -> &[Timestamp]
    requires { IsSorted int_cmp log.now }
    ensures exact { result.now ≡ filter (λ entry. int_lt entry at) log.now }
    ensures each { All (λ entry. entry <ℤ at) result.now }
    ensures in_order { IsSorted int_cmp result.now }
{
    moment_logs::before(log, at)
}

/// The entries at an instant and after it, of a log that is in order.
pub fn from(log: &[Timestamp], at: Timestamp) -> &[Timestamp]
    requires { IsSorted int_cmp log.now }
    ensures exact { result.now ≡ filter (λ entry. int_le at entry) log.now }
    ensures each { All (λ entry. at ≤ℤ entry) result.now }
    ensures in_order { IsSorted int_cmp result.now }
{
    moment_logs::from(log, at)
}

/// The entries before an instant, and the others, of a log that is in order.
pub fn split_at(log: &[Timestamp], at: Timestamp) -> (&[Timestamp], &[Timestamp])
    requires { IsSorted int_cmp log.now }
    ensures whole { log.now ≡ result.0.now ++ result.1.now }
    ensures before { result.0.now ≡ filter (λ entry. int_lt entry at) log.now }
    ensures from { result.1.now ≡ filter (λ entry. int_le at entry) log.now }
    ensures before_in_order { IsSorted int_cmp result.0.now }
    ensures from_in_order { IsSorted int_cmp result.1.now }
{
    moment_logs::split_at(log, at)
}

/// Takes the entries before an instant out of a log. Those that stay keep their order.
pub fn drop_before(log: &mut Vec<Timestamp>, at: Timestamp)
    ensures exact { log.new.items ≡ filter (λ entry. int_le at entry) log.old.items }
    ensures each { All (λ entry. at ≤ℤ entry) log.new.items }
    ensures in_order { IsStrictlySortedBy int_cmp log.old.items →
        IsStrictlySortedBy int_cmp log.new.items }
{
    moment_logs::drop_before(log, at)
}

/// A record that has a timestamp.
pub trait Stamped {
    /// The instant of its timestamp.
    ghost stamp: { Self → ℤ };

    /// Its timestamp.
    fn stamp(&self) -> Timestamp
        ensures { result ≡ stamp self.now };
}

/// Puts records into the order of their timestamps; those of one instant keep their order.
/// `AllocError`, with all as before, where there is no memory to sort them.
pub fn sort_by_stamp<T: Stamped>(records: &mut Vec<T>) -> Result<(), AllocError>
    ensures same_records { IsPermutation records.old.items records.new.items }
    ensures in_order { OnOk result (IsSortedByKey T.stamp int_cmp records.new.items) }
    ensures stable { IsStableByKey T.stamp int_cmp records.old.items records.new.items }
    ensures unchanged { OnErr result (records.new.items ≡ records.old.items) }
{
    records.sort_by_key(|record| record.stamp())?;
    Ok(())
}

/// A record that has a date-time at an offset.
pub trait Dated {
    /// The wall clock of its date-time, and the offset.
    ghost date_time: { Self → Local };

    /// Its date-time.
    fn date_time(&self) -> OffsetDateTime
        ensures { result ≡ date_time self.now };
}

/// Puts records into the order of the instants of their date-times; those of one instant keep their
/// order. `AllocError`, with all as before, where there is no memory to sort them.
pub fn sort_by_date_time<T: Dated>(records: &mut Vec<T>) -> Result<(), AllocError>
    ensures same_records { IsPermutation records.old.items records.new.items }
    ensures in_order { OnOk result
        (IsSortedByKey T.date_time (on instant_of int_cmp) records.new.items) }
    ensures stable { IsStableByKey T.date_time (on instant_of int_cmp)
        records.old.items records.new.items }
    ensures unchanged { OnErr result (records.new.items ≡ records.old.items) }
{
    records.sort_by_key(|record| record.date_time())?;
    Ok(())
}
