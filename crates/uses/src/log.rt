//! A log in the order of instants.

ghost use Rattle.std.specs.Prelude.{◌≡◌, ◌≢◌, ◌↔◌, ◌⊎◌, ◌-ℤ◌, ◌<ℤ◌, ◌≤ℤ◌, ℤ, All, IsSortedByKey, true, ◌++◌, [], ◌∷◌, Contains, IfOk, IfSome};
ghost use Rattle.std.specs.Prelude.{◌-◌, ◌<◌, false, vec_len, IsNone, IsPermutation, IsSorted, IsTrue, OnErr, OnOk, if◌then◌else◌};
ghost use Rattle.std.specs.Prelude.{filter, int_le, int_lt, length};
ghost use Rattle.std.specs.List.{HoldsAt};
ghost use Rattle.std.specs.List.Sorted.{IsStableByKey, IsStrictlySortedBy};
ghost use Rattle.std.specs.Ordering.{int_cmp, on};
ghost use Rattle.std.specs.declared.cmp.Ordering.TheVariants.{Equal};
ghost use Rattle.calendar_values.specs.WallClock.{IsWallClock};
ghost use Rattle.offset_times.specs.Local.{IsLocal, instant_of};

use calendar_values::SignedDuration;
use offset_times::OffsetDateTime;
use plain_times::PlainDateTime;
use stamp_times::logs::{Dated, Stamped};
use stamp_times::{Timestamp, logs};
use std::alloc::AllocError;
use std::hash::Hash;
use utc_times::UtcDateTime;

/// Puts the entries into the order of their instants.
pub fn sort(entries: &mut Vec<UtcDateTime>) -> Result<(), AllocError>
    ensures same_entries { IsPermutation entries.old.items entries.new.items }
    ensures sorted { OnOk result (IsSorted int_cmp entries.new.items) }
    ensures unchanged { OnErr result (entries.new.items ≡ entries.old.items) }
{
    entries.sort()
}

/// The place of an entry of that instant in a sorted log.
pub fn position(entries: &[UtcDateTime], at: UtcDateTime) -> Option<usize>
    ensures { IfSome result (HoldsAt (λ entry. int_cmp entry at ≡ Equal) entries.now) }
{
    entries.binary_search(&at).ok()
}

/// Adds an entry, unless it is before the last.
pub fn accept(entries: &mut Vec<UtcDateTime>, at: UtcDateTime) -> Result<bool, AllocError>
    ensures entries { IfOk result (λ accepted. entries.new.items ≡
        (if accepted then entries.old.items ++ at ∷ [] else entries.old.items)) }
    ensures refused { IfOk result (λ accepted. accepted ≡ false →
        HoldsAt (λ last. at <ℤ last) entries.old.items (vec_len entries.old - 1)) }
    ensures accepted { IfOk result (λ accepted. IsTrue accepted → 0 < vec_len entries.old →
        HoldsAt (λ last. last ≤ℤ at) entries.old.items (vec_len entries.old - 1)) }
    ensures unchanged { OnErr result (entries.new.items ≡ entries.old.items) }
{
    if entries.last().is_some_and(|last| at < *last) {
        return Ok(false);
    }
    entries.push(at)?;
    Ok(true)
}

/// Whether an entry of that instant is in a sorted log.
pub fn has(entries: &[Timestamp], at: Timestamp) -> bool
    requires { IsSorted int_cmp entries.now }
    ensures { IsTrue result ↔ Contains entries.now at }
{
    logs::find(entries, at).is_some()
}

/// Enters an instant in a log that has each instant once, whether it is new or not.
pub fn enter(log: &mut Vec<Timestamp>, at: Timestamp) -> Result<(), AllocError>
    requires { IsStrictlySortedBy int_cmp log.old.items }
    ensures in_order { IsStrictlySortedBy int_cmp log.new.items }
    ensures entered { OnOk result (Contains log.new.items at) }
    ensures kept { (entry : ℤ) → Contains log.old.items entry → Contains log.new.items entry }
    ensures no_other { (entry : ℤ) → Contains log.new.items entry →
        Contains log.old.items entry ⊎ (entry ≡ at) }
    ensures unchanged { OnErr result (log.new.items ≡ log.old.items) }
{
    logs::enter(log, at)?;
    Ok(())
}

/// Enters the two ends of a shift in a log that has each instant once.
pub fn enter_shift(
    log: &mut Vec<Timestamp>,
    from: Timestamp,
    until: Timestamp,
) -> Result<(), AllocError>
    requires { IsStrictlySortedBy int_cmp log.old.items }
    ensures in_order { IsStrictlySortedBy int_cmp log.new.items }
    ensures from { OnOk result (Contains log.new.items from) }
    ensures until { OnOk result (Contains log.new.items until) }
    ensures kept { (entry : ℤ) → Contains log.old.items entry → Contains log.new.items entry }
{
    enter(log, from)?;
    enter(log, until)
}

/// Puts a log that was put together from others in order, each instant once, and looks for one.
pub fn joined_has(log: &mut Vec<Timestamp>, at: Timestamp) -> Result<bool, AllocError>
    ensures in_order { OnOk result (IsStrictlySortedBy int_cmp log.new.items) }
    ensures found { IfOk result (λ found. IsTrue found ↔ Contains log.new.items at) }
    ensures kept { (entry : ℤ) → Contains log.old.items entry → Contains log.new.items entry }
    ensures no_other { (entry : ℤ) → Contains log.new.items entry → Contains log.old.items entry }
    ensures unchanged { OnErr result (log.new.items ≡ log.old.items) }
{
    logs::put_in_order(log)?;
    Ok(logs::find(log, at).is_some())
}

/// Takes the entries of another log in.
pub fn take_in(log: &mut Vec<Timestamp>, other: &[Timestamp]) -> Result<(), AllocError>
    ensures in_order { OnOk result (IsStrictlySortedBy int_cmp log.new.items) }
    ensures taken_in { OnOk result ((entry : ℤ) →
        Contains other.now entry → Contains log.new.items entry) }
    ensures kept { (entry : ℤ) → Contains log.old.items entry → Contains log.new.items entry }
    ensures no_other { (entry : ℤ) → Contains log.new.items entry →
        Contains log.old.items entry ⊎ Contains other.now entry }
    ensures unchanged { OnErr result (log.new.items ≡ log.old.items) }
{
    logs::merge(log, other)
}

/// Adds the entries of another log, and puts all in order; an instant of both stays twice.
/// `AllocError`, with the log as before, if there is no memory for them or to sort them.
pub fn gather(log: &mut Vec<Timestamp>, other: &[Timestamp]) -> Result<(), AllocError>
    ensures in_order { OnOk result (IsSorted int_cmp log.new.items) }
    ensures same_entries { OnOk result (IsPermutation (log.old.items ++ other.now) log.new.items) }
    ensures unchanged { OnErr result (log.new.items ≡ log.old.items) }
{
    let before = log.len();
    log.extend_from_slice(other)?;
    let in_order = log.sort();
    if in_order.is_err() {
        log.truncate(before);
    }
    in_order
}

/// Whether an instant is after every entry of a log in order.
pub fn is_news(log: &[Timestamp], at: Timestamp) -> bool
    requires { IsSorted int_cmp log.now }
    ensures { IsTrue result ↔ All (λ entry. entry <ℤ at) log.now }
{
    logs::last(log).is_none_or(|last| last < at)
}

/// Takes an instant out of a log that has each instant once. Whether it was there.
pub fn withdraw(log: &mut Vec<Timestamp>, at: Timestamp) -> bool
    requires { IsStrictlySortedBy int_cmp log.old.items }
    ensures in_order { IsStrictlySortedBy int_cmp log.new.items }
    ensures gone { ¬ Contains log.new.items at }
    ensures was_there { IsTrue result ↔ Contains log.old.items at }
    ensures kept { (entry : ℤ) → Contains log.old.items entry → entry ≢ at →
        Contains log.new.items entry }
    ensures no_other { (entry : ℤ) → Contains log.new.items entry → Contains log.old.items entry }
{
    logs::remove(log, at)
}

/// The duration from the earliest of the entries to the latest, in any order.
pub fn span(entries: &[Timestamp]) -> Option<SignedDuration>
    ensures none { IsNone result ↔ (entries.now ≡ []) }
    ensures span { IfSome result (λ span. (first : ℤ) × (last : ℤ) ×
        Contains entries.now first × All (λ at. first ≤ℤ at) entries.now ×
        Contains entries.now last × All (λ at. at ≤ℤ last) entries.now ×
        (span ≡ last -ℤ first)) }
{
    let first = logs::earliest(entries)?;
    let last = logs::latest(entries)?;
    Some(last - first)
}

/// Drops what is older than an instant from a log that has each instant once.
pub fn keep_since(log: &mut Vec<Timestamp>, since: Timestamp)
    requires { IsStrictlySortedBy int_cmp log.old.items }
    ensures in_order { IsStrictlySortedBy int_cmp log.new.items }
    ensures kept { log.new.items ≡ filter (λ entry. int_le since entry) log.old.items }
    ensures none_older { All (λ entry. since ≤ℤ entry) log.new.items }
{
    logs::drop_before(log, since);
}

/// The entries from one instant on, up to another, of a log in order.
pub fn between(log: &[Timestamp], from: Timestamp, until: Timestamp) -> &[Timestamp]
    requires { IsSorted int_cmp log.now }
    ensures exact { result.now ≡ filter (λ entry. int_lt entry until)
        (filter (λ entry. int_le from entry) log.now) }
    ensures before { All (λ entry. entry <ℤ until) result.now }
    ensures in_order { IsSorted int_cmp result.now }
{
    logs::before(logs::from(log, from), until)
}

/// How many entries of a log in order are from an instant on.
pub fn count_since(log: &[Timestamp], since: Timestamp) -> usize
    requires { IsSorted int_cmp log.now }
    ensures { result ≡ length (filter (λ entry. int_le since entry) log.now) }
{
    logs::from(log, since).len()
}

/// The entries up to an instant and those from it on, which are the whole log.
pub fn parts(log: &[Timestamp], at: Timestamp) -> (&[Timestamp], &[Timestamp])
    requires { IsSorted int_cmp log.now }
    ensures whole { log.now ≡ result.0.now ++ result.1.now }
    ensures before { result.0.now ≡ filter (λ entry. int_lt entry at) log.now }
{
    logs::split_at(log, at)
}

/// A line of a log, with the instant of its stamp.
#[derive(Clone, Copy)]
pub struct Entry {
    pub at: Timestamp,
    pub line: u32,
}

impl Stamped for Entry {
    ghost stamp = { λ entry. entry.at };

    fn stamp(&self) -> Timestamp {
        self.at
    }
}

/// Puts lines into the order of their stamps; lines of one instant keep their order.
pub fn sort_lines(lines: &mut Vec<Entry>) -> Result<(), AllocError>
    ensures same_lines { IsPermutation lines.old.items lines.new.items }
    ensures in_order { OnOk result (IsSortedByKey (λ line. line.at) int_cmp lines.new.items) }
    ensures stable { IsStableByKey (λ line. line.at) int_cmp lines.old.items lines.new.items }
    ensures unchanged { OnErr result (lines.new.items ≡ lines.old.items) }
{
    logs::sort_by_stamp(lines)
}

/// A sale, with the date-time where it was made.
#[derive(Clone, Copy)]
pub struct Sale {
    pub at: OffsetDateTime,
    pub price: u32,
}

impl Dated for Sale {
    ghost date_time = { λ sale. sale.at };

    fn date_time(&self) -> OffsetDateTime {
        self.at
    }
}

/// Puts sales into the order of their instants, wherever they were made; those of one instant keep
/// their order.
pub fn sort_sales(sales: &mut Vec<Sale>) -> Result<(), AllocError>
    ensures same_sales { IsPermutation sales.old.items sales.new.items }
    ensures in_order { OnOk result
        (IsSortedByKey (λ sale. sale.at) (on instant_of int_cmp) sales.new.items) }
    ensures stable { IsStableByKey (λ sale. sale.at) (on instant_of int_cmp)
        sales.old.items sales.new.items }
    ensures unchanged { OnErr result (sales.new.items ≡ sales.old.items) }
{
    logs::sort_by_date_time(sales)
}

/// Entries under one key of a hash table that compares what its hasher was fed are one instant, in
/// whatever type they came.
pub fn one_key_is_one_instant()
    ensures stamps { (x y : _) → IsWallClock x → IsWallClock y →
        ⟦<Timestamp as Hash>⟧.hash_input x ≡ ⟦<Timestamp as Hash>⟧.hash_input y → x ≡ y }
    ensures utc { (x y : _) → IsWallClock x → IsWallClock y →
        ⟦<UtcDateTime as Hash>⟧.hash_input x ≡ ⟦<UtcDateTime as Hash>⟧.hash_input y → x ≡ y }
    ensures plain { (x y : _) → IsWallClock x → IsWallClock y →
        ⟦<PlainDateTime as Hash>⟧.hash_input x ≡ ⟦<PlainDateTime as Hash>⟧.hash_input y → x ≡ y }
    ensures local { (x y : _) → IsLocal x → IsLocal y →
        ⟦<OffsetDateTime as Hash>⟧.hash_input x ≡ ⟦<OffsetDateTime as Hash>⟧.hash_input y →
        ⟦<OffsetDateTime as PartialEq>⟧.eq x y ≡ true }
{
    stamp_times::laws::hashed_by_instant();
    utc_times::laws::hashed_by_instant();
    plain_times::laws::hashed_by_wall_clock();
    offset_times::laws::compared_by_instant();
}

/// Whether a log in order has no entry after an instant.
pub fn is_quiet_since(log: &[Timestamp], since: Timestamp) -> bool
    requires { IsSorted int_cmp log.now }
    ensures { IsTrue result ↔ All (λ at. at ≤ℤ since) log.now }
{
    match logs::last(log) {
        Some(last) => last <= since,
        None => true,
    }
}
