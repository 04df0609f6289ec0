//! Callers that do not care which type holds an instant, and records that are exchanged.
ghost use Rattle.std.specs.Prelude.{◌≡◌, ◌↔◌, ◌≤◌, codes, IfErr, IfOk, IfSome, IsOk, IsPermutation, IsSorted, OnErr, OnOk};
ghost use Rattle.std.specs.Prelude.{pos, ◌+ℤ◌, ◌≤ℤ◌, None, SomeIff, option_map};
ghost use Rattle.std.specs.Ordering.{on, int_cmp};
ghost use Rattle.calendar_values.specs.Calendar.{day_of_month_of, year_of};
ghost use Rattle.calendar_values.specs.Clock.{nanos_per_day, hour_of};
ghost use Rattle.calendar_values.specs.Refusals.{date_refusal, outright_refusal};
ghost use Rattle.calendar_values.specs.WallClock.{wall_day, wall_time, IsWallClock, SomeInRange};
ghost use Rattle.offset_times.specs.Local.{instant_of, shown_at, local_at, wall_at};
ghost use Rattle.offset_times.specs.Texts.{offset_date_time_text};
ghost use Rattle.plain_times.specs.Replacements.{with_time};
ghost use Rattle.plain_times.specs.Truncations.{wall_multiple_below};

use calendar_values::{ComponentRange, SignedDuration, Text, Time, UtcOffset};
use offset_times::{OffsetDateTime, ToOffset};
use stamp_times::{Call, Moment, Replace, Reply, Shift, Timestamp, run_both};
use std::alloc::{AllocError, Global};
use utc_times::UtcDateTime;

/// The first instant of the day in UTC, for any type that holds an instant.
pub fn first_of_day<M: Moment>(at: M) -> M
    ensures { M.instant result ≡ with_time (M.instant at) 0 }
{
    match at.replace(Replace::Time(Time::MIDNIGHT)) {
        Ok(midnight) => midnight,
        Err(_) => at,
    }
}

/// The same time of day tomorrow, for any type that holds an instant. None outside the range.
pub fn tomorrow<M: Moment>(at: M) -> Option<M>
    ensures value { SomeInRange (option_map M.instant result) (M.instant at +ℤ pos nanos_per_day) }
    ensures instant { IfSome result (λ later. M.instant later ≡ M.instant at +ℤ pos nanos_per_day) }
{
    at.shift(Shift::CheckedAdd(SignedDuration::days(1)))
}

/// The first day of the month at the same time of day, for any type that holds an instant.
pub fn first_of_month<M: Moment>(at: M) -> M
    ensures { day_of_month_of (wall_day (M.instant result)) ≡ 1 }
{
    at.replace(Replace::Day(1)).unwrap()
}

/// The same day and minute in the last hour of the day, for any type that holds an instant.
pub fn in_the_last_hour<M: Moment>(at: M) -> M
    ensures hour { hour_of (wall_time (M.instant result)) ≡ 23 }
    ensures day { wall_day (M.instant result) ≡ wall_day (M.instant at) }
{
    at.replace(Replace::Hour(23)).unwrap()
}

/// The same day at another hour, exactly where a day has it, for any type that holds an instant.
pub fn at_hour<M: Moment>(at: M, hour: u8) -> Result<M, ComponentRange>
    ensures accepted { IsOk result ↔ (hour ≤ 23) }
    ensures shown { IfOk result (λ next. hour_of (wall_time (M.instant next)) ≡ hour) }
    ensures refused { IfErr result (λ refusal. refusal ≡ outright_refusal (codes "hour")) }
{
    at.replace(Replace::Hour(hour))
}

/// The same day at an hour that is known to be one, for any type that holds an instant.
pub fn at_known_hour<M: Moment>(at: M, hour: u8) -> M
    requires { hour ≤ 23 }
    ensures { hour_of (wall_time (M.instant result)) ≡ hour }
{
    at.replace(Replace::Hour(hour)).unwrap()
}

/// The day of the month, exactly where the month has it, for any type that holds an instant.
pub fn on_day<M: Moment>(at: M, day: u8) -> Result<M, ComponentRange>
    ensures shown { IfOk result (λ next. day_of_month_of (wall_day (M.instant next)) ≡ day) }
    ensures refused { let year = year_of (wall_day (M.instant at)) in
        IfErr result (λ refusal. refusal ≡ date_refusal year day) }
{
    at.replace(Replace::Day(day))
}

/// The same day at a time of day, which is never refused, for any type that holds an instant.
pub fn at_time<M: Moment>(at: M, time: Time) -> M
    ensures day { wall_day (M.instant result) ≡ wall_day (M.instant at) }
    ensures time { wall_time (M.instant result) ≡ time }
{
    match at.replace(Replace::Time(time)) {
        Ok(next) => next,
        Err(_) => unreachable!(),
    }
}

/// An hour later, or the end of the range, for any type that holds an instant.
pub fn an_hour_on<M: Moment>(at: M) -> M
    ensures not_before { M.instant at ≤ℤ M.instant result }
{
    match at.shift(Shift::SaturatingAdd(SignedDuration::hours(1))) {
        Some(later) => later,
        None => at,
    }
}

/// The next midnight that clocks at the offset show, or None where they show no date of the range
/// now or then.
pub fn next_midnight_at(at: UtcDateTime, offset: UtcOffset) -> Option<OffsetDateTime>
    ensures outside { ¬ IsWallClock (shown_at at offset) → result ≡ None }
    ensures value { let here = shown_at at offset in
        let next = wall_multiple_below nanos_per_day here +ℤ pos nanos_per_day in
        IsWallClock here → SomeIff result (IsWallClock next) (wall_at next offset) }
    ensures at_offset { IfSome result (λ next. next.offset ≡ offset) }
    ensures a_day_after_the_last { IfSome result (λ next.
        next.wall ≡ wall_multiple_below nanos_per_day (shown_at at offset) +ℤ pos nanos_per_day) }
{
    let here = at.checked_to_offset(offset)?;
    here.truncate_to_day().checked_add(SignedDuration::days(1))
}

/// Puts entries from many offsets into the order of their instants.
pub fn sort(entries: &mut Vec<OffsetDateTime>) -> Result<(), AllocError>
    ensures same_entries { IsPermutation entries.old.items entries.new.items }
    ensures sorted { OnOk result (IsSorted (on instant_of int_cmp) entries.new.items) }
    ensures unchanged { OnErr result (entries.new.items ≡ entries.old.items) }
{
    entries.sort()
}

/// A record as it is exchanged: an instant, and the offset at which it was written.
#[derive(Clone, Copy)]
pub struct Record {
    pub at: Timestamp,
    pub offset: UtcOffset,
}

/// The text of a record at its offset, or None where clocks there show no date of the range.
pub fn record_text(entry: Record) -> Option<Text>
    ensures value { let there = local_at entry.at entry.offset in
        SomeIff result (IsWallClock there.wall) (offset_date_time_text there) }
{
    Some(entry.at.checked_to_offset(entry.offset)?.text())
}

/// Replays calls on both types that hold an instant: their replies are the same.
pub fn replay(
    alloc: Global,
    start: Timestamp,
    calls: &[Call],
) -> Result<(Vec<Reply>, Vec<Reply>), AllocError>
    ensures { IfOk result (λ both. both.0.items ≡ both.1.items) }
{
    run_both(alloc, start, calls)
}
