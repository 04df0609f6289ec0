//! The values of callers as those of the library, and back.
ghost use Rattle.std.specs.Prelude.{◌≡◌, ◌<◌, ◌/◌, ◌+ℤ◌, ◌-ℤ◌, IfOk};
ghost use Rattle.calendar_values.specs.Calendar.{year_of, month_of, day_of_month_of};
ghost use Rattle.calendar_values.specs.Dates.{ShowsDate};
ghost use Rattle.calendar_values.specs.Offsets.{IsOffset, offset_of_seconds};
ghost use Rattle.calendar_values.specs.Range.{IsDay};
ghost use Rattle.calendar_values.specs.WallClock.{IsInstant, IsWallClock, unix_seconds_of};
ghost use Rattle.std.specs.Ordering.{int_cmp};
ghost use Rattle.plain_times.specs.Truncations.{wall_multiple_below};
ghost use Rattle.offset_times.specs.Local.{local_multiple_below, instant_of, shown_at, wall_at, offset_nanos};
ghost use Rattle.muxandu_c.specs.Answers.{as_refused};
ghost use Rattle.muxandu_c.specs.Values.{date_value, date_parts, date_time_value, date_time_parts, day_value};
ghost use Rattle.muxandu_c.specs.Values.{timestamp_value, timestamp_parts, duration_value, duration_parts};
ghost use Rattle.muxandu_c.specs.Values.{instant_if_any, unit_nanos, sign_of};

use crate::refused::Refused;
use crate::unit::Unit;
use crate::values::{MuxanduDate, MuxanduDateTime, MuxanduDuration, MuxanduTimestamp};
use calendar_values::units::NANOS_PER_SECOND;
use calendar_values::{Date, Month, SignedDuration, Time, UtcOffset, leap_ordinal_to_month_day};
use offset_times::OffsetDateTime;
use stamp_times::Timestamp;
use stamp_times::reciprocal::year_leap_ordinal;
use std::cmp::Ordering;
use utc_times::{AsUtc, UtcDateTime};

// The date of its parts.
#[inline(always)]
pub(crate) fn read_date(year: i32, month: u8, day: u8) -> Result<Date, Refused>
    ensures value { result ≡ date_value year month day }
    ensures shown { IfOk result (ShowsDate year month day) }
{
    Ok(Date::from_calendar_date(year, Month::from_number(month)?, day)?)
}

// The date-time of its parts.
#[inline(always)]
pub(crate) fn read_date_time(date_time: MuxanduDateTime) -> Result<OffsetDateTime, Refused>
    ensures value { result ≡ date_time_value date_time }
    ensures shown { IfOk result (λ at. date_time ≡ date_time_parts at) }
    ensures offset { IfOk result (λ at. at.offset ≡ date_time.offset_seconds) }
    ensures in_range { IfOk result (λ at. IsOffset at.offset) }
{
    let date = read_date(date_time.year, date_time.month, date_time.day)?;
    let time = Time::from_hms_nano(
        date_time.hour,
        date_time.minute,
        date_time.second,
        date_time.nanosecond,
    )?;
    let offset = read_offset(date_time.offset_seconds)?;
    Ok(OffsetDateTime::new_in_offset(date, time, offset))
}

// The parts of a date-time.
#[inline(always)]
pub(crate) fn date_time_of(at: OffsetDateTime) -> MuxanduDateTime
    ensures { result ≡ date_time_parts at }
{
    let (year, month, day) = at.to_calendar_date();
    let (hour, minute, second, nanosecond) = at.to_hms_nano();
    MuxanduDateTime {
        year,
        month: u8::from(month),
        day,
        hour,
        minute,
        second,
        nanosecond,
        offset_seconds: at.offset().whole_seconds(),
    }
}

// The parts of what clocks at an offset, in seconds, show, which is given as clocks in UTC show it.
#[inline(always)]
pub(crate) fn wall_parts(wall: Timestamp, offset_seconds: i32) -> MuxanduDateTime
    ensures { result ≡ date_time_parts (wall_at wall offset_seconds) }
{
    let (year, month, day) = wall.to_calendar_date();
    let (hour, minute, second, nanosecond) = wall.as_hms_nano();
    MuxanduDateTime {
        year,
        month: u8::from(month),
        day,
        hour,
        minute,
        second,
        nanosecond,
        offset_seconds,
    }
}

// What the clocks of a date-time show, as clocks in UTC show it.
#[inline(always)]
pub(crate) fn wall_of(at: OffsetDateTime) -> Timestamp
    ensures value { result ≡ at.wall }
    ensures in_range { IsWallClock at.wall }
{
    Timestamp::from(at.date_time().as_utc())
}

// The instant of its parts.
#[inline(always)]
pub(crate) fn read_timestamp(at: MuxanduTimestamp) -> Result<Timestamp, Refused>
    ensures { result ≡ timestamp_value at }
{
    Ok(Timestamp::new(at.seconds, at.nanoseconds)?)
}

// The parts of an instant.
#[inline(always)]
pub(crate) fn timestamp_of(at: Timestamp) -> MuxanduTimestamp
    ensures { result ≡ timestamp_parts at }
{
    MuxanduTimestamp {
        seconds: at.as_seconds(),
        nanoseconds: at.nanosecond(),
    }
}

// The instant of a date-time at an offset in seconds, if the range has it.
#[tactic(auto, unfolding(offset_times::specs::Local::instant_of))]
#[inline(always)]
pub(crate) fn instant_of_date_time(
    at: OffsetDateTime,
    offset_seconds: i32,
) -> Result<Timestamp, Refused>
    requires { at.offset ≡ offset_seconds }
    ensures { result ≡ instant_if_any (instant_of at) }
{
    checked_difference(wall_of(at), seconds_of(offset_seconds))
}

// The instant of a date-time, which the range has.
#[inline(always)]
pub(crate) fn instant_in_range(at: OffsetDateTime) -> Timestamp
    requires { IsInstant (instant_of at) }
    ensures { result ≡ instant_of at }
{
    instant_in_range_at(at, at.offset().whole_seconds())
}

// The same of a date-time at an offset in seconds.
#[tactic(auto, unfolding(offset_times::specs::Local::instant_of))]
#[inline(always)]
pub(crate) fn instant_in_range_at(at: OffsetDateTime, offset_seconds: i32) -> Timestamp
    requires instant { IsInstant (instant_of at) }
    requires offset { at.offset ≡ offset_seconds }
    ensures { result ≡ instant_of at }
{
    wall_of(at) - seconds_of(offset_seconds)
}

// The duration of its parts together. Most have less than a second of nanoseconds, and carry none.
#[inline(always)]
pub(crate) fn read_duration(duration: MuxanduDuration) -> Result<SignedDuration, Refused>
    ensures { result ≡ duration_value duration }
{
    if duration.nanoseconds.unsigned_abs() < NANOS_PER_SECOND as u32 {
        return Ok(SignedDuration::new(duration.seconds, duration.nanoseconds));
    }
    carried_duration(duration)
}

// The same of any number of nanoseconds.
fn carried_duration(duration: MuxanduDuration) -> Result<SignedDuration, Refused>
    ensures { result ≡ duration_value duration }
{
    let carried = (duration.nanoseconds / NANOS_PER_SECOND) as i64;
    if duration.seconds.checked_add(carried).is_none() {
        return Err(Refused::Duration);
    }
    Ok(SignedDuration::new(duration.seconds, duration.nanoseconds))
}

// The parts of a duration.
pub(crate) fn duration_of(duration: SignedDuration) -> MuxanduDuration
    ensures { result ≡ duration_parts duration }
{
    MuxanduDuration {
        seconds: duration.whole_seconds(),
        nanoseconds: duration.subsec_nanoseconds(),
    }
}

// The offset of a number of seconds.
#[inline(always)]
pub(crate) fn read_offset(seconds: i32) -> Result<UtcOffset, Refused>
    ensures value { result ≡ as_refused (offset_of_seconds seconds) }
    ensures seconds { IfOk result (λ offset. offset ≡ seconds) }
    ensures in_range { IfOk result IsOffset }
{
    Ok(UtcOffset::from_whole_seconds(seconds)?)
}

// The seconds of an offset, if there is such an offset: to count with them, which an offset would have to
// add up from its hours, minutes and seconds.
#[inline(always)]
pub(crate) fn checked_offset(seconds: i32) -> Result<i32, Refused>
    ensures value { result ≡ as_refused (offset_of_seconds seconds) }
    ensures in_range { IfOk result IsOffset }
{
    UtcOffset::from_whole_seconds(seconds)?;
    Ok(seconds)
}

// The seconds of an offset as a duration.
#[inline(always)]
pub(crate) fn seconds_of(offset_seconds: i32) -> SignedDuration
    ensures { result ≡ offset_nanos offset_seconds }
{
    SignedDuration::seconds(offset_seconds as i64)
}

// What clocks at an offset of this number of seconds show at an instant, as clocks in UTC show it, if the range has
// it.
#[inline(always)]
pub(crate) fn shown_as_if_utc(at: Timestamp, offset_seconds: i32) -> Result<Timestamp, Refused>
    ensures { result ≡ instant_if_any (shown_at at offset_seconds) }
{
    checked_sum(at, seconds_of(offset_seconds))
}

// The instant plus a duration, if the range has it.
#[inline(always)]
pub(crate) fn checked_sum(at: Timestamp, duration: SignedDuration) -> Result<Timestamp, Refused>
    ensures { result ≡ instant_if_any (at +ℤ duration) }
{
    match at.checked_add(duration) {
        Some(sum) => Ok(sum),
        None => Err(Refused::Result),
    }
}

// The instant minus a duration, if the range has it.
#[inline(always)]
pub(crate) fn checked_difference(
    at: Timestamp,
    duration: SignedDuration,
) -> Result<Timestamp, Refused>
    ensures { result ≡ instant_if_any (at -ℤ duration) }
{
    match at.checked_sub(duration) {
        Some(difference) => Ok(difference),
        None => Err(Refused::Result),
    }
}

// The duration from the second instant to the first, by what clocks show and by the seconds between the
// offsets.
#[tactic(auto, unfolding(offset_times::specs::Local::instant_of))]
#[inline(always)]
pub(crate) fn duration_between(
    later: OffsetDateTime,
    earlier: OffsetDateTime,
    offsets: i32,
) -> SignedDuration
    requires { offsets ≡ later.offset -ℤ earlier.offset }
    ensures { result ≡ instant_of later -ℤ instant_of earlier }
{
    wall_of(later) - wall_of(earlier) - seconds_of(offsets)
}

// What clocks at another offset show at the instant of a date-time, as clocks in UTC show it, if the range
// has it. Both offsets are given in seconds.
#[tactic(auto, unfolding(offset_times::specs::Local::instant_of))]
#[inline(always)]
pub(crate) fn to_offset(at: OffsetDateTime, from: i32, to: i32) -> Result<Timestamp, Refused>
    requires from { at.offset ≡ from }
    requires to { IsOffset to }
    ensures { result ≡ instant_if_any (shown_at (instant_of at) to) }
{
    checked_sum(wall_of(at), seconds_of(to - from))
}

// The order of two instants, by what clocks show and by the seconds of the offsets.
#[inline(always)]
pub(crate) fn order(
    first: OffsetDateTime,
    first_offset: i32,
    second: OffsetDateTime,
    second_offset: i32,
) -> Ordering
    requires first { first.offset ≡ first_offset }
    requires second { second.offset ≡ second_offset }
    requires first_in_range { IsOffset first.offset }
    requires second_in_range { IsOffset second.offset }
    ensures { result ≡ int_cmp (instant_of first) (instant_of second) }
{
    let (at, other) = (wall_of(first), wall_of(second));
    let seconds = seconds_less(at, first_offset);
    let other_seconds = seconds_less(other, second_offset);
    seconds
        .cmp(&other_seconds)
        .then(at.nanosecond().cmp(&other.nanosecond()))
}

// The seconds of an instant, less those of an offset.
#[inline(always)]
fn seconds_less(at: Timestamp, offset_seconds: i32) -> i64
    requires { IsOffset offset_seconds }
    ensures { result ≡ unix_seconds_of at -ℤ offset_seconds }
{
    at.as_seconds() - offset_seconds as i64
}

// The date of a day number.
#[inline(always)]
pub(crate) fn read_day(day: i32) -> Result<Date, Refused>
    ensures value { result ≡ day_value day }
    ensures in_range { IfOk result (λ date. IsDay day) }
{
    match Date::from_days_since_epoch(day) {
        Some(date) => Ok(date),
        None => Err(Refused::DayNumber),
    }
}

// The day number of a date.
#[inline(always)]
pub(crate) fn day_of(date: Date) -> i32
    ensures value { result ≡ date }
    ensures in_range { IsDay result }
{
    date.days_since_epoch()
}

// The parts of a date.
pub(crate) fn date_parts_of(date: Date) -> MuxanduDate
    ensures { result ≡ date_parts date }
{
    let (year, month, day) = date.to_calendar_date();
    MuxanduDate {
        year,
        month: u8::from(month),
        day,
    }
}

// The same of the date of a day number.
#[inline(always)]
pub(crate) fn date_of(day: i32) -> MuxanduDate
    requires { IsDay day }
    ensures { result ≡ date_parts day }
{
    let (year, is_leap, ordinal) = year_leap_ordinal(day);
    let (month, day) = leap_ordinal_to_month_day(is_leap, ordinal);
    MuxanduDate {
        year,
        month: u8::from(month),
        day,
    }
}

// The date-time truncated to a unit.
#[tactic(auto, using(crate::proofs::UnitLemmas::whole_nanoseconds))]
pub(crate) fn in_unit(at: OffsetDateTime, unit: Unit) -> OffsetDateTime
    ensures { result ≡ local_multiple_below (unit_nanos unit) at }
{
    match unit {
        Unit::Day => at.truncate_to_day(),
        Unit::Hour => at.truncate_to_hour(),
        Unit::Minute => at.truncate_to_minute(),
        Unit::Second => at.truncate_to_second(),
        Unit::Millisecond => at.truncate_to_millisecond(),
        Unit::Microsecond => at.truncate_to_microsecond(),
        Unit::Nanosecond => at,
    }
}

// The instant rounded down to a unit.
#[tactic(auto, using(crate::proofs::UnitLemmas::whole_nanoseconds))]
pub(crate) fn utc_in_unit(at: UtcDateTime, unit: Unit) -> UtcDateTime
    ensures { result ≡ wall_multiple_below (unit_nanos unit) at }
{
    match unit {
        Unit::Day => at.truncate_to_day(),
        Unit::Hour => at.truncate_to_hour(),
        Unit::Minute => at.truncate_to_minute(),
        Unit::Second => at.truncate_to_second(),
        Unit::Millisecond => at.truncate_to_millisecond(),
        Unit::Microsecond => at.truncate_to_microsecond(),
        Unit::Nanosecond => at,
    }
}

// -1, 0 or 1.
pub(crate) fn sign(order: Ordering) -> i32
    ensures { result ≡ sign_of order }
{
    match order {
        Ordering::Less => -1,
        Ordering::Equal => 0,
        Ordering::Greater => 1,
    }
}
