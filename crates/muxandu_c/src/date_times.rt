//! Date-times at an offset from UTC.
ghost use Rattle.std.specs.Prelude.{◌≡◌};
ghost use Rattle.calendar_values.specs.Offsets.{IsOffset};
ghost use Rattle.offset_times.specs.Local.{instant_of, shown_at};
ghost use Rattle.muxandu_c.specs.Answers.{Answers, status_of};
ghost use Rattle.muxandu_c.specs.Values.{date_time_value, date_time_from_timestamp, timestamp_from_date_time, date_time_to_offset};
ghost use Rattle.muxandu_c.specs.Values.{as_date_time, local_if_any};
ghost use Rattle.muxandu_c.specs.Values.{date_time_add, date_time_saturating_add, date_time_subtract, date_time_saturating_subtract};
ghost use Rattle.muxandu_c.specs.Values.{date_time_difference, date_time_truncate, date_time_compare, date_time_day};

use crate::parts::{
    checked_difference, checked_offset, checked_sum, date_time_of, day_of, duration_between,
    duration_of, in_unit, instant_of_date_time, order, read_date_time, read_duration,
    read_timestamp, shown_as_if_utc, sign, timestamp_of, to_offset, wall_of, wall_parts,
};
use crate::refused::{MuxanduStatus, Refused, answer, status_of};
use crate::unit::{MuxanduUnit, read_unit};
use crate::values::{MuxanduDateTime, MuxanduDuration, MuxanduTimestamp};
use offset_times::OffsetDateTime;

/// Checks that the parts make a date-time. To replace a part yourself, write it and then make this
/// call. Each call that takes a date-time has these errors, in this order: MONTH, YEAR, DAY,
/// DAY_OF_MONTH, HOUR, MINUTE, SECOND, NANOSECOND, OFFSET_SECONDS.
#[unsafe(no_mangle)]
pub extern "C" fn muxandu_date_time_check(date_time: MuxanduDateTime) -> MuxanduStatus
    ensures status { result ≡ status_of (date_time_value date_time) }
{
    status_of(read_date_time(date_time))
}

#[inline(always)]
pub(crate) fn date_time_from_timestamp(
    at: MuxanduTimestamp,
    offset_seconds: i32,
) -> Result<MuxanduDateTime, Refused>
    ensures { result ≡ date_time_from_timestamp at offset_seconds }
{
    let at = read_timestamp(at)?;
    let offset_seconds = checked_offset(offset_seconds)?;
    Ok(wall_parts(shown_as_if_utc(at, offset_seconds)?, offset_seconds))
}

/// The date-time of an instant at an offset in seconds. Errors, in this order: those of the
/// timestamp, OFFSET_SECONDS, RESULT if the year at that offset is out of range.
#[unsafe(no_mangle)]
pub extern "C" fn muxandu_date_time_from_timestamp(
    at: MuxanduTimestamp,
    offset_seconds: i32,
    out: &mut MuxanduDateTime,
) -> MuxanduStatus
    ensures { Answers result out.old out.new (date_time_from_timestamp at offset_seconds) }
{
    answer(date_time_from_timestamp(at, offset_seconds), out)
}

#[inline(always)]
pub(crate) fn timestamp_from_date_time(
    date_time: MuxanduDateTime,
) -> Result<MuxanduTimestamp, Refused>
    ensures { result ≡ timestamp_from_date_time date_time }
{
    let at = read_date_time(date_time)?;
    Ok(timestamp_of(instant_of_date_time(at, date_time.offset_seconds)?))
}

/// The instant of a date-time. Errors, in this order: those of the date-time, RESULT outside the
/// range of timestamps.
#[unsafe(no_mangle)]
pub extern "C" fn muxandu_timestamp_from_date_time(
    date_time: MuxanduDateTime,
    out: &mut MuxanduTimestamp,
) -> MuxanduStatus
    ensures { Answers result out.old out.new (timestamp_from_date_time date_time) }
{
    answer(timestamp_from_date_time(date_time), out)
}

// The parts of what clocks at another offset show at the instant of a date-time, if the range has it. Both
// offsets are given in seconds.
#[inline(always)]
fn shown_parts(at: OffsetDateTime, from: i32, to: i32) -> Result<MuxanduDateTime, Refused>
    requires from { at.offset ≡ from }
    requires to { IsOffset to }
    ensures { result ≡ as_date_time (local_if_any (shown_at (instant_of at) to) to) }
{
    Ok(wall_parts(to_offset(at, from, to)?, to))
}

#[inline(always)]
fn date_time_to_offset(
    date_time: MuxanduDateTime,
    offset_seconds: i32,
) -> Result<MuxanduDateTime, Refused>
    ensures { result ≡ date_time_to_offset date_time offset_seconds }
{
    let at = read_date_time(date_time)?;
    shown_parts(
        at,
        date_time.offset_seconds,
        checked_offset(offset_seconds)?,
    )
}

/// The same instant at another offset in seconds. Errors, in this order: those of the date-time,
/// OFFSET_SECONDS, RESULT if the year at that offset is out of range.
#[unsafe(no_mangle)]
pub extern "C" fn muxandu_date_time_to_offset(
    date_time: MuxanduDateTime,
    offset_seconds: i32,
    out: &mut MuxanduDateTime,
) -> MuxanduStatus
    ensures { Answers result out.old out.new (date_time_to_offset date_time offset_seconds) }
{
    answer(date_time_to_offset(date_time, offset_seconds), out)
}

fn date_time_add(
    date_time: MuxanduDateTime,
    duration: MuxanduDuration,
) -> Result<MuxanduDateTime, Refused>
    ensures { result ≡ date_time_add date_time duration }
{
    let at = read_date_time(date_time)?;
    let wall = checked_sum(wall_of(at), read_duration(duration)?)?;
    Ok(wall_parts(wall, date_time.offset_seconds))
}

/// The date-time plus a duration, at the same offset. Errors, in this order: those of the
/// date-time, DURATION, RESULT if the year is out of range.
#[unsafe(no_mangle)]
pub extern "C" fn muxandu_date_time_add(
    date_time: MuxanduDateTime,
    duration: MuxanduDuration,
    out: &mut MuxanduDateTime,
) -> MuxanduStatus
    ensures { Answers result out.old out.new (date_time_add date_time duration) }
{
    answer(date_time_add(date_time, duration), out)
}

fn date_time_subtract(
    date_time: MuxanduDateTime,
    duration: MuxanduDuration,
) -> Result<MuxanduDateTime, Refused>
    ensures { result ≡ date_time_subtract date_time duration }
{
    let at = read_date_time(date_time)?;
    let wall = checked_difference(wall_of(at), read_duration(duration)?)?;
    Ok(wall_parts(wall, date_time.offset_seconds))
}

/// The date-time minus a duration, at the same offset. Errors, in this order: those of the
/// date-time, DURATION, RESULT if the year is out of range.
#[unsafe(no_mangle)]
pub extern "C" fn muxandu_date_time_subtract(
    date_time: MuxanduDateTime,
    duration: MuxanduDuration,
    out: &mut MuxanduDateTime,
) -> MuxanduStatus
    ensures { Answers result out.old out.new (date_time_subtract date_time duration) }
{
    answer(date_time_subtract(date_time, duration), out)
}

fn date_time_saturating_add(
    date_time: MuxanduDateTime,
    duration: MuxanduDuration,
) -> Result<MuxanduDateTime, Refused>
    ensures { result ≡ date_time_saturating_add date_time duration }
{
    let at = read_date_time(date_time)?;
    Ok(date_time_of(at.saturating_add(read_duration(duration)?)))
}

/// The date-time plus a duration, at the same offset, or the nearer end of the range. Errors, in
/// this order: those of the date-time, DURATION.
#[unsafe(no_mangle)]
pub extern "C" fn muxandu_date_time_saturating_add(
    date_time: MuxanduDateTime,
    duration: MuxanduDuration,
    out: &mut MuxanduDateTime,
) -> MuxanduStatus
    ensures { Answers result out.old out.new (date_time_saturating_add date_time duration) }
{
    answer(date_time_saturating_add(date_time, duration), out)
}

fn date_time_saturating_subtract(
    date_time: MuxanduDateTime,
    duration: MuxanduDuration,
) -> Result<MuxanduDateTime, Refused>
    ensures { result ≡ date_time_saturating_subtract date_time duration }
{
    let at = read_date_time(date_time)?;
    Ok(date_time_of(at.saturating_sub(read_duration(duration)?)))
}

/// The date-time minus a duration, at the same offset, or the nearer end of the range. Errors, in
/// this order: those of the date-time, DURATION.
#[unsafe(no_mangle)]
pub extern "C" fn muxandu_date_time_saturating_subtract(
    date_time: MuxanduDateTime,
    duration: MuxanduDuration,
    out: &mut MuxanduDateTime,
) -> MuxanduStatus
    ensures { Answers result out.old out.new (date_time_saturating_subtract date_time duration) }
{
    answer(date_time_saturating_subtract(date_time, duration), out)
}

fn date_time_difference(
    later: MuxanduDateTime,
    earlier: MuxanduDateTime,
) -> Result<MuxanduDuration, Refused>
    ensures { result ≡ date_time_difference later earlier }
{
    let at = read_date_time(later)?;
    let from = read_date_time(earlier)?;
    Ok(duration_of(duration_between(at, from, later.offset_seconds - earlier.offset_seconds)))
}

/// The duration from the instant of `earlier` to that of `later`, negative if `later` comes first.
/// Errors, in this order: those of `later`, those of `earlier`.
#[unsafe(no_mangle)]
pub extern "C" fn muxandu_date_time_difference(
    later: MuxanduDateTime,
    earlier: MuxanduDateTime,
    out: &mut MuxanduDuration,
) -> MuxanduStatus
    ensures { Answers result out.old out.new (date_time_difference later earlier) }
{
    answer(date_time_difference(later, earlier), out)
}

fn date_time_truncate(date_time: MuxanduDateTime, unit: u32) -> Result<MuxanduDateTime, Refused>
    ensures { result ≡ date_time_truncate date_time unit }
{
    let at = read_date_time(date_time)?;
    Ok(date_time_of(in_unit(at, read_unit(unit)?)))
}

/// The date-time, rounded down to a unit at its own offset. Errors, in this order: those of the
/// date-time, UNIT.
#[unsafe(no_mangle)]
pub extern "C" fn muxandu_date_time_truncate(
    date_time: MuxanduDateTime,
    unit: MuxanduUnit,
    out: &mut MuxanduDateTime,
) -> MuxanduStatus
    ensures { Answers result out.old out.new (date_time_truncate date_time unit) }
{
    answer(date_time_truncate(date_time, unit), out)
}

fn date_time_compare(first: MuxanduDateTime, second: MuxanduDateTime) -> Result<i32, Refused>
    ensures { result ≡ date_time_compare first second }
{
    let at = read_date_time(first)?;
    let other = read_date_time(second)?;
    if first.year == second.year {
        return Ok(sign(order(at, first.offset_seconds, other, second.offset_seconds)));
    }
    Ok(sign(at.cmp(&other)))
}

/// The order of two instants: -1 if `first` comes first, 0 if both are one instant, 1 if `second`
/// comes first. Errors, in this order: those of `first`, those of `second`.
#[unsafe(no_mangle)]
pub extern "C" fn muxandu_date_time_compare(
    first: MuxanduDateTime,
    second: MuxanduDateTime,
    out: &mut i32,
) -> MuxanduStatus
    ensures { Answers result out.old out.new (date_time_compare first second) }
{
    answer(date_time_compare(first, second), out)
}

fn date_time_day(date_time: MuxanduDateTime) -> Result<i32, Refused>
    ensures { result ≡ date_time_day date_time }
{
    Ok(day_of(read_date_time(date_time)?.date()))
}

/// The day number of the local date, 0 on 1970-01-01. Errors: those of the date-time.
#[unsafe(no_mangle)]
pub extern "C" fn muxandu_date_time_day(date_time: MuxanduDateTime, out: &mut i32) -> MuxanduStatus
    ensures { Answers result out.old out.new (date_time_day date_time) }
{
    answer(date_time_day(date_time), out)
}
