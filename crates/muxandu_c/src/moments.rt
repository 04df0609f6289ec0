//! Moments: instants, each with the offset of the clocks that show it.
ghost use Rattle.std.specs.Prelude.{◌≡◌};
ghost use Rattle.muxandu_c.specs.Moments.{timestamp_of_moment, instant_at, moment_value, moment_parts};
ghost use Rattle.muxandu_c.specs.Moments.{date_time_of_moment, moment_of_date_time, date_of_date_time, on_date};
ghost use Rattle.muxandu_c.specs.Moments.{moment_to_offset, instant_truncate, moment_truncate, moment_add_months};
ghost use Rattle.muxandu_c.specs.Moments.{moment_add, moment_subtract, moment_compare, moment_difference};
ghost use Rattle.muxandu_c.specs.Values.{instant_if_any, unit_nanos};
ghost use Rattle.calendar_values.specs.WallClock.{IsInstant};
ghost use Rattle.offset_times.specs.Local.{instant_of, local_multiple_below, wall_at};
ghost use Rattle.plain_times.specs.Truncations.{wall_multiple_below};
ghost use Rattle.utc_times.specs.UnixTime.{instant_of_second};

use crate::date_sums::date_add_months;
use crate::date_times::date_time_from_timestamp;
use crate::inside_moments::{
    difference_inside, is_inside, is_short, later_by, order_inside, rounded_down,
    with_nanoseconds_below,
};
use crate::parts::{
    checked_difference, checked_offset, checked_sum, duration_of, instant_of_date_time,
    read_date_time, read_duration, read_timestamp, seconds_of, shown_as_if_utc, sign, utc_in_unit,
};
use crate::refused::Refused;
use crate::unit::{Unit, read_unit};
use crate::values::{MuxanduDate, MuxanduDateTime, MuxanduDuration, MuxanduTimestamp};
use stamp_times::Timestamp;

/// A moment: an instant, and the offset of the clocks that show it. It is a row of a column: 16
/// bytes with no padding.
#[repr(C)]
#[derive(Clone, Copy)]
pub struct MuxanduMoment {
    /// The seconds from 1970-01-01 0:00 UTC, rounded down: -31619087596800 to 31494784780799.
    pub seconds: i64,
    /// The nanoseconds past that second, 0 to 999999999.
    pub nanoseconds: u32,
    /// The offset: the seconds by which local clocks are ahead of UTC, -93599 to 93599.
    pub offset_seconds: i32,
}

// The timestamp of a moment.
#[inline(always)]
fn timestamp_of_moment(at: MuxanduMoment) -> MuxanduTimestamp
    ensures { result ≡ timestamp_of_moment at }
{
    MuxanduTimestamp {
        seconds: at.seconds,
        nanoseconds: at.nanoseconds,
    }
}

// An instant, if clocks at an offset can show it.
#[inline(always)]
fn instant_at(at: Timestamp, offset_seconds: i32) -> Result<Timestamp, Refused>
    ensures { result ≡ instant_at offset_seconds at }
{
    match shown_as_if_utc(at, checked_offset(offset_seconds)?) {
        Ok(_) => Ok(at),
        Err(refused) => Err(refused),
    }
}

// The instant of a moment.
#[inline(always)]
fn read_moment(at: MuxanduMoment) -> Result<Timestamp, Refused>
    ensures { result ≡ moment_value at }
{
    instant_at(read_timestamp(timestamp_of_moment(at))?, at.offset_seconds)
}

// The parts of an instant at an offset.
#[inline(always)]
fn moment_of(at: Timestamp, offset_seconds: i32) -> MuxanduMoment
    ensures { result ≡ moment_parts offset_seconds at }
{
    MuxanduMoment {
        seconds: at.as_seconds(),
        nanoseconds: at.nanosecond(),
        offset_seconds,
    }
}

// What the clocks of a moment show.
#[inline(always)]
pub(crate) fn date_time_of_moment(at: MuxanduMoment) -> Result<MuxanduDateTime, Refused>
    ensures { result ≡ date_time_of_moment at }
{
    date_time_from_timestamp(timestamp_of_moment(at), at.offset_seconds)
}

// The moment of a date-time.
#[inline(always)]
pub(crate) fn moment_of_date_time(date_time: MuxanduDateTime) -> Result<MuxanduMoment, Refused>
    ensures { result ≡ moment_of_date_time date_time }
{
    let at = read_date_time(date_time)?;
    let instant = instant_of_date_time(at, date_time.offset_seconds)?;
    Ok(moment_of(instant, date_time.offset_seconds))
}

// The same instant at another offset.
#[inline(always)]
pub(crate) fn moment_to_offset(
    at: MuxanduMoment,
    offset_seconds: i32,
) -> Result<MuxanduMoment, Refused>
    ensures { result ≡ moment_to_offset offset_seconds at }
{
    let instant = instant_at(read_moment(at)?, offset_seconds)?;
    Ok(moment_of(instant, offset_seconds))
}

// The instant of a second.
#[inline(always)]
fn at_second(second: i64) -> Timestamp
    requires { IsInstant (instant_of_second second) }
    ensures { result ≡ instant_of_second second }
{
    Timestamp::from_seconds(second).unwrap()
}

// An instant rounded down to a unit. Units of a second or more need no date.
#[tactic(auto, using(crate::proofs::UnitLemmas::whole_seconds))]
#[inline(always)]
fn wall_in_unit(wall: Timestamp, unit: Unit) -> Timestamp
    ensures { result ≡ wall_multiple_below (unit_nanos unit) wall }
{
    let second = wall.as_seconds();
    match unit {
        Unit::Day => at_second(second.div_euclid(86_400) * 86_400),
        Unit::Hour => at_second(second.div_euclid(3_600) * 3_600),
        Unit::Minute => at_second(second.div_euclid(60) * 60),
        Unit::Second => at_second(second),
        _ => Timestamp::from(utc_in_unit(wall.to_utc(), unit)),
    }
}

// The instant at which clocks at an offset show a wall clock rounded down to a unit, if the range
// has it. The wall clock is given as clocks in UTC show it.
#[tactic(auto, unfolding(offset_times::specs::Local::instant_of))]
#[inline(always)]
fn instant_in_unit(wall: Timestamp, offset_seconds: i32, unit: Unit) -> Result<Timestamp, Refused>
    ensures { result ≡ instant_if_any
        (instant_of (local_multiple_below (unit_nanos unit) (wall_at wall offset_seconds))) }
{
    checked_difference(wall_in_unit(wall, unit), seconds_of(offset_seconds))
}

// An instant rounded down to a unit, by clocks at an offset.
#[inline(always)]
fn instant_truncate(at: Timestamp, offset_seconds: i32, unit: u32) -> Result<Timestamp, Refused>
    ensures { result ≡ instant_truncate unit offset_seconds at }
{
    let offset_seconds = checked_offset(offset_seconds)?;
    let wall = shown_as_if_utc(at, offset_seconds)?;
    instant_in_unit(wall, offset_seconds, read_unit(unit)?)
}

// A moment rounded down to a unit, by its own clocks.
#[tactic(auto, using(crate::proofs::InsideMomentLemmas::rounded_moments))]
#[inline(always)]
pub(crate) fn moment_truncate(at: MuxanduMoment, unit: u32) -> Result<MuxanduMoment, Refused>
    ensures { result ≡ moment_truncate unit at }
{
    if is_inside(at) {
        match unit {
            1 => return Ok(rounded_down(at, 86_400)),
            2 => return Ok(rounded_down(at, 3_600)),
            3 => return Ok(rounded_down(at, 60)),
            4 => return Ok(rounded_down(at, 1)),
            5 => return Ok(with_nanoseconds_below(at, 1_000_000)),
            6 => return Ok(with_nanoseconds_below(at, 1_000)),
            7 => return Ok(with_nanoseconds_below(at, 1)),
            _ => {}
        }
    }
    multiple_below(at, unit)
}

// The same of each moment and each unit.
#[inline(always)]
fn multiple_below(at: MuxanduMoment, unit: u32) -> Result<MuxanduMoment, Refused>
    ensures { result ≡ moment_truncate unit at }
{
    let instant = read_timestamp(timestamp_of_moment(at))?;
    let low = instant_truncate(instant, at.offset_seconds, unit)?;
    Ok(moment_of(low, at.offset_seconds))
}

// The date of a date-time.
fn date_of_date_time(at: MuxanduDateTime) -> MuxanduDate
    ensures { result ≡ date_of_date_time at }
{
    MuxanduDate {
        year: at.year,
        month: at.month,
        day: at.day,
    }
}

// A date-time with another date.
fn on_date(at: MuxanduDateTime, date: MuxanduDate) -> MuxanduDateTime
    ensures { result ≡ on_date at date }
{
    MuxanduDateTime {
        year: date.year,
        month: date.month,
        day: date.day,
        hour: at.hour,
        minute: at.minute,
        second: at.second,
        nanosecond: at.nanosecond,
        offset_seconds: at.offset_seconds,
    }
}

// The same time of day a number of months later, by the clocks of the moment.
pub(crate) fn moment_add_months(at: MuxanduMoment, months: i32) -> Result<MuxanduMoment, Refused>
    ensures { result ≡ moment_add_months months at }
{
    let shown = date_time_of_moment(at)?;
    let date = date_add_months(date_of_date_time(shown), months)?;
    moment_of_date_time(on_date(shown, date))
}

// A moment plus a duration, at its offset.
#[tactic(auto, using(crate::proofs::InsideMomentLemmas::inside_calls))]
#[inline(always)]
pub(crate) fn moment_add(
    at: MuxanduMoment,
    duration: MuxanduDuration,
) -> Result<MuxanduMoment, Refused>
    ensures { result ≡ moment_add at duration }
{
    if is_inside(at) && is_short(duration) {
        let sum = later_by(at, duration.seconds, duration.nanoseconds);
        if is_inside(sum) {
            return Ok(sum);
        }
    }
    sum_of(at, duration)
}

// The same of each moment and each duration.
#[inline(always)]
fn sum_of(at: MuxanduMoment, duration: MuxanduDuration) -> Result<MuxanduMoment, Refused>
    ensures { result ≡ moment_add at duration }
{
    let sum = checked_sum(read_moment(at)?, read_duration(duration)?)?;
    Ok(moment_of(instant_at(sum, at.offset_seconds)?, at.offset_seconds))
}

// A moment minus a duration, at its offset.
#[tactic(auto, using(crate::proofs::InsideMomentLemmas::inside_calls))]
#[inline(always)]
pub(crate) fn moment_subtract(
    at: MuxanduMoment,
    duration: MuxanduDuration,
) -> Result<MuxanduMoment, Refused>
    ensures { result ≡ moment_subtract at duration }
{
    if is_inside(at) && is_short(duration) {
        let less = later_by(at, -duration.seconds, -duration.nanoseconds);
        if is_inside(less) {
            return Ok(less);
        }
    }
    less_of(at, duration)
}

// The same of each moment and each duration.
#[inline(always)]
fn less_of(at: MuxanduMoment, duration: MuxanduDuration) -> Result<MuxanduMoment, Refused>
    ensures { result ≡ moment_subtract at duration }
{
    let less = checked_difference(read_moment(at)?, read_duration(duration)?)?;
    Ok(moment_of(instant_at(less, at.offset_seconds)?, at.offset_seconds))
}

// The order of two moments by their instants: -1, 0 or 1.
#[tactic(auto, using(crate::proofs::InsideMomentLemmas::inside_calls))]
#[inline(always)]
pub(crate) fn moment_compare(first: MuxanduMoment, second: MuxanduMoment) -> Result<i32, Refused>
    ensures { result ≡ moment_compare first second }
{
    if is_inside(first) && is_inside(second) {
        return Ok(order_inside(first, second));
    }
    order_of(first, second)
}

// The same of each two moments.
#[inline(always)]
fn order_of(first: MuxanduMoment, second: MuxanduMoment) -> Result<i32, Refused>
    ensures { result ≡ moment_compare first second }
{
    let at = read_moment(first)?;
    Ok(sign(at.cmp(&read_moment(second)?)))
}

// The duration from the instant of the second moment to that of the first.
#[tactic(auto, using(crate::proofs::InsideMomentLemmas::inside_calls))]
#[inline(always)]
pub(crate) fn moment_difference(
    later: MuxanduMoment,
    earlier: MuxanduMoment,
) -> Result<MuxanduDuration, Refused>
    ensures { result ≡ moment_difference later earlier }
{
    if is_inside(later) && is_inside(earlier) {
        return Ok(difference_inside(later, earlier));
    }
    duration_between_moments(later, earlier)
}

// The same of each two moments.
#[inline(always)]
fn duration_between_moments(
    later: MuxanduMoment,
    earlier: MuxanduMoment,
) -> Result<MuxanduDuration, Refused>
    ensures { result ≡ moment_difference later earlier }
{
    let at = read_moment(later)?;
    Ok(duration_of(at - read_moment(earlier)?))
}
