//! Date-times and instants with one part replaced.
ghost use Rattle.std.specs.Prelude.{◌≡◌, ◌≤◌, IfOk};
ghost use Rattle.calendar_values.specs.Month.{month_number};
ghost use Rattle.plain_times.specs.Replacements.{wall_month_outcome};
ghost use Rattle.muxandu_c.specs.Answers.{Answers, as_refused};
ghost use Rattle.muxandu_c.specs.PartsReplaced.{part_numbered, unsigned_part, with_part, date_time_replace, timestamp_replace};
ghost use Rattle.muxandu_c.specs.declared.replacements.Part.TheVariants as part;

use crate::parts::{date_time_of, read_date_time, read_timestamp, timestamp_of};
use crate::refused::{MuxanduStatus, Refused, answer};
use crate::values::{MuxanduDateTime, MuxanduTimestamp};
use calendar_values::Month;
use plain_times::PlainDateTime;
use stamp_times::Timestamp;
use utc_times::AsUtc;

/// The number of a part of a date-time.
pub type MuxanduPart = u32;

/// A part of a date-time. A call takes its number.
#[derive(Clone, Copy, Drop)]
pub enum Part {
    /// The year, -999999 to 999999.
    Year = 1,
    /// The month, 1 to 12.
    Month = 2,
    /// The day of the month, 1 to 31.
    Day = 3,
    /// The day of the year, 1 to 366.
    Ordinal = 4,
    /// The hour, 0 to 23.
    Hour = 5,
    /// The minute, 0 to 59.
    Minute = 6,
    /// The second, 0 to 59.
    Second = 7,
    /// The nanosecond of the second, 0 to 999999999.
    Nanosecond = 8,
}

// The part of a number.
fn read_part(number: u32) -> Result<Part, Refused>
    ensures { result ≡ part_numbered number }
{
    match number {
        1 => Ok(Part::Year),
        2 => Ok(Part::Month),
        3 => Ok(Part::Day),
        4 => Ok(Part::Ordinal),
        5 => Ok(Part::Hour),
        6 => Ok(Part::Minute),
        7 => Ok(Part::Second),
        8 => Ok(Part::Nanosecond),
        _ => Err(Refused::Unit),
    }
}

// The number of a part that has no sign, up to a limit.
fn unsigned_part(value: i32, limit: u32, refused: Refused) -> Result<u32, Refused>
    ensures value { result ≡ unsigned_part value limit refused }
    ensures limit { IfOk result (λ part. part ≤ limit) }
{
    if value < 0 || value as u32 > limit {
        return Err(refused);
    }
    Ok(value as u32)
}

// The date and the time of day with a part replaced.
fn with_part(at: PlainDateTime, part: Part, value: i32) -> Result<PlainDateTime, Refused>
    ensures { result ≡ with_part at part value }
{
    match part {
        Part::Year => Ok(at.replace_year(value)?),
        Part::Month => with_month(at, value),
        Part::Day => with_day(at, value),
        Part::Ordinal => with_ordinal(at, value),
        Part::Hour => with_hour(at, value),
        Part::Minute => with_minute(at, value),
        Part::Second => with_second(at, value),
        Part::Nanosecond => with_nanosecond(at, value),
    }
}

fn with_month(at: PlainDateTime, value: i32) -> Result<PlainDateTime, Refused>
    ensures { result ≡ with_part at part.Month value }
{
    let number = unsigned_part(value, 12, Refused::Month)? as u8;
    match Month::from_number(number) {
        Ok(month) => in_month(at, month),
        Err(_) => Err(Refused::Month),
    }
}

fn in_month(at: PlainDateTime, month: Month) -> Result<PlainDateTime, Refused>
    ensures { result ≡ as_refused (wall_month_outcome at (month_number month)).answer }
{
    Ok(at.replace_month(month)?)
}

fn with_day(at: PlainDateTime, value: i32) -> Result<PlainDateTime, Refused>
    ensures { result ≡ with_part at part.Day value }
{
    let day = unsigned_part(value, 31, Refused::Day)? as u8;
    Ok(at.replace_day(day)?)
}

fn with_ordinal(at: PlainDateTime, value: i32) -> Result<PlainDateTime, Refused>
    ensures { result ≡ with_part at part.Ordinal value }
{
    let ordinal = unsigned_part(value, 366, Refused::Ordinal)? as u16;
    Ok(at.replace_ordinal(ordinal)?)
}

fn with_hour(at: PlainDateTime, value: i32) -> Result<PlainDateTime, Refused>
    ensures { result ≡ with_part at part.Hour value }
{
    let hour = unsigned_part(value, 23, Refused::Hour)? as u8;
    Ok(at.replace_hour(hour)?)
}

fn with_minute(at: PlainDateTime, value: i32) -> Result<PlainDateTime, Refused>
    ensures { result ≡ with_part at part.Minute value }
{
    let minute = unsigned_part(value, 59, Refused::Minute)? as u8;
    Ok(at.replace_minute(minute)?)
}

fn with_second(at: PlainDateTime, value: i32) -> Result<PlainDateTime, Refused>
    ensures { result ≡ with_part at part.Second value }
{
    let second = unsigned_part(value, 59, Refused::Second)? as u8;
    Ok(at.replace_second(second)?)
}

fn with_nanosecond(at: PlainDateTime, value: i32) -> Result<PlainDateTime, Refused>
    ensures { result ≡ with_part at part.Nanosecond value }
{
    let nanosecond = unsigned_part(value, 999_999_999, Refused::Nanosecond)?;
    Ok(at.replace_nanosecond(nanosecond)?)
}

fn date_time_replace(
    date_time: MuxanduDateTime,
    part: u32,
    value: i32,
) -> Result<MuxanduDateTime, Refused>
    ensures { result ≡ date_time_replace date_time part value }
{
    let at = read_date_time(date_time)?;
    let wall = with_part(at.date_time(), read_part(part)?, value)?;
    Ok(date_time_of(at.replace_date_time(wall)))
}

/// The date-time with one part replaced. It keeps the other parts and the offset; a day of the year
/// replaces the month and the day. Errors, in this order: those of the date-time, UNIT if `part` is
/// no number of a part, YEAR, MONTH, DAY, DAY_OF_MONTH, ORDINAL, ORDINAL_OF_YEAR, HOUR, MINUTE,
/// SECOND, NANOSECOND.
#[unsafe(no_mangle)]
pub extern "C" fn muxandu_date_time_replace(
    date_time: MuxanduDateTime,
    part: MuxanduPart,
    value: i32,
    out: &mut MuxanduDateTime,
) -> MuxanduStatus
    ensures { Answers result out.old out.new (date_time_replace date_time part value) }
{
    answer(date_time_replace(date_time, part, value), out)
}

fn timestamp_replace(
    at: MuxanduTimestamp,
    part: u32,
    value: i32,
) -> Result<MuxanduTimestamp, Refused>
    ensures { result ≡ timestamp_replace at part value }
{
    let at = read_timestamp(at)?.to_utc().as_plain();
    let wall = with_part(at, read_part(part)?, value)?;
    Ok(timestamp_of(Timestamp::from(wall.as_utc())))
}

/// The instant with one part of its date or time in UTC replaced, as muxandu_date_time_replace
/// does. Errors, in this order: those of the timestamp, those of that call.
#[unsafe(no_mangle)]
pub extern "C" fn muxandu_timestamp_replace(
    at: MuxanduTimestamp,
    part: MuxanduPart,
    value: i32,
    out: &mut MuxanduTimestamp,
) -> MuxanduStatus
    ensures { Answers result out.old out.new (timestamp_replace at part value) }
{
    answer(timestamp_replace(at, part, value), out)
}
