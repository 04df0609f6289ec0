//! The instant of the parts of a stamp.
ghost use Rattle.std.specs.Prelude.{◌≡◌, ℤ, pos, ◌+ℤ◌, ◌-ℤ◌, OkIff, IfOk};
ghost use Rattle.calendar_values.specs.Offsets.{IsOffset};
ghost use Rattle.format_descriptions.specs.Values.{date_of_parts};
ghost use Rattle.log_forms.specs.Instants.{assumed_year, has_count, instant_of_parts, is_whole, lacks_year, offset_known};
ghost use Rattle.log_forms.specs.Instants.{utc_instant, with_year, year_of_month};

use calendar_values::{Date, Time, UtcOffset};
use format_descriptions::{Field, Parts, ValueRefusal};
use offset_times::Assume;
use plain_times::PlainDateTime;
use utc_times::UtcDateTime;

/// The parts that are assumed where a form does not have them.
#[derive(Clone, Copy, Debug)]
pub struct Assumed {
    /// The offset.
    pub offset: Option<UtcOffset>,
    /// The year of the stamp before, or of the first stamp.
    pub year: Option<i32>,
    /// The month of the stamp before, or 0 for the first stamp.
    pub month: u32,
}

// The instant of the parts of a stamp.
#[tactic(auto, unfolding(crate::specs::Instants::instant_of_parts))]
pub(crate) fn instant_of_parts(
    assumed: &Assumed,
    parts: &Parts,
) -> Result<UtcDateTime, ValueRefusal>
    ensures { result ≡ instant_of_parts assumed.now parts.now }
{
    if has_count(parts) {
        return parts.utc_date_time();
    }
    let date = match date_known(assumed, parts) {
        Ok(date) => date,
        Err(refusal) => return Err(refusal),
    };
    let time = match parts.time() {
        Ok(time) => time,
        Err(refusal) => return Err(refusal),
    };
    match offset_known(assumed, parts) {
        Ok(offset) => utc_instant(date, time, offset),
        Err(refusal) => Err(refusal),
    }
}

// Whether the parts have an offset, or a count of a Unix timestamp.
pub(crate) fn is_whole(parts: &Parts) -> bool
    ensures { result ≡ is_whole parts.now }
{
    parts.offset_hour.is_some() | has_count(parts)
}

// Whether the parts have a count of a Unix timestamp.
pub(crate) fn has_count(parts: &Parts) -> bool
    ensures { result ≡ has_count parts.now }
{
    parts.unix_second.is_some()
        | parts.unix_millisecond.is_some()
        | parts.unix_microsecond.is_some()
        | parts.unix_nanosecond.is_some()
}

// The date of the parts, in the assumed year if they have none.
#[tactic(auto, unfolding(crate::specs::Instants::with_year))]
fn date_known(assumed: &Assumed, parts: &Parts) -> Result<Date, ValueRefusal>
    ensures { result ≡ date_of_parts (with_year assumed.now parts.now) }
{
    if !lacks_year(parts) {
        return parts.date();
    }
    let dated = Parts {
        year: assumed_year(assumed, parts.month),
        ..*parts
    };
    dated.date()
}

// Whether the parts have no year.
pub(crate) fn lacks_year(parts: &Parts) -> bool
    ensures { result ≡ lacks_year parts.now }
{
    parts.year.is_none()
        & parts.year_century.is_none()
        & parts.iso_year.is_none()
        & parts.iso_year_century.is_none()
}

// The assumed year of a stamp in a month.
fn assumed_year(assumed: &Assumed, month: Option<u32>) -> Option<i32>
    ensures { result ≡ assumed_year assumed.now month }
{
    match (assumed.year, month) {
        (Some(year), Some(month)) => Some(year_of_month(year, assumed.month, month)),
        (year, _) => year,
    }
}

// The year of a stamp in a month, by the year and the month of the stamp before.
fn year_of_month(year: i32, before: u32, month: u32) -> i32
    ensures { result ≡ year_of_month year before month }
{
    if month < before.saturating_sub(6) && year < 999_999 {
        return year + 1;
    }
    if 0 < before && before < month.saturating_sub(6) && year > -999_999 {
        return year - 1;
    }
    year
}

// The offset of the parts, or the assumed one.
fn offset_known(assumed: &Assumed, parts: &Parts) -> Result<UtcOffset, ValueRefusal>
    ensures { result ≡ offset_known assumed.now parts.now }
{
    match parts.offset_hour {
        Some(hour) => {
            if hour > 23 {
                return Err(ValueRefusal::Wrong(Field::OffsetHour));
            }
            parts.offset()
        }
        None => match assumed.offset {
            Some(offset) => Ok(offset),
            None => Err(ValueRefusal::Missing(Field::OffsetHour)),
        },
    }
}

// The instant of a date, a time of day and an offset.
fn utc_instant(date: Date, time: Time, offset: UtcOffset) -> Result<UtcDateTime, ValueRefusal>
    ensures { result ≡ utc_instant date time offset }
{
    match PlainDateTime::new(date, time)
        .assume_offset(offset)
        .checked_to_utc()
    {
        Some(instant) => Ok(instant),
        None => Err(ValueRefusal::Wrong(Field::Year)),
    }
}
