//! Dates a number of days or months later.
ghost use Rattle.std.specs.Prelude.{◌≡◌, ◌+ℤ◌};
ghost use Rattle.muxandu_c.specs.Answers.{Answers};
ghost use Rattle.muxandu_c.specs.Values.{day_if_any};
ghost use Rattle.muxandu_c.specs.DateSums.{date_add_days, date_add_months};
ghost use Rattle.muxandu_c.specs.DateSums.{month_index, year_of_index, month_of_index, day_or_last, year_if_any, in_month, months_later};

use crate::days::days_in_month;
use crate::limits::{MUXANDU_YEAR_MAX, MUXANDU_YEAR_MIN};
use crate::parts::{date_parts_of, read_date};
use crate::refused::{MuxanduStatus, Refused, answer};
use crate::values::MuxanduDate;
use calendar_values::Date;

// The date a number of days later, if the range has it.
fn days_later(date: Date, days: i32) -> Result<Date, Refused>
    ensures { result ≡ day_if_any (date +ℤ days) }
{
    match date.checked_add_days(i64::from(days)) {
        Some(sum) => Ok(sum),
        None => Err(Refused::Result),
    }
}

fn date_add_days(date: MuxanduDate, days: i32) -> Result<MuxanduDate, Refused>
    ensures { result ≡ date_add_days date days }
{
    let date = read_date(date.year, date.month, date.day)?;
    Ok(date_parts_of(days_later(date, days)?))
}

/// The date that is a number of days later, or earlier if it is negative. Errors, in this order:
/// those of the date, RESULT if out of range.
#[unsafe(no_mangle)]
pub extern "C" fn muxandu_date_add_days(
    date: MuxanduDate,
    days: i32,
    out: &mut MuxanduDate,
) -> MuxanduStatus
    ensures { Answers result out.old out.new (date_add_days date days) }
{
    answer(date_add_days(date, days), out)
}

// The months from January of the year 0 to a month of a year.
fn month_index(year: i32, month: u8) -> i64
    ensures { result ≡ month_index year month }
{
    year as i64 * 12 + month as i64 - 1
}

// The number of the month at a number of months from January of the year 0.
fn month_of_index(index: i64) -> u8
    ensures { result ≡ month_of_index index }
{
    (index.rem_euclid(12) + 1) as u8
}

// Its year.
fn year_of_index(index: i64) -> i64
    ensures { result ≡ year_of_index index }
{
    index.div_euclid(12)
}

// A year, if the range has it.
fn year_if_any(year: i64) -> Result<i32, Refused>
    ensures { result ≡ year_if_any year }
{
    if year < MUXANDU_YEAR_MIN as i64 || year > MUXANDU_YEAR_MAX as i64 {
        return Err(Refused::Result);
    }
    Ok(year as i32)
}

// The day of a month, or the month's last day where it is shorter.
fn day_or_last(year: i32, month: u8, day: u8) -> Result<MuxanduDate, Refused>
    ensures { result ≡ day_or_last year month day }
{
    let length = days_in_month(year, month)?;
    Ok(MuxanduDate {
        year,
        month,
        day: day.min(length),
    })
}

// The same of the month at a number of months from January of the year 0, if the range has its year.
fn in_month(index: i64, day: u8) -> Result<MuxanduDate, Refused>
    ensures { result ≡ in_month index day }
{
    let year = year_if_any(year_of_index(index))?;
    day_or_last(year, month_of_index(index), day)
}

// The same day of the month a number of months later, of parts that make a date.
fn months_later(date: MuxanduDate, months: i32) -> Result<MuxanduDate, Refused>
    ensures { result ≡ months_later date months }
{
    in_month(month_index(date.year, date.month) + months as i64, date.day)
}

pub(crate) fn date_add_months(date: MuxanduDate, months: i32) -> Result<MuxanduDate, Refused>
    ensures { result ≡ date_add_months date months }
{
    match read_date(date.year, date.month, date.day) {
        Ok(_) => months_later(date, months),
        Err(refused) => Err(refused),
    }
}

/// The same day of the month a number of months later, or earlier if it is negative; in a shorter
/// month its last day. Errors, in this order: those of the date, RESULT if out of range.
#[unsafe(no_mangle)]
pub extern "C" fn muxandu_date_add_months(
    date: MuxanduDate,
    months: i32,
    out: &mut MuxanduDate,
) -> MuxanduStatus
    ensures { Answers result out.old out.new (date_add_months date months) }
{
    answer(date_add_months(date, months), out)
}
