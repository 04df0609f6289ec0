//! Day numbers, 0 on 1970-01-01, and their dates.
ghost use Rattle.std.specs.Prelude.{◌≡◌, IfOk, Ok};
ghost use Rattle.calendar_values.specs.Range.{IsDay};
ghost use Rattle.calendar_values.specs.Weeks.{weekday_of};
ghost use Rattle.muxandu_c.specs.Answers.{Answers};
ghost use Rattle.muxandu_c.specs.Values.{date_from_day, day_from_date};
ghost use Rattle.muxandu_c.specs.Values.{ordinal_date_from_day, day_from_ordinal_date};
ghost use Rattle.muxandu_c.specs.Values.{weekday_from_day, length_of_month};
ghost use Rattle.muxandu_c.specs.WeekDates.{week_date_from_day, day_from_week_date, refused_with_weekday};

use crate::parts::{date_of, day_of, read_date, read_day};
use crate::refused::{MuxanduStatus, Refused, answer};
use crate::values::{MuxanduDate, MuxanduOrdinalDate, MuxanduWeekDate};
use calendar_values::{Date, Month, Weekday};

#[inline(always)]
pub(crate) fn date_from_day(day: i32) -> Result<MuxanduDate, Refused>
    ensures { result ≡ date_from_day day }
{
    read_day(day)?;
    Ok(date_of(day))
}

/// The date of a day number. Errors: DAY_NUMBER.
#[unsafe(no_mangle)]
pub extern "C" fn muxandu_date_from_day(day: i32, out: &mut MuxanduDate) -> MuxanduStatus
    ensures { Answers result out.old out.new (date_from_day day) }
{
    answer(date_from_day(day), out)
}

#[inline(always)]
pub(crate) fn day_from_date(date: MuxanduDate) -> Result<i32, Refused>
    ensures { result ≡ day_from_date date }
{
    Ok(day_of(read_date(date.year, date.month, date.day)?))
}

/// The day number of a date. Errors, in this order: MONTH, YEAR, DAY, DAY_OF_MONTH.
#[unsafe(no_mangle)]
pub extern "C" fn muxandu_day_from_date(date: MuxanduDate, out: &mut i32) -> MuxanduStatus
    ensures { Answers result out.old out.new (day_from_date date) }
{
    answer(day_from_date(date), out)
}

fn ordinal_date_from_day(day: i32) -> Result<MuxanduOrdinalDate, Refused>
    ensures { result ≡ ordinal_date_from_day day }
{
    let (year, ordinal) = read_day(day)?.to_ordinal_date();
    Ok(MuxanduOrdinalDate { year, ordinal })
}

/// The year and the day of the year of a day number. Errors: DAY_NUMBER.
#[unsafe(no_mangle)]
pub extern "C" fn muxandu_ordinal_date_from_day(
    day: i32,
    out: &mut MuxanduOrdinalDate,
) -> MuxanduStatus
    ensures { Answers result out.old out.new (ordinal_date_from_day day) }
{
    answer(ordinal_date_from_day(day), out)
}

fn day_from_ordinal_date(date: MuxanduOrdinalDate) -> Result<i32, Refused>
    ensures { result ≡ day_from_ordinal_date date }
{
    Ok(day_of(Date::from_ordinal_date(date.year, date.ordinal)?))
}

/// The day number of a day of a year. Errors, in this order: YEAR, ORDINAL, ORDINAL_OF_YEAR.
#[unsafe(no_mangle)]
pub extern "C" fn muxandu_day_from_ordinal_date(
    date: MuxanduOrdinalDate,
    out: &mut i32,
) -> MuxanduStatus
    ensures { Answers result out.old out.new (day_from_ordinal_date date) }
{
    answer(day_from_ordinal_date(date), out)
}

fn week_date_from_day(day: i32) -> Result<MuxanduWeekDate, Refused>
    ensures { result ≡ week_date_from_day day }
{
    let (year, week, weekday) = read_day(day)?.to_iso_week_date();
    Ok(MuxanduWeekDate {
        year,
        week,
        weekday: weekday.number_days_from_monday(),
    })
}

/// The ISO year, the ISO week and the day of the week of a day number. muxandu_day_from_week_date
/// is the inverse. Errors: DAY_NUMBER.
#[unsafe(no_mangle)]
pub extern "C" fn muxandu_week_date_from_day(day: i32, out: &mut MuxanduWeekDate) -> MuxanduStatus
    ensures answers { Answers result out.old out.new (week_date_from_day day) }
    ensures reads_back { IfOk (week_date_from_day day) (λ date. day_from_week_date date ≡ Ok day) }
{
    answer(week_date_from_day(day), out)
}

fn day_from_week_date(date: MuxanduWeekDate) -> Result<i32, Refused>
    ensures { result ≡ day_from_week_date date }
{
    match Weekday::from_number_days_from_monday(date.weekday) {
        Some(weekday) => Ok(day_of(Date::from_iso_week_date(date.year, date.week, weekday)?)),
        None => Err(refused_with_weekday(date.year, date.week)),
    }
}

// What is refused with a day of the week above 6: the year or the week, where no other day of the week has them accepted, and
// else that day.
fn refused_with_weekday(year: i32, week: u8) -> Refused
    ensures { result ≡ refused_with_weekday year week }
{
    match Date::from_iso_week_date(year, week, Weekday::Monday) {
        Ok(_) => Refused::Weekday,
        Err(refusal) if refusal.is_conditional() => Refused::Weekday,
        Err(refusal) => Refused::from(refusal),
    }
}

/// The day number of an ISO week date. Errors, in this order: YEAR, WEEK, WEEKDAY, WEEK_OF_YEAR,
/// RESULT for the two days of the last week past the range.
#[unsafe(no_mangle)]
pub extern "C" fn muxandu_day_from_week_date(date: MuxanduWeekDate, out: &mut i32) -> MuxanduStatus
    ensures answers { Answers result out.old out.new (day_from_week_date date) }
    ensures reads_back { IfOk (day_from_week_date date) (λ day. week_date_from_day day ≡ Ok date) }
{
    answer(day_from_week_date(date), out)
}

// The day of the week of a day number.
#[tactic(auto, using(crate::proofs::WeekDateLemmas::weekday_parts))]
fn weekday_of(day: i32) -> u8
    requires { IsDay day }
    ensures { result ≡ weekday_of day }
{
    (day + 3).rem_euclid(7) as u8
}

fn weekday_from_day(day: i32) -> Result<u8, Refused>
    ensures { result ≡ weekday_from_day day }
{
    read_day(day)?;
    Ok(weekday_of(day))
}

/// The day of the week of a day number, 0 for Monday to 6 for Sunday. Errors: DAY_NUMBER.
#[unsafe(no_mangle)]
pub extern "C" fn muxandu_weekday_from_day(day: i32, out: &mut u8) -> MuxanduStatus
    ensures { Answers result out.old out.new (weekday_from_day day) }
{
    answer(weekday_from_day(day), out)
}

pub(crate) fn days_in_month(year: i32, month: u8) -> Result<u8, Refused>
    ensures { result ≡ length_of_month year month }
{
    let month = Month::from_number(month)?;
    Date::from_calendar_date(year, month, 1)?;
    Ok(calendar_values::days_in_month(year, month))
}

fn length_of_month(year: i32, month: u32) -> Result<u8, Refused>
    ensures { result ≡ length_of_month year month }
{
    if month > 12 {
        return Err(Refused::Month);
    }
    days_in_month(year, month as u8)
}

/// The number of days in a month of a year, 28 to 31. Errors, in this order: MONTH, YEAR.
#[unsafe(no_mangle)]
pub extern "C" fn muxandu_days_in_month(year: i32, month: u32, out: &mut u8) -> MuxanduStatus
    ensures { Answers result out.old out.new (length_of_month year month) }
{
    answer(length_of_month(year, month), out)
}
