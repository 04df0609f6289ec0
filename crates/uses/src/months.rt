//! Days that come each month or each year: a month that is too short has its last day in their
//! place.

ghost use Rattle.std.specs.Prelude.{◌≡◌, ◌≤◌, ◌<◌, ◌+◌, ◌+ℤ◌, ◌-ℤ◌, pos, min, IfOk, IfSome, IfNone, OkIff, SomeIff, neg_ℤ, ◌≤ℤ◌, ◌<ℤ◌, IfErr, IsOk, codes, ◌↔◌};
ghost use Rattle.calendar_values.specs.Calendar.{days_in_month, is_leap_year, year_of, month_of, day_of_month_of};
ghost use Rattle.calendar_values.specs.Month.{month_number};
ghost use Rattle.calendar_values.specs.Range.{IsYear, IsDay, SomeDay};
ghost use Rattle.calendar_values.specs.Months.{last_of_month, month_index, first_of_month, months_later};
ghost use Rattle.calendar_values.specs.Refusals.{outright_refusal};
ghost use Rattle.uses.specs.Months as months;

use crate::invoices::{day_or_last, last_day_of_month};
use calendar_values::{ComponentRange, Date, Month, days_in_month};

/// The day on which a contract is billed in a month. Refused `year` outside the range.
pub fn billing_day(year: i32, month: Month, day: u8) -> Result<Date, ComponentRange>
    requires { 1 ≤ day }
    ensures refused { IfErr result (λ refusal. refusal ≡ outright_refusal (codes "year")) }
    ensures value { OkIff result (IsYear year)
        (months.day_or_last year (month_number month) day) }
    ensures year { IfOk result (λ due. year_of due ≡ year) }
    ensures month { IfOk result (λ due. month_of due ≡ month_number month) }
    ensures day { IfOk result (λ due. day_of_month_of due ≡
        min day (days_in_month (is_leap_year year) (month_number month))) }
{
    day_or_last(year, month, day)
}

/// The year after that of the date.
pub fn year_after(date: Date) -> i32
    ensures { result ≡ year_of date +ℤ pos 1 }
{
    date.year() + 1
}

/// The same day of the next year; for 29 February its 28th where that year has none. None past the
/// range.
pub fn a_year_later(date: Date) -> Option<Date>
    ensures value { let y = year_of date +ℤ pos 1 in
        SomeIff result (IsYear y) (months.day_or_last y (month_of date) (day_of_month_of date)) }
    ensures year { IfSome result (λ later. year_of later ≡ year_of date +ℤ pos 1) }
    ensures month { IfSome result (λ later. month_of later ≡ month_of date) }
{
    match billing_day(date.year() + 1, date.month(), date.day()) {
        Ok(later) => Some(later),
        Err(_) => None,
    }
}

/// The same, by the number of days of that month. Refused `year` past the range.
pub fn same_day_next_year(date: Date) -> Result<Date, ComponentRange>
    ensures value { let y = year_of date +ℤ pos 1 in
        OkIff result (IsYear y) (months.day_or_last y (month_of date) (day_of_month_of date)) }
    ensures refused { IfErr result (λ refusal. refusal ≡ outright_refusal (codes "year")) }
    ensures year { IfOk result (λ later. year_of later ≡ year_of date +ℤ pos 1) }
    ensures month { IfOk result (λ later. month_of later ≡ month_of date) }
{
    let year = date.year() + 1;
    let day = date.day().min(days_in_month(year, date.month()));
    match Date::from_calendar_date(year, date.month(), day) {
        Ok(later) => Ok(later),
        Err(_) => Err(ComponentRange::new("year", false)),
    }
}

/// The same. None past the range.
pub fn next_anniversary(date: Date) -> Option<Date>
    ensures value { let y = year_of date +ℤ pos 1 in
        SomeIff result (IsYear y) (months.day_or_last y (month_of date) (day_of_month_of date)) }
    ensures year { IfSome result (λ later. year_of later ≡ year_of date +ℤ pos 1) }
    ensures month { IfSome result (λ later. month_of later ≡ month_of date) }
{
    let year = date.year() + 1;
    let day = date.day().min(days_in_month(year, date.month()));
    match Date::from_calendar_date(year, date.month(), day) {
        Ok(later) => Some(later),
        Err(_) => None,
    }
}

/// The first day of the next month. None in the last month of the range.
pub fn next_month(date: Date) -> Option<Date>
    ensures value { SomeDay result (months.first_of_next_month date) }
    ensures month { IfSome result (λ first. month_index first ≡ month_index date +ℤ pos 1) }
    ensures first { IfSome result (λ first. day_of_month_of first ≡ 1) }
{
    last_day_of_month(date).next_day()
}

/// The day of the month that a date is in, or the month's last day where it is shorter.
pub fn day_in_month_of(date: Date, day: u8) -> Date
    requires { 1 ≤ day }
    ensures value { result ≡ months.day_or_last (year_of date) (month_of date) day }
    ensures year { year_of result ≡ year_of date }
    ensures month { month_of result ≡ month_of date }
    ensures day { day_of_month_of result ≡
        min day (days_in_month (is_leap_year (year_of date)) (month_of date)) }
{
    date.replace_day(day.min(days_in_month(date.year(), date.month())))
        .unwrap()
}

/// The same day of the next month, or its last day where it is shorter. None in the last month of
/// the range.
pub fn a_month_later(date: Date) -> Option<Date>
    ensures value { let first = months.first_of_next_month date in
        SomeIff result (IsDay first) (months.day_or_last (year_of first) (month_of first)
        (day_of_month_of date)) }
    ensures month { IfSome result (λ later. month_index later ≡ month_index date +ℤ pos 1) }
    ensures day { IfSome result (λ later. day_of_month_of later ≡ min (day_of_month_of date)
        (days_in_month (is_leap_year (year_of later)) (month_of later))) }
{
    let first = next_month(date)?;
    Some(day_in_month_of(first, date.day()))
}

/// The same day a number of months later, or the last of a month that is shorter. None outside the
/// range.
pub fn renewal(date: Date, months: i32) -> Option<Date>
    ensures value { SomeDay result (months_later date months) }
    ensures month { IfSome result (λ later. month_index later ≡ month_index date +ℤ months) }
    ensures same_day { IfSome result (λ later. day_of_month_of date ≤ 28 →
        day_of_month_of later ≡ day_of_month_of date) }
{
    Some(date.checked_add_months(months)?)
}

/// The last day of the month before. None in the first month of the range.
pub fn end_of_last_month(date: Date) -> Option<Date>
    ensures value { SomeDay result (first_of_month date -ℤ pos 1) }
    ensures before { IfSome result (λ end. end <ℤ date) }
{
    Some(date.first_of_month().previous_day()?)
}

/// How many days of its month follow the date.
pub fn days_left_in_month(date: Date) -> i32
    ensures value { result ≡ last_of_month date -ℤ date }
    ensures not_negative { pos 0 ≤ℤ result }
{
    date.last_of_month().to_julian_day() - date.to_julian_day()
}

/// The month after that of the date, in the same year. None after December.
pub fn month_after(date: Date) -> Option<Month>
    ensures next { IfSome result (λ next. month_number next ≡ month_of date + 1) }
    ensures in_the_year { IfSome result (λ _. month_of date < 12) }
    ensures december { IfNone result (month_of date ≡ 12) }
{
    Month::from_number(u8::from(date.month()) + 1).ok()
}

/// The same day of the next month, or its last day, by the number of the month: the 13th is
/// January. Refused `year` past the range.
pub fn same_day_next_month(date: Date) -> Result<Date, ComponentRange>
    ensures within_the_year { month_of date < 12 → IsOk result }
    ensures after_december { month_of date ≡ 12 → IsOk result ↔ IsYear (year_of date +ℤ pos 1) }
    ensures refused { IfErr result (λ refusal. refusal ≡ outright_refusal (codes "year")) }
    ensures value { IfOk result (λ due. due ≡
        months.same_day_or_last (year_of date) (month_of date + 1) (day_of_month_of date)) }
{
    match month_after(date) {
        Some(next) => day_or_last(date.year(), next, date.day()),
        None => day_or_last(year_after(date), Month::January, date.day()),
    }
}

/// The number of the month of a date, counted from January of the year 0.
pub fn month_number_from_year_0(date: Date) -> i32
    ensures value { result ≡ month_index date }
    ensures not_below { neg_ℤ (pos 13_000_000) ≤ℤ result }
    ensures not_above { result ≤ℤ pos 13_000_000 }
{
    date.year() * 12 + i32::from(u8::from(date.month())) - 1
}

/// How many months the second date is after the first, whatever the days are.
pub fn months_between(first: Date, second: Date) -> i32
    ensures { result ≡ month_index second -ℤ month_index first }
{
    (second.year() * 12 + i32::from(u8::from(second.month())))
        - (first.year() * 12 + i32::from(u8::from(first.month())))
}

/// The same by the years between the two and the months between theirs.
pub fn months_of_years_between(first: Date, second: Date) -> i32
    ensures { result ≡ month_index second -ℤ month_index first }
{
    (second.year() - first.year()) * 12
        + (i32::from(u8::from(second.month())) - i32::from(u8::from(first.month())))
}

/// The last day of the month of a date: in that month, with its last number, and not before the
/// date.
pub fn month_end(date: Date) -> Date
    ensures month { month_of result ≡ month_of date }
    ensures day { day_of_month_of result ≡
        days_in_month (is_leap_year (year_of date)) (month_of date) }
    ensures not_before { date ≤ℤ result }
{
    last_day_of_month(date)
}
