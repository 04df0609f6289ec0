//! Days on which invoices are due.

ghost use Rattle.std.specs.Prelude.{◌≡◌, ◌≤◌, if◌then◌else◌, nat_lt, ◌==◌, ◌||◌, SomeIff, OkIff, IfErr, codes};
ghost use Rattle.calendar_values.specs.Calendar.{day_of_calendar_date, year_of, month_of, day_of_month_of};
ghost use Rattle.calendar_values.specs.Month.{month_number};
ghost use Rattle.calendar_values.specs.Range.{IsYear, IsDay};
ghost use Rattle.calendar_values.specs.Refusals.{IsDateOfRange, date_refusal, outright_refusal};
ghost use Rattle.calendar_values.specs.Months.{last_of_month};
ghost use Rattle.uses.specs.Months as months;

use calendar_values::{ComponentRange, Date, Month, days_in_month};

/// The last day of the date's month.
pub fn last_day_of_month(date: Date) -> Date
    ensures { result ≡ last_of_month date }
{
    date.last_of_month()
}

/// The day of a month, or the month's last day where it is shorter. Refused `year` outside the
/// range.
pub fn day_or_last(year: i32, month: Month, day: u8) -> Result<Date, ComponentRange>
    requires first { 1 ≤ day }
    ensures refused { IfErr result (λ refusal. refusal ≡ outright_refusal (codes "year")) }
    ensures value { OkIff result (IsYear year) (months.day_or_last year (month_number month) day) }
{
    Date::from_calendar_date(year, month, day.min(days_in_month(year, month)))
}

/// The same day of the next month, or its last day where it is shorter. None in the last month of
/// the range.
pub fn due_next_month(date: Date) -> Option<Date>
    ensures { let first = months.first_of_next_month date in
        SomeIff result (IsDay first) (months.day_or_last (year_of first) (month_of first)
        (day_of_month_of date)) }
{
    let first = last_day_of_month(date).next_day()?;
    day_or_last(first.year(), first.month(), date.day()).ok()
}

/// The date of three numbers of a form. Refused `month`, else `year`, else `day`.
pub fn date_of_form(year: i32, month: u8, day: u8) -> Result<Date, ComponentRange>
    ensures value { OkIff result (((1 ≤ month) × (month ≤ 12)) × IsDateOfRange year month day)
        (day_of_calendar_date year month day) }
    ensures refused { IfErr result (λ refusal. refusal ≡
        (if month == 0 || nat_lt 12 month then outright_refusal
        (codes "month") else date_refusal year day)) }
{
    Date::from_calendar_date(year, Month::from_number(month)?, day)
}
