//! Months that are billed, by the clocks of the customer.

ghost use Rattle.std.specs.Prelude.{◌≡◌, ◌<◌, ◌≤◌, ◌+◌, ◌+ℤ◌, pos, IfOk, IfSome, SomeIff, IsOk, IfErr, OkIff, codes};
ghost use Rattle.calendar_values.specs.Calendar.{days_in_month, is_leap_year, year_of, month_of, day_of_month_of, day_of_calendar_date};
ghost use Rattle.calendar_values.specs.Month.{month_number};
ghost use Rattle.calendar_values.specs.Months.{last_of_month};
ghost use Rattle.calendar_values.specs.Range.{IsDay, IsYear};
ghost use Rattle.calendar_values.specs.Refusals.{outright_refusal};
ghost use Rattle.calendar_values.specs.WallClock.{wall_day, wall_time};
ghost use Rattle.uses.specs.Months as months;

use crate::invoices::{day_or_last, last_day_of_month};
use calendar_values::{ComponentRange, Date, Month, Time, days_in_month};
use offset_times::OffsetDateTime;

/// The midnight with which the month begins where the customer is.
pub fn period_start(at: OffsetDateTime) -> Result<OffsetDateTime, ComponentRange>
    ensures never_refused { IsOk result }
    ensures offset { IfOk result (λ start. start.offset ≡ at.offset) }
    ensures midnight { IfOk result (λ start. wall_time start.wall ≡ 0) }
    ensures first { IfOk result (λ start. day_of_month_of (wall_day start.wall) ≡ 1) }
    ensures month { IfOk result (λ start. month_of (wall_day start.wall) ≡
        month_of (wall_day at.wall)) }
    ensures year { IfOk result (λ start. year_of (wall_day start.wall) ≡
        year_of (wall_day at.wall)) }
{
    Ok(at.replace_day(1)?.replace_time(Time::MIDNIGHT))
}

/// The first day of a month. Refused `year` outside the range.
pub fn first_day(year: i32, month: Month) -> Result<Date, ComponentRange>
    ensures value { OkIff result (IsYear year) (day_of_calendar_date year (month_number month) 1) }
    ensures refused { IfErr result (λ refusal. refusal ≡ outright_refusal (codes "year")) }
    ensures day { IfOk result (λ first. day_of_month_of first ≡ 1) }
    ensures month { IfOk result (λ first. month_of first ≡ month_number month) }
    ensures year { IfOk result (λ first. year_of first ≡ year) }
{
    Date::from_calendar_date(year, month, 1)
}

/// The day of a month on which a bill is due: the month's last where it is shorter. Refused `year`
/// outside the range.
pub fn due_day(year: i32, month: Month, day: u8) -> Result<Date, ComponentRange>
    requires { 1 ≤ day }
    ensures value { OkIff result (IsYear year) (months.day_or_last year (month_number month) day) }
    ensures refused { IfErr result (λ refusal. refusal ≡ outright_refusal (codes "year")) }
    ensures month { IfOk result (λ due. month_of due ≡ month_number month) }
    ensures year { IfOk result (λ due. year_of due ≡ year) }
{
    day_or_last(year, month, day)
}

/// The first day of the month after that of the date. None in the last month of the range.
pub fn next_period(date: Date) -> Option<Date>
    ensures value { let first = months.first_of_next_month date in
        SomeIff result (IsDay first) first }
    ensures first { IfSome result (λ first. day_of_month_of first ≡ 1) }
    ensures within_the_year { IfSome result (λ first. month_of date < 12 →
        (year_of first ≡ year_of date) × (month_of first ≡ month_of date + 1)) }
    ensures after_december { IfSome result (λ first. month_of date ≡ 12 →
        (year_of first ≡ year_of date +ℤ pos 1) × (month_of first ≡ 1)) }
{
    last_day_of_month(date).next_day()
}

/// The last day of the month of the date, by the number of its days.
pub fn last_day(date: Date) -> Date
    ensures { result ≡ last_of_month date }
{
    date.replace_day(days_in_month(date.year(), date.month()))
        .unwrap()
}

/// The midnight with which the last day of the month begins where the customer is.
pub fn period_end(at: OffsetDateTime) -> Result<OffsetDateTime, ComponentRange>
    ensures never_refused { IsOk result }
    ensures offset { IfOk result (λ end. end.offset ≡ at.offset) }
    ensures midnight { IfOk result (λ end. wall_time end.wall ≡ 0) }
    ensures last { IfOk result (λ end. day_of_month_of (wall_day end.wall) ≡
        days_in_month (is_leap_year (year_of (wall_day at.wall))) (month_of (wall_day at.wall))) }
    ensures month { IfOk result (λ end. month_of (wall_day end.wall) ≡
        month_of (wall_day at.wall)) }
    ensures year { IfOk result (λ end. year_of (wall_day end.wall) ≡
        year_of (wall_day at.wall)) }
{
    let days = days_in_month(at.year(), at.month());
    Ok(at.replace_day(days)?.replace_time(Time::MIDNIGHT))
}
