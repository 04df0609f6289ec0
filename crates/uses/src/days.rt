//! Days that are counted.

ghost use Rattle.std.specs.Prelude.{◌≡◌, ◌↔◌, ◌<◌, ◌≤◌, ◌+◌, ◌-◌, ◌*◌, ◌%◌, ◌+ℤ◌, ◌-ℤ◌, ◌*ℤ◌, ◌≤ℤ◌, ◌<ℤ◌, pos, IfSome, IsTrue, SomeIff};
ghost use Rattle.calendar_values.specs.Calendar.{days_in_month, is_leap_year, year_of, month_of, day_of_month_of, day_of_calendar_date};
ghost use Rattle.calendar_values.specs.Clock.{hour_of, minute_of};
ghost use Rattle.calendar_values.specs.Months.{last_of_month};
ghost use Rattle.calendar_values.specs.Occurrences.{next_occurrence, nth_next_occurrence, prev_occurrence};
ghost use Rattle.calendar_values.specs.Range.{IsDay, SomeDay, IsYear};
ghost use Rattle.calendar_values.specs.Weekday.{weekday_number};
ghost use Rattle.calendar_values.specs.Weeks.{iso_week_of, iso_year_of, monday_of, weekday_of, weeks_in_year};
ghost use Rattle.uses.specs.Days.{days_to_work, IsIsoWeek, monday_of_iso_week};

use calendar_values::{Date, Month, SignedDuration, Time, Weekday, days_in_month};

/// The days from the first date to the second, below 0 where the second is earlier.
pub fn days_between(first: Date, second: Date) -> i32
    ensures { result ≡ second -ℤ first }
{
    second.to_julian_day() - first.to_julian_day()
}

/// Whether the date is a Saturday or a Sunday.
pub fn is_weekend(date: Date) -> bool
    ensures { IsTrue result ↔ (5 ≤ weekday_of date) }
{
    date.weekday().number_days_from_monday() >= 5
}

/// The first day of the month of the date.
pub fn first_of_its_month(date: Date) -> Date
    ensures day { day_of_month_of result ≡ 1 }
    ensures month { month_of result ≡ month_of date }
{
    date.replace_day(1).unwrap()
}

/// The Monday of an ISO week, or None for a week that the year has not, and for a year outside the
/// range.
pub fn monday_of_week(year: i32, week: u8) -> Option<Date>
    ensures value { SomeIff result (IsIsoWeek year week)
        (monday_of_iso_week year week) }
    ensures year { IfSome result (λ monday. iso_year_of monday ≡ year) }
    ensures week { IfSome result (λ monday. iso_week_of monday ≡ week) }
    ensures weekday { IfSome result (λ monday. weekday_of monday ≡ 0) }
{
    Date::from_iso_week_date(year, week, Weekday::Monday).ok()
}

/// The first day of a year, or None for a year outside the range.
pub fn first_of_year(year: i32) -> Option<Date>
    ensures value { SomeIff result (IsYear year) (day_of_calendar_date year 1 1) }
    ensures year { IfSome result (λ first. year_of first ≡ year) }
    ensures month { IfSome result (λ first. month_of first ≡ 1) }
    ensures day { IfSome result (λ first. day_of_month_of first ≡ 1) }
{
    Date::from_calendar_date(year, Month::January, 1).ok()
}

/// The time of day on the hour, at the half.
pub fn at_half_past(time: Time) -> Time
    ensures hour { hour_of result ≡ hour_of time }
    ensures minute { minute_of result ≡ 30 }
{
    time.replace_minute(30).unwrap()
}

/// The day of the week a number of weeks later, or earlier for a negative number, in the range or
/// not.
pub fn weekday_weeks_later(date: Date, weeks: i32) -> Weekday
    ensures { weekday_number result ≡ weekday_of (date +ℤ weeks *ℤ pos 7) }
{
    calendar_values::laws::weekdays_repeat();
    date.weekday()
}

/// The day a number of days before the date, or None before the range.
#[tactic(auto, using(crate::specs::WorkDayLemmas::earlier_days))]
pub fn days_before(date: Date, days: u8) -> Option<Date>
    ensures value { SomeDay result (date -ℤ pos days) }
    // A day earlier is as six days later.
    ensures weekday { IfSome result (λ before.
        weekday_of before ≡ (weekday_of date + 6 * days) % 7) }
{
    date.checked_sub(SignedDuration::days(i64::from(days)))
}

/// The Monday of the week of the date, or None where the range has it not.
pub fn monday_of(date: Date) -> Option<Date>
    ensures value { SomeDay result (date -ℤ pos (weekday_of date)) }
    ensures monday { IfSome result (λ monday. weekday_of monday ≡ 0) }
    ensures near { IfSome result (λ monday. monday ≡ date -ℤ pos (weekday_of date)) }
{
    days_before(date, date.weekday().number_days_from_monday())
}

/// The day a number of days after the date, or None past the range.
pub fn days_after(date: Date, days: u8) -> Option<Date>
    ensures { SomeDay result (date +ℤ pos days) }
{
    date.checked_add(SignedDuration::days(i64::from(days)))
}

/// How many days it is to the next day that is no Saturday and no Sunday.
pub fn days_to_a_working_day(date: Date) -> u8
    ensures value { result ≡ days_to_work (weekday_of date) }
    ensures some { 1 ≤ result }
    ensures few { result ≤ 3 }
    ensures working { weekday_of (date +ℤ pos result) < 5 }
{
    match date.weekday() {
        Weekday::Friday => 3,
        Weekday::Saturday => 2,
        _ => 1,
    }
}

/// The next day that is no Saturday and no Sunday, or None past the range.
pub fn next_working_day(date: Date) -> Option<Date>
    ensures value { SomeDay result (date +ℤ pos (days_to_work (weekday_of date))) }
    ensures later { IfSome result (λ next. date <ℤ next) }
    ensures soon { IfSome result (λ next. next ≤ℤ (date +ℤ pos 3)) }
    ensures working { IfSome result (λ next. weekday_of next < 5) }
{
    days_after(date, days_to_a_working_day(date))
}

/// The next day of that name, after the date, or None past the range.
pub fn next_occurrence(date: Date, weekday: Weekday) -> Option<Date>
    ensures value { SomeDay result (next_occurrence date (weekday_number weekday)) }
    ensures later { IfSome result (λ next. date <ℤ next) }
    ensures soon { IfSome result (λ next. next ≤ℤ (date +ℤ pos 7)) }
    ensures weekday { IfSome result (λ next. weekday_of next ≡ weekday_number weekday) }
{
    date.checked_next_occurrence(weekday)
}

/// The nth such day of the week after the date, or None past the range.
pub fn nth_next_occurrence(date: Date, weekday: Weekday, n: u8) -> Option<Date>
    requires { 1 ≤ n }
    ensures value { SomeDay result (nth_next_occurrence date (weekday_number weekday) n) }
    ensures later { IfSome result (λ next. date <ℤ next) }
    ensures weekday { IfSome result (λ next. weekday_of next ≡ weekday_number weekday) }
{
    date.checked_nth_next_occurrence(weekday, n)
}

/// The last day of that name, before the date, or None before the range.
pub fn prev_occurrence(date: Date, weekday: Weekday) -> Option<Date>
    ensures value { SomeDay result (prev_occurrence date (weekday_number weekday)) }
    ensures earlier { IfSome result (λ previous. previous <ℤ date) }
    ensures near { IfSome result (λ previous. date ≤ℤ (previous +ℤ pos 7)) }
    ensures weekday { IfSome result (λ previous. weekday_of previous ≡ weekday_number weekday) }
{
    date.checked_prev_occurrence(weekday)
}

/// The Monday of a roster: the next one, of a date that has one in the range.
pub fn roster_begins(date: Date) -> Date
    requires { IsDay (next_occurrence date 0) }
    ensures monday { weekday_of result ≡ 0 }
    ensures later { date <ℤ result }
    ensures soon { result ≤ℤ (date +ℤ pos 7) }
{
    date.next_occurrence(Weekday::Monday)
}

/// How many days it is back from a day of the week to the last that is no Saturday and no Sunday.
pub fn days_back_to_work(weekday: Weekday) -> u8
    ensures some { 1 ≤ result }
    ensures few { result ≤ 3 }
    // A day earlier is as six days later.
    ensures working { (weekday_number weekday + 6 * result) % 7 < 5 }
{
    match weekday {
        Weekday::Monday => 3,
        Weekday::Sunday => 2,
        _ => 1,
    }
}

/// The last day before the date that is no Saturday and no Sunday, or None before the range.
pub fn work_day_before(date: Date) -> Option<Date>
    ensures earlier { IfSome result (λ before. before <ℤ date) }
    ensures near { IfSome result (λ before. date ≤ℤ (before +ℤ pos 3)) }
    ensures working { IfSome result (λ before. weekday_of before < 5) }
{
    days_before(date, days_back_to_work(date.weekday()))
}

/// How many days of a weekend there are up to a day of the week, with it.
pub fn days_of_weekend(weekday: Weekday) -> u8
    ensures few { result ≤ 2 }
    ensures working { (weekday_number weekday + 6 * result) % 7 < 5 }
{
    match weekday {
        Weekday::Saturday => 1,
        Weekday::Sunday => 2,
        _ => 0,
    }
}

/// The last day of the month of the date that is no Saturday and no Sunday. None out of range.
pub fn last_work_day(date: Date) -> Option<Date>
    ensures working { IfSome result (λ day. weekday_of day < 5) }
    ensures not_after { IfSome result (λ day. day ≤ℤ last_of_month date) }
    ensures near { IfSome result (λ day. last_of_month date ≤ℤ (day +ℤ pos 2)) }
{
    let last = date.last_of_month();
    days_before(last, days_of_weekend(last.weekday()))
}

/// The same by the day of the week alone. None past the range.
pub fn working_day_after(date: Date) -> Option<Date>
    ensures value { SomeDay result (date +ℤ pos (days_to_work (weekday_of date))) }
    ensures later { IfSome result (λ next. date <ℤ next) }
    ensures soon { IfSome result (λ next. next ≤ℤ (date +ℤ pos 3)) }
    ensures working { IfSome result (λ next. weekday_of next < 5) }
{
    let days = match date.weekday() {
        Weekday::Friday => 3,
        Weekday::Saturday => 2,
        _ => 1,
    };
    date.checked_add_days(days)
}

/// The same day of the week, a week later, or None past the range.
pub fn a_week_later(date: Date) -> Option<Date>
    ensures later { SomeDay result (date +ℤ pos 7) }
    ensures weekday { IfSome result (λ later. weekday_of later ≡ weekday_of date) }
{
    date.checked_add_days(7)
}

/// The same day of the next week, by a duration, exactly where the range has it.
pub fn next_week(date: Date) -> Option<Date>
    ensures value { let next = date +ℤ pos 7 in SomeIff result (IsDay next) next }
    ensures weekday { IfSome result (λ next. weekday_of next ≡ weekday_of date) }
{
    date.checked_add(SignedDuration::weeks(1))
}

/// The days that the month of the date still has after it.
pub fn days_left_in_its_month(date: Date) -> u8
    ensures { result + day_of_month_of date ≡
        days_in_month (is_leap_year (year_of date)) (month_of date) }
{
    days_in_month(date.year(), date.month()) - date.day()
}

/// The Monday of the week of a date, by the number of the week.
pub fn monday_by_week(date: Date) -> Option<Date>
    ensures value { let year = iso_year_of date in let week = iso_week_of date in
        SomeIff result (IsIsoWeek year week) (monday_of date) }
    ensures monday { IfSome result (λ monday. monday ≡ monday_of date) }
{
    let (year, week, _) = date.to_iso_week_date();
    Date::from_iso_week_date(year, week, Weekday::Monday).ok()
}

/// Whether the year has a week 53: then it has 53 weeks.
pub fn has_week_53(year: i32) -> bool
    ensures { IsTrue result → weeks_in_year year ≡ 53 }
{
    Date::from_iso_week_date(year, 53, Weekday::Monday).is_ok()
}
