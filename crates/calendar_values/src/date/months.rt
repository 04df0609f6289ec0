//! The first and the last day of a date's month, and dates a number of months later.
ghost use Rattle.std.specs.Prelude.{◌≡◌, ◌≤◌, ◌<◌, ◌+◌, ◌*◌, ◌-◌, ◌/◌, pos, min, ◌+ℤ◌, ◌≤ℤ◌, unsigned_abs, IfSome, SomeIff};
ghost use Rattle.std.specs.Int.{IsInRange};
ghost use Rattle.calendar_values.specs.Calendar.{is_leap_year, days_in_month};
ghost use Rattle.calendar_values.specs.Dates.{ShowsDate};
ghost use Rattle.calendar_values.specs.Month.{month_number};
ghost use Rattle.calendar_values.specs.Months.{first_of_month, last_of_month, month_index, year_of_index, month_of_index, day_or_last, months_later};
ghost use Rattle.calendar_values.specs.Range.{IsYear, SomeDay};

use crate::calendar::days_before_month;
use crate::range::{FIRST_YEAR, LAST_YEAR};
use crate::{Date, Month, days_in_month, is_leap_year};

impl Date {
    ghost use Rattle.calendar_values.specs.Calendar.{year_of, month_of, day_of_month_of};

    /// The first day of the date's month.
    ///
    /// ```
    /// let date = Date::from_calendar_date(2024, Month::February, 29)?;
    /// assert_eq!(rt; date.first_of_month(), Date::from_calendar_date(2024, Month::February, 1)?);
    /// ```
    #[tactic(auto, using(crate::proofs::MonthLaterLemmas::first_days))]
    pub fn first_of_month(self) -> Date
        ensures value { result ≡ first_of_month self }
        ensures shown { ShowsDate (year_of self) (month_of self) 1 result }
        ensures not_after { result ≤ℤ self }
    {
        self.day_in_month(1)
    }

    /// The last day of the date's month.
    ///
    /// ```
    /// let date = Date::from_calendar_date(2024, Month::February, 1)?;
    /// assert_eq!(rt; date.last_of_month(), Date::from_calendar_date(2024, Month::February, 29)?);
    /// ```
    #[tactic(auto, using(crate::proofs::MonthLaterLemmas::last_days))]
    pub fn last_of_month(self) -> Date
        ensures value { result ≡ last_of_month self }
        ensures shown { ShowsDate (year_of self) (month_of self)
            (days_in_month (is_leap_year (year_of self)) (month_of self)) result }
        ensures not_before { self ≤ℤ result }
    {
        self.day_in_month(31)
    }

    /// The same day of the month a number of months later, or earlier for a negative number: the
    /// last day of a month that is shorter. None outside the range.
    ///
    /// ```
    /// let date = Date::from_calendar_date(2024, Month::January, 31)?;
    /// assert_eq!(rt;
    ///     date.checked_add_months(1),
    ///     Some(Date::from_calendar_date(2024, Month::February, 29)?)
    /// );
    /// assert_eq!(rt; Date::MAX.checked_add_months(1), None);
    /// ```
    pub fn checked_add_months(self, months: i32) -> Option<Date>
        ensures value { SomeDay result (months_later self months) }
        ensures month { IfSome result (λ later. month_index later ≡ month_index self +ℤ months) }
        ensures day { IfSome result (λ later. day_of_month_of later ≡ min (day_of_month_of self)
            (days_in_month (is_leap_year (year_of later)) (month_of later))) }
    {
        Date::in_month(self.month_index() + months as i64, self.day())
    }

    // The number of the date's month, counted from January of the year 0.
    #[tactic(auto, using(crate::specs::SignedArith::signed_casts))]
    fn month_index(self) -> i64
        ensures value { result ≡ month_index self }
        ensures in_range { unsigned_abs result ≤ 12_000_000 }
    {
        self.year() as i64 * 12 + number_of_month(self.month()) as i64 - 1
    }

    // A day of the date's month, or the month's last day if the month is shorter.
    #[tactic(auto, using(crate::specs::MonthNumberLemmas::months))]
    fn day_in_month(self, day: u8) -> Date
        requires { 1 ≤ day }
        ensures value { result ≡ day_or_last (year_of self) (month_of self) day }
        ensures shown { ShowsDate (year_of self) (month_of self)
            (min day (days_in_month (is_leap_year (year_of self)) (month_of self))) result }
    {
        Date::day_or_last(self.year(), self.month(), day)
    }

    // A day of the month of this number from January of the year 0, or the month's last day if the month is
    // shorter. None outside the range.
    #[tactic(auto, using(crate::specs::MonthNumberLemmas::months))]
    fn in_month(index: i64, day: u8) -> Option<Date>
        requires { 1 ≤ day }
        ensures value { let y = year_of_index index in
            SomeIff result (IsYear y) (day_or_last y (month_of_index index) day) }
        ensures shown { let y = year_of_index index in let m = month_of_index index in
            IfSome result (ShowsDate y m (min day (days_in_month (is_leap_year y) m))) }
    {
        let month = Month::of_number(number_of_index(index));
        match year_of_index(index) {
            Some(year) => Some(Date::day_or_last(year, month, day)),
            None => None,
        }
    }

    // A day of a month, or the month's last day if the month is shorter.
    fn day_or_last(year: i32, month: Month, day: u8) -> Date
        requires year { IsYear year }
        requires day { 1 ≤ day }
        ensures value { result ≡ day_or_last year (month_number month) day }
        ensures shown { ShowsDate year (month_number month)
            (min day (days_in_month (is_leap_year year) (month_number month))) result }
    {
        let day = at_most(day, days_in_month(year, month));
        Date {
            year,
            ordinal: days_before_month(is_leap_year(year), month) + day as u16,
        }
    }
}

// The number of a month, 1 for January to 12 for December.
fn number_of_month(month: Month) -> u8
    ensures value { result ≡ month_number month }
    ensures in_range { IsInRange 1 12 result }
{
    month as u8
}

// The day, or the last one if that comes first.
fn at_most(day: u8, last: u8) -> u8
    ensures { result ≡ min day last }
{
    if day > last { last } else { day }
}

// The year of the month of this number from January of the year 0. None outside the range.
#[tactic(auto, using(crate::specs::SignedArith::signed_casts))]
fn year_of_index(index: i64) -> Option<i32>
    ensures { SomeIff result (IsYear (year_of_index index)) (year_of_index index) }
{
    let year = index.div_euclid(12);
    if year < FIRST_YEAR as i64 || year > LAST_YEAR as i64 {
        return None;
    }
    Some(year as i32)
}

// The number in its year of the month of this number from January of the year 0.
#[tactic(auto, using(crate::specs::SignedArith::signed_casts))]
fn number_of_index(index: i64) -> u8
    ensures value { result ≡ month_of_index index }
    ensures in_range { IsInRange 1 12 result }
{
    index.rem_euclid(12) as u8 + 1
}
