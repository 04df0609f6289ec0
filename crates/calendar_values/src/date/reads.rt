//! The parts of a date.
ghost use Rattle.std.specs.Prelude.{◌≡◌, ◌+◌, ◌≤◌, ◌<◌, ◌-ℤ◌, ◌/◌, length};
ghost use Rattle.calendar_values.specs.Calendar.{epoch_julian_day};
ghost use Rattle.calendar_values.specs.Dates.{IsCalendarDateOf, IsOrdinalDateOf, IsIsoWeekDateOf};
ghost use Rattle.std.specs.Int.{IsInRange};
ghost use Rattle.calendar_values.specs.Range.{IsYear};
ghost use Rattle.calendar_values.specs.Weeks.{weekday_of};

use crate::calendar::year_start;
use crate::units::EPOCH_JULIAN_DAY;
use crate::{Date, Month, Weekday, days_in_year};

impl Date {
    ghost use Rattle.calendar_values.specs.Calendar.{year_of, ordinal_of, month_of, day_of_month_of, julian_day_of, days_in_year};
    ghost use Rattle.calendar_values.specs.Month.{month_number};
    ghost use Rattle.calendar_values.specs.Range.{IsDay};
    ghost use Rattle.calendar_values.specs.Weekday.{weekday_number};
    ghost use Rattle.calendar_values.specs.Weeks.{thursday_of, iso_week_of, sunday_week_of, monday_week_of};

    /// The year, from that of [`Date::MIN`] to that of [`Date::MAX`].
    ///
    /// ```
    /// let date = Date::from_calendar_date(2019, Month::December, 30)?;
    /// assert_eq!(rt; date.year(), 2019);
    /// ```
    #[tactic(auto, using(crate::proofs::DateLemmas::date_parts))]
    pub fn year(self) -> i32
        ensures value { result ≡ year_of self }
        ensures in_range { IsYear result }
        ensures self_in_range { IsDay self }
    {
        self.year
    }

    /// The month.
    ///
    /// ```
    /// let date = Date::from_calendar_date(2019, Month::December, 30)?;
    /// assert_eq!(rt; date.month(), Month::December);
    /// ```
    pub fn month(self) -> Month
        ensures { month_number result ≡ month_of self }
    {
        self.month_day().0
    }

    /// The day of the month, 1 to 31.
    ///
    /// ```
    /// let date = Date::from_calendar_date(2019, Month::December, 30)?;
    /// assert_eq!(rt; date.day(), 30);
    /// ```
    pub fn day(self) -> u8
        ensures value { result ≡ day_of_month_of self }
        ensures in_range { IsInRange 1 31 result }
    {
        self.month_day().1
    }

    /// The day of the year, 1 to 366.
    ///
    /// ```
    /// let date = Date::from_calendar_date(2019, Month::December, 30)?;
    /// assert_eq!(rt; date.ordinal(), 364);
    /// ```
    #[tactic(auto, using(crate::proofs::DateLemmas::date_parts))]
    pub fn ordinal(self) -> u16
        ensures value { result ≡ ordinal_of self }
        ensures in_range { IsInRange 1 366 result }
        ensures self_in_range { IsDay self }
    {
        self.ordinal
    }

    /// The ISO week, 1 to 53 (ISO 8601): it belongs to the year of its Thursday.
    ///
    /// ```
    /// let date = Date::from_calendar_date(2019, Month::December, 30)?;
    /// assert_eq!(rt; date.iso_week(), 1);
    /// ```
    pub fn iso_week(self) -> u8
        ensures value { result ≡ iso_week_of self }
        ensures in_range { IsInRange 1 53 result }
    {
        self.to_iso_week_date().1
    }

    /// The week counted by Sundays, 0 to 53: how many Sundays of the year lie on or before the
    /// date.
    ///
    /// ```
    /// let date = Date::from_calendar_date(2019, Month::December, 30)?;
    /// assert_eq!(rt; date.sunday_based_week(), 52);
    /// ```
    #[tactic(auto, using(crate::proofs::WeekNumberLemmas::week_numbers))]
    pub fn sunday_based_week(self) -> u8
        ensures value { result ≡ sunday_week_of self }
        ensures in_range { result ≤ 53 }
    {
        let days_from_sunday = (self.weekday().number_days_from_monday() + 1) % 7;
        ((self.ordinal() + 6 - days_from_sunday as u16) / 7) as u8
    }

    /// The week counted by Mondays, 0 to 53: how many Mondays of the year lie on or before the
    /// date.
    ///
    /// ```
    /// let date = Date::from_calendar_date(2019, Month::December, 30)?;
    /// assert_eq!(rt; date.monday_based_week(), 52);
    /// ```
    #[tactic(auto, using(crate::proofs::WeekNumberLemmas::week_numbers))]
    pub fn monday_based_week(self) -> u8
        ensures value { result ≡ monday_week_of self }
        ensures in_range { result ≤ 53 }
    {
        let days_from_monday = self.weekday().number_days_from_monday();
        ((self.ordinal() + 6 - days_from_monday as u16) / 7) as u8
    }

    /// The year, the month and the day of the month.
    ///
    /// ```
    /// let date = Date::from_calendar_date(2019, Month::December, 30)?;
    /// assert_eq!(rt; date.to_calendar_date(), (2019, Month::December, 30));
    /// ```
    pub fn to_calendar_date(self) -> (i32, Month, u8)
        ensures { IsCalendarDateOf self result }
    {
        let (month, day) = self.month_day();
        (self.year(), month, day)
    }

    /// The year and the day of the year.
    ///
    /// ```
    /// let date = Date::from_calendar_date(2019, Month::December, 30)?;
    /// assert_eq!(rt; date.to_ordinal_date(), (2019, 364));
    /// ```
    pub fn to_ordinal_date(self) -> (i32, u16)
        ensures { IsOrdinalDateOf self result }
    {
        (self.year(), self.ordinal())
    }

    /// The ISO year, the ISO week and the day of the week (ISO 8601).
    ///
    /// ```
    /// let date = Date::from_calendar_date(2019, Month::December, 30)?;
    /// assert_eq!(rt; date.to_iso_week_date(), (2020, 1, Weekday::Monday));
    /// ```
    #[tactic(auto, using(crate::proofs::WeekNumberLemmas::week_numbers))]
    pub fn to_iso_week_date(self) -> (i32, u8, Weekday)
        ensures { IsIsoWeekDateOf self result }
    {
        let (year, ordinal) = self.thursday().to_ordinal_date();
        (year, ((ordinal + 6) / 7) as u8, self.weekday())
    }

    // The Thursday of the date's week. It lies in the range too, which begins on a Monday and ends on
    // a Friday.
    fn thursday(self) -> Date
        ensures { result ≡ thursday_of self }
    {
        let days_from_monday = self.weekday().number_days_from_monday() as u16;
        let ordinal = self.ordinal + 3;
        if ordinal <= days_from_monday {
            let year = self.year - 1;
            return Date {
                year,
                ordinal: days_in_year(year) + ordinal - days_from_monday,
            };
        }
        let ordinal = ordinal - days_from_monday;
        let length = days_in_year(self.year);
        if ordinal > length {
            return Date {
                year: self.year + 1,
                ordinal: ordinal - length,
            };
        }
        Date {
            year: self.year,
            ordinal,
        }
    }

    /// The day of the week.
    ///
    /// ```
    /// let date = Date::from_calendar_date(2019, Month::December, 30)?;
    /// assert_eq!(rt; date.weekday(), Weekday::Monday);
    /// ```
    pub fn weekday(self) -> Weekday
        ensures { weekday_number result ≡ weekday_of self }
    {
        Weekday::of_number(days_from_monday(self.to_julian_day()))
    }

    /// The Julian day, which is 2,440,588 on 1970-01-01.
    ///
    /// ```
    /// let date = Date::from_calendar_date(2019, Month::December, 30)?;
    /// assert_eq!(rt; date.to_julian_day(), 2_458_848);
    /// ```
    #[inline(always)]
    pub fn to_julian_day(self) -> i32
        ensures value { result ≡ julian_day_of self }
        ensures self_in_range { IsDay self }
    {
        self.days_since_epoch() + EPOCH_JULIAN_DAY
    }

    /// The day number: the days from 1970-01-01 to the date, negative before it.
    ///
    /// ```
    /// let date = Date::from_calendar_date(2019, Month::December, 30)?;
    /// assert_eq!(rt; date.days_since_epoch(), 18_260);
    /// assert_eq!(rt; Date::UNIX_EPOCH.days_since_epoch(), 0);
    /// ```
    #[inline(always)]
    #[tactic(auto, using(crate::specs::SignedArith::signed_arith))]
    pub fn days_since_epoch(self) -> i32
        ensures value { result ≡ self }
        ensures self_in_range { IsDay self }
    {
        year_start(self.year) + self.ordinal as i32 - 1
    }
}

// How many days a Julian day comes after a Monday: Julian day 0 is one.
#[tactic(auto, using(crate::proofs::WeekNumberLemmas::weekday_parts))]
fn days_from_monday(julian_day: i32) -> u8
    ensures value { result ≡ weekday_of (julian_day -ℤ epoch_julian_day) }
    ensures in_range { result < 7 }
{
    julian_day.rem_euclid(7) as u8
}
