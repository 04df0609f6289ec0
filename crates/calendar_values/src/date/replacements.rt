//! Dates with a part replaced.
ghost use Rattle.std.specs.Prelude.{◌<◌, ◌/◌, IfOk};

use crate::{ComponentRange, Date, Month};

impl Date {
    ghost use Rattle.calendar_values.specs.Calendar.{year_of, month_of, day_of_month_of};
    ghost use Rattle.calendar_values.specs.Dates.{ShowsDate, ShowsOrdinalDate};
    ghost use Rattle.calendar_values.specs.Month.{month_number};
    ghost use Rattle.calendar_values.specs.Outcomes.{Gives};
    ghost use Rattle.calendar_values.specs.Replacements.{year_outcome, month_outcome, day_outcome, ordinal_outcome};

    /// The date with another year, and the month and the day of the month kept. Fails with `year`
    /// before the first year or after the last, and conditionally with `day` for 29 February in a
    /// common year.
    ///
    /// ```
    /// let leap_day = Date::from_calendar_date(2024, Month::February, 29)?;
    /// assert_eq!(rt;
    ///     leap_day.replace_year(2028)?,
    ///     Date::from_calendar_date(2028, Month::February, 29)?
    /// );
    /// assert_eq!(rt; leap_day.replace_year(2023), Err(ComponentRange::new("day", true)));
    /// ```
    pub fn replace_year(self, year: i32) -> Result<Date, ComponentRange>
        ensures value { Gives result (year_outcome self year) }
        ensures shown { IfOk result (ShowsDate year (month_of self) (day_of_month_of self)) }
    {
        let (month, day) = self.month_day();
        Date::from_calendar_date(year, month, day)
    }

    /// The date with another month, and the year and the day of the month kept. Fails conditionally
    /// with `day` if the month is too short.
    ///
    /// ```
    /// let end = Date::from_calendar_date(2024, Month::January, 31)?;
    /// assert_eq!(rt;
    ///     end.replace_month(Month::March)?,
    ///     Date::from_calendar_date(2024, Month::March, 31)?
    /// );
    /// assert_eq!(rt; end.replace_month(Month::April), Err(ComponentRange::new("day", true)));
    /// ```
    pub fn replace_month(self, month: Month) -> Result<Date, ComponentRange>
        ensures value { Gives result (month_outcome self (month_number month)) }
        ensures shown { IfOk result
            (ShowsDate (year_of self) (month_number month) (day_of_month_of self)) }
    {
        Date::from_calendar_date(self.year(), month, self.day())
    }

    /// The date with another day of the month. Fails with `day` at 0 or above 31, and conditionally
    /// past the end of the month.
    ///
    /// ```
    /// let leap_day = Date::from_calendar_date(2024, Month::February, 29)?;
    /// assert_eq!(rt;
    ///     leap_day.replace_day(1)?,
    ///     Date::from_calendar_date(2024, Month::February, 1)?
    /// );
    /// assert_eq!(rt; leap_day.replace_day(30), Err(ComponentRange::new("day", true)));
    /// ```
    pub fn replace_day(self, day: u8) -> Result<Date, ComponentRange>
        ensures value { Gives result (day_outcome self day) }
        ensures shown { IfOk result (ShowsDate (year_of self) (month_of self) day) }
    {
        Date::from_calendar_date(self.year(), self.month(), day)
    }

    /// The date with another day of the year. Fails with `ordinal` at 0 or above 366, and
    /// conditionally at 366 in a common year.
    ///
    /// ```
    /// let leap_day = Date::from_calendar_date(2024, Month::February, 29)?;
    /// assert_eq!(rt;
    ///     leap_day.replace_ordinal(366)?,
    ///     Date::from_calendar_date(2024, Month::December, 31)?
    /// );
    /// assert_eq!(rt; leap_day.replace_ordinal(367), Err(ComponentRange::new("ordinal", false)));
    /// ```
    pub fn replace_ordinal(self, ordinal: u16) -> Result<Date, ComponentRange>
        ensures value { Gives result (ordinal_outcome self ordinal) }
        ensures shown { IfOk result (ShowsOrdinalDate (year_of self) ordinal) }
    {
        Date::from_ordinal_date(self.year(), ordinal)
    }
}
