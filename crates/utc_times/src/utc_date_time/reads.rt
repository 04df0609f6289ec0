//! The parts of a date-time in UTC.
ghost use Rattle.std.specs.Prelude.{◌≡◌, ◌≤◌, ◌*◌};
ghost use Rattle.std.specs.Int.{IsInRange};
ghost use Rattle.calendar_values.specs.Calendar.{year_of, month_of, day_of_month_of, ordinal_of, julian_day_of};
ghost use Rattle.calendar_values.specs.Clock.{AreTimeParts, nanos_per_millisecond, nanos_per_microsecond, hour_of, minute_of, second_of};
ghost use Rattle.calendar_values.specs.Clock.{millisecond_of, microsecond_of, nanosecond_of};
ghost use Rattle.calendar_values.specs.Dates.{IsCalendarDateOf, IsOrdinalDateOf, IsIsoWeekDateOf};
ghost use Rattle.calendar_values.specs.Month.{month_number};
ghost use Rattle.calendar_values.specs.Range.{IsYear};
ghost use Rattle.calendar_values.specs.WallClock.{wall_day, wall_time, IsInstant};
ghost use Rattle.calendar_values.specs.Weekday.{weekday_number};
ghost use Rattle.calendar_values.specs.Weeks.{iso_week_of, sunday_week_of, monday_week_of, weekday_of};

use crate::UtcDateTime;
use calendar_values::{Date, Month, Time, Weekday};

impl UtcDateTime {
    /// The date.
    ///
    /// ```
    /// let at = UtcDateTime::from_unix_timestamp(1_577_664_000)?;
    /// assert_eq!(rt; at.date(), Date::from_calendar_date(2019, Month::December, 30)?);
    /// ```
    pub fn date(self) -> Date
        ensures value { result ≡ wall_day self }
        ensures self_in_range { IsInstant self }
    {
        self.as_plain().date()
    }

    /// The time of day.
    ///
    /// ```
    /// let at = UtcDateTime::from_unix_timestamp_nanos(1_577_710_979_480_300_002)?;
    /// assert_eq!(rt; at.time(), Time::from_hms_nano(13, 2, 59, 480_300_002)?);
    /// ```
    pub fn time(self) -> Time
        ensures value { result ≡ wall_time self }
        ensures self_in_range { IsInstant self }
    {
        self.as_plain().time()
    }

    /// As [`Date::year`], of the day in UTC.
    ///
    /// ```
    /// let at = UtcDateTime::from_unix_timestamp(1_577_664_000)?;
    /// assert_eq!(rt; at.year(), 2019);
    /// ```
    pub fn year(self) -> i32
        ensures value { result ≡ year_of (wall_day self) }
        ensures in_range { IsYear result }
    {
        self.as_plain().year()
    }

    /// As [`Date::month`], of the day in UTC.
    ///
    /// ```
    /// let at = UtcDateTime::from_unix_timestamp(1_577_664_000)?;
    /// assert_eq!(rt; at.month(), Month::December);
    /// ```
    pub fn month(self) -> Month
        ensures { month_number result ≡ month_of (wall_day self) }
    {
        self.as_plain().month()
    }

    /// As [`Date::day`], of the day in UTC.
    ///
    /// ```
    /// let at = UtcDateTime::from_unix_timestamp(1_577_664_000)?;
    /// assert_eq!(rt; at.day(), 30);
    /// ```
    pub fn day(self) -> u8
        ensures value { result ≡ day_of_month_of (wall_day self) }
        ensures in_range { IsInRange 1 31 result }
    {
        self.as_plain().day()
    }

    /// As [`Date::ordinal`], of the day in UTC.
    ///
    /// ```
    /// let at = UtcDateTime::from_unix_timestamp(1_577_664_000)?;
    /// assert_eq!(rt; at.ordinal(), 364);
    /// ```
    pub fn ordinal(self) -> u16
        ensures value { result ≡ ordinal_of (wall_day self) }
        ensures in_range { IsInRange 1 366 result }
    {
        self.as_plain().ordinal()
    }

    /// As [`Date::iso_week`], of the day in UTC.
    ///
    /// ```
    /// let at = UtcDateTime::from_unix_timestamp(1_577_664_000)?;
    /// assert_eq!(rt; at.iso_week(), 1);
    /// ```
    pub fn iso_week(self) -> u8
        ensures value { result ≡ iso_week_of (wall_day self) }
        ensures in_range { IsInRange 1 53 result }
    {
        self.as_plain().iso_week()
    }

    /// As [`Date::sunday_based_week`], of the day in UTC.
    ///
    /// ```
    /// let at = UtcDateTime::from_unix_timestamp(1_577_664_000)?;
    /// assert_eq!(rt; at.sunday_based_week(), 52);
    /// ```
    pub fn sunday_based_week(self) -> u8
        ensures value { result ≡ sunday_week_of (wall_day self) }
        ensures in_range { result ≤ 53 }
    {
        self.as_plain().sunday_based_week()
    }

    /// As [`Date::monday_based_week`], of the day in UTC.
    ///
    /// ```
    /// let at = UtcDateTime::from_unix_timestamp(1_577_664_000)?;
    /// assert_eq!(rt; at.monday_based_week(), 52);
    /// ```
    pub fn monday_based_week(self) -> u8
        ensures value { result ≡ monday_week_of (wall_day self) }
        ensures in_range { result ≤ 53 }
    {
        self.as_plain().monday_based_week()
    }

    /// As [`Date::to_calendar_date`], of the day in UTC.
    ///
    /// ```
    /// let at = UtcDateTime::from_unix_timestamp(1_577_664_000)?;
    /// assert_eq!(rt; at.to_calendar_date(), (2019, Month::December, 30));
    /// ```
    pub fn to_calendar_date(self) -> (i32, Month, u8)
        ensures { IsCalendarDateOf (wall_day self) result }
    {
        self.as_plain().to_calendar_date()
    }

    /// As [`Date::to_ordinal_date`], of the day in UTC.
    ///
    /// ```
    /// let at = UtcDateTime::from_unix_timestamp(1_577_664_000)?;
    /// assert_eq!(rt; at.to_ordinal_date(), (2019, 364));
    /// ```
    pub fn to_ordinal_date(self) -> (i32, u16)
        ensures { IsOrdinalDateOf (wall_day self) result }
    {
        self.as_plain().to_ordinal_date()
    }

    /// As [`Date::to_iso_week_date`], of the day in UTC.
    ///
    /// ```
    /// let at = UtcDateTime::from_unix_timestamp(1_577_664_000)?;
    /// assert_eq!(rt; at.to_iso_week_date(), (2020, 1, Weekday::Monday));
    /// ```
    pub fn to_iso_week_date(self) -> (i32, u8, Weekday)
        ensures { IsIsoWeekDateOf (wall_day self) result }
    {
        self.as_plain().to_iso_week_date()
    }

    /// As [`Date::weekday`], of the day in UTC.
    ///
    /// ```
    /// let at = UtcDateTime::from_unix_timestamp(1_577_664_000)?;
    /// assert_eq!(rt; at.weekday(), Weekday::Monday);
    /// ```
    pub fn weekday(self) -> Weekday
        ensures { weekday_number result ≡ weekday_of (wall_day self) }
    {
        self.as_plain().weekday()
    }

    /// As [`Date::to_julian_day`], of the day in UTC.
    ///
    /// ```
    /// let at = UtcDateTime::from_unix_timestamp(1_577_664_000)?;
    /// assert_eq!(rt; at.to_julian_day(), 2_458_848);
    /// ```
    pub fn to_julian_day(self) -> i32
        ensures value { result ≡ julian_day_of (wall_day self) }
        ensures self_in_range { IsInstant self }
    {
        self.as_plain().to_julian_day()
    }

    /// As [`Time::as_hms`], of the time of day in UTC.
    ///
    /// ```
    /// let at = UtcDateTime::from_unix_timestamp_nanos(1_577_710_979_480_300_002)?;
    /// assert_eq!(rt; at.as_hms(), (13, 2, 59));
    /// ```
    pub fn as_hms(self) -> (u8, u8, u8)
        ensures value { let c = wall_time self in result ≡ (hour_of c, minute_of c, second_of c) }
        ensures in_range { AreTimeParts result.0 result.1 result.2 0 }
    {
        self.as_plain().as_hms()
    }

    /// As [`Time::as_hms_milli`], of the time of day in UTC.
    ///
    /// ```
    /// let at = UtcDateTime::from_unix_timestamp_nanos(1_577_710_979_480_300_002)?;
    /// assert_eq!(rt; at.as_hms_milli(), (13, 2, 59, 480));
    /// ```
    pub fn as_hms_milli(self) -> (u8, u8, u8, u16)
        ensures value { let c = wall_time self in
            result ≡ (hour_of c, minute_of c, second_of c, millisecond_of c) }
        ensures in_range { AreTimeParts result.0 result.1 result.2
            (result.3 * nanos_per_millisecond) }
    {
        self.as_plain().as_hms_milli()
    }

    /// As [`Time::as_hms_micro`], of the time of day in UTC.
    ///
    /// ```
    /// let at = UtcDateTime::from_unix_timestamp_nanos(1_577_710_979_480_300_002)?;
    /// assert_eq!(rt; at.as_hms_micro(), (13, 2, 59, 480_300));
    /// ```
    pub fn as_hms_micro(self) -> (u8, u8, u8, u32)
        ensures value { let c = wall_time self in
            result ≡ (hour_of c, minute_of c, second_of c, microsecond_of c) }
        ensures in_range { AreTimeParts result.0 result.1 result.2
            (result.3 * nanos_per_microsecond) }
    {
        self.as_plain().as_hms_micro()
    }

    /// As [`Time::as_hms_nano`], of the time of day in UTC.
    ///
    /// ```
    /// let at = UtcDateTime::from_unix_timestamp_nanos(1_577_710_979_480_300_002)?;
    /// assert_eq!(rt; at.as_hms_nano(), (13, 2, 59, 480_300_002));
    /// ```
    pub fn as_hms_nano(self) -> (u8, u8, u8, u32)
        ensures value { let c = wall_time self in
            result ≡ (hour_of c, minute_of c, second_of c, nanosecond_of c) }
        ensures in_range { AreTimeParts result.0 result.1 result.2 result.3 }
    {
        self.as_plain().as_hms_nano()
    }

    /// As [`Time::hour`], of the time of day in UTC.
    ///
    /// ```
    /// let at = UtcDateTime::from_unix_timestamp_nanos(1_577_710_979_480_300_002)?;
    /// assert_eq!(rt; at.hour(), 13);
    /// ```
    pub fn hour(self) -> u8
        ensures value { result ≡ hour_of (wall_time self) }
        ensures in_range { result ≤ 23 }
    {
        self.as_plain().hour()
    }

    /// As [`Time::minute`], of the time of day in UTC.
    ///
    /// ```
    /// let at = UtcDateTime::from_unix_timestamp_nanos(1_577_710_979_480_300_002)?;
    /// assert_eq!(rt; at.minute(), 2);
    /// ```
    pub fn minute(self) -> u8
        ensures value { result ≡ minute_of (wall_time self) }
        ensures in_range { result ≤ 59 }
    {
        self.as_plain().minute()
    }

    /// As [`Time::second`], of the time of day in UTC.
    ///
    /// ```
    /// let at = UtcDateTime::from_unix_timestamp_nanos(1_577_710_979_480_300_002)?;
    /// assert_eq!(rt; at.second(), 59);
    /// ```
    pub fn second(self) -> u8
        ensures value { result ≡ second_of (wall_time self) }
        ensures in_range { result ≤ 59 }
    {
        self.as_plain().second()
    }

    /// As [`Time::millisecond`], of the time of day in UTC.
    ///
    /// ```
    /// let at = UtcDateTime::from_unix_timestamp_nanos(1_577_710_979_480_300_002)?;
    /// assert_eq!(rt; at.millisecond(), 480);
    /// ```
    pub fn millisecond(self) -> u16
        ensures value { result ≡ millisecond_of (wall_time self) }
        ensures in_range { result ≤ 999 }
    {
        self.as_plain().millisecond()
    }

    /// As [`Time::microsecond`], of the time of day in UTC.
    ///
    /// ```
    /// let at = UtcDateTime::from_unix_timestamp_nanos(1_577_710_979_480_300_002)?;
    /// assert_eq!(rt; at.microsecond(), 480_300);
    /// ```
    pub fn microsecond(self) -> u32
        ensures value { result ≡ microsecond_of (wall_time self) }
        ensures in_range { result ≤ 999_999 }
    {
        self.as_plain().microsecond()
    }

    /// As [`Time::nanosecond`], of the time of day in UTC.
    ///
    /// ```
    /// let at = UtcDateTime::from_unix_timestamp_nanos(1_577_710_979_480_300_002)?;
    /// assert_eq!(rt; at.nanosecond(), 480_300_002);
    /// ```
    pub fn nanosecond(self) -> u32
        ensures value { result ≡ nanosecond_of (wall_time self) }
        ensures in_range { result ≤ 999_999_999 }
    {
        self.as_plain().nanosecond()
    }
}
