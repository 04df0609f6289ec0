//! The date and the time of day of a timestamp, in UTC.
ghost use Rattle.std.specs.Prelude.{◌≡◌, ◌<◌, ◌≤◌, ◌/◌, ◌*◌, ◌+ℤ◌};
ghost use Rattle.std.specs.Int.{IsInRange};
ghost use Rattle.calendar_values.specs.Calendar.{year_of, month_of, day_of_month_of, ordinal_of, julian_day_of};
ghost use Rattle.calendar_values.specs.Clock.{AreTimeParts, nanos_per_second, nanos_per_millisecond, nanos_per_microsecond, hour_of, minute_of};
ghost use Rattle.calendar_values.specs.Clock.{second_of, millisecond_of, microsecond_of, nanosecond_of};
ghost use Rattle.calendar_values.specs.Dates.{IsCalendarDateOf, IsOrdinalDateOf, IsIsoWeekDateOf};
ghost use Rattle.calendar_values.specs.Month.{month_number};
ghost use Rattle.calendar_values.specs.Range.{IsDay, IsYear};
ghost use Rattle.calendar_values.specs.WallClock.{wall_day, wall_time, IsInstant};
ghost use Rattle.calendar_values.specs.Weekday.{weekday_number};
ghost use Rattle.calendar_values.specs.Weeks.{iso_week_of, sunday_week_of, monday_week_of, weekday_of};

use crate::Timestamp;
use crate::reciprocal::year_leap_ordinal;
use calendar_values::units::EPOCH_JULIAN_DAY;
use calendar_values::{Date, Month, Time, Weekday, day_and_second, leap_ordinal_to_month_day};

// The days from a Monday before the range to 1970-01-01.
const DAYS_FROM_MONDAY: i32 = 365_961_669;

impl Timestamp {
    // The day number of the date.
    #[tactic(auto, using(crate::proofs::HeldInstantLemmas::days_of_seconds))]
    pub(crate) fn day_number(self) -> i32
        ensures value { result ≡ wall_day self }
        ensures in_range { IsDay result }
    {
        day_and_second(self.as_seconds()).0
    }

    // The second of the day.
    #[tactic(auto, using(crate::proofs::HeldInstantLemmas::days_of_seconds))]
    pub(crate) fn second_of_day(self) -> u32
        ensures value { result ≡ wall_time self / nanos_per_second }
        ensures in_range { result < 86_400 }
    {
        day_and_second(self.as_seconds()).1
    }

    /// The date.
    ///
    /// ```
    /// let at = Timestamp::from_seconds(1_577_664_000)?;
    /// assert_eq!(rt; at.date(), Date::from_calendar_date(2019, Month::December, 30)?);
    /// ```
    pub fn date(self) -> Date
        ensures value { result ≡ wall_day self }
        ensures self_in_range { IsInstant self }
    {
        let (year, _, ordinal) = year_leap_ordinal(self.day_number());
        Date::at_ordinal_date(year, ordinal)
    }

    /// The time of day.
    ///
    /// ```
    /// let at = Timestamp::new(1_577_710_979, 480_300_002)?;
    /// assert_eq!(rt; at.time(), Time::from_hms_nano(13, 2, 59, 480_300_002)?);
    /// ```
    pub fn time(self) -> Time
        ensures value { result ≡ wall_time self }
        ensures self_in_range { IsInstant self }
    {
        Time::at_second_of_day(self.second_of_day(), self.nanosecond())
    }

    /// As [`Date::year`], of the day in UTC.
    ///
    /// ```
    /// let at = Timestamp::from_seconds(1_577_664_000)?;
    /// assert_eq!(rt; at.year(), 2019);
    /// ```
    pub fn year(self) -> i32
        ensures value { result ≡ year_of (wall_day self) }
        ensures in_range { IsYear result }
    {
        year_leap_ordinal(self.day_number()).0
    }

    /// As [`Date::month`], of the day in UTC.
    ///
    /// ```
    /// let at = Timestamp::from_seconds(1_577_664_000)?;
    /// assert_eq!(rt; at.month(), Month::December);
    /// ```
    pub fn month(self) -> Month
        ensures { month_number result ≡ month_of (wall_day self) }
    {
        let (_, is_leap, ordinal) = year_leap_ordinal(self.day_number());
        leap_ordinal_to_month_day(is_leap, ordinal).0
    }

    /// As [`Date::day`], of the day in UTC.
    ///
    /// ```
    /// let at = Timestamp::from_seconds(1_577_664_000)?;
    /// assert_eq!(rt; at.day(), 30);
    /// ```
    pub fn day(self) -> u8
        ensures value { result ≡ day_of_month_of (wall_day self) }
        ensures in_range { IsInRange 1 31 result }
    {
        let (_, is_leap, ordinal) = year_leap_ordinal(self.day_number());
        leap_ordinal_to_month_day(is_leap, ordinal).1
    }

    /// As [`Date::ordinal`], of the day in UTC.
    ///
    /// ```
    /// let at = Timestamp::from_seconds(1_577_664_000)?;
    /// assert_eq!(rt; at.ordinal(), 364);
    /// ```
    pub fn ordinal(self) -> u16
        ensures value { result ≡ ordinal_of (wall_day self) }
        ensures in_range { IsInRange 1 366 result }
    {
        year_leap_ordinal(self.day_number()).2
    }

    /// As [`Date::iso_week`], of the day in UTC.
    ///
    /// ```
    /// let at = Timestamp::from_seconds(1_577_664_000)?;
    /// assert_eq!(rt; at.iso_week(), 1);
    /// ```
    pub fn iso_week(self) -> u8
        ensures value { result ≡ iso_week_of (wall_day self) }
        ensures in_range { IsInRange 1 53 result }
    {
        self.date().iso_week()
    }

    /// As [`Date::sunday_based_week`], of the day in UTC.
    ///
    /// ```
    /// let at = Timestamp::from_seconds(1_577_664_000)?;
    /// assert_eq!(rt; at.sunday_based_week(), 52);
    /// ```
    pub fn sunday_based_week(self) -> u8
        ensures value { result ≡ sunday_week_of (wall_day self) }
        ensures in_range { result ≤ 53 }
    {
        self.date().sunday_based_week()
    }

    /// As [`Date::monday_based_week`], of the day in UTC.
    ///
    /// ```
    /// let at = Timestamp::from_seconds(1_577_664_000)?;
    /// assert_eq!(rt; at.monday_based_week(), 52);
    /// ```
    pub fn monday_based_week(self) -> u8
        ensures value { result ≡ monday_week_of (wall_day self) }
        ensures in_range { result ≤ 53 }
    {
        self.date().monday_based_week()
    }

    /// As [`Date::to_calendar_date`], of the day in UTC.
    ///
    /// ```
    /// let at = Timestamp::from_seconds(1_577_664_000)?;
    /// assert_eq!(rt; at.to_calendar_date(), (2019, Month::December, 30));
    /// ```
    pub fn to_calendar_date(self) -> (i32, Month, u8)
        ensures { IsCalendarDateOf (wall_day self) result }
    {
        let (year, is_leap, ordinal) = year_leap_ordinal(self.day_number());
        let (month, day) = leap_ordinal_to_month_day(is_leap, ordinal);
        (year, month, day)
    }

    /// As [`Date::to_ordinal_date`], of the day in UTC.
    ///
    /// ```
    /// let at = Timestamp::from_seconds(1_577_664_000)?;
    /// assert_eq!(rt; at.to_ordinal_date(), (2019, 364));
    /// ```
    pub fn to_ordinal_date(self) -> (i32, u16)
        ensures { IsOrdinalDateOf (wall_day self) result }
    {
        let (year, _, ordinal) = year_leap_ordinal(self.day_number());
        (year, ordinal)
    }

    /// As [`Date::to_iso_week_date`], of the day in UTC.
    ///
    /// ```
    /// let at = Timestamp::from_seconds(1_577_664_000)?;
    /// assert_eq!(rt; at.to_iso_week_date(), (2020, 1, Weekday::Monday));
    /// ```
    pub fn to_iso_week_date(self) -> (i32, u8, Weekday)
        ensures { IsIsoWeekDateOf (wall_day self) result }
    {
        self.date().to_iso_week_date()
    }

    /// As [`Date::weekday`], of the day in UTC.
    ///
    /// ```
    /// let at = Timestamp::from_seconds(1_577_664_000)?;
    /// assert_eq!(rt; at.weekday(), Weekday::Monday);
    /// ```
    pub fn weekday(self) -> Weekday
        ensures { weekday_number result ≡ weekday_of (wall_day self) }
    {
        Weekday::of_number(self.days_from_monday())
    }

    // How many days the date comes after a Monday.
    #[tactic(auto, using(crate::proofs::HeldInstantLemmas::weekdays_of_seconds))]
    fn days_from_monday(self) -> u8
        ensures value { result ≡ weekday_of (wall_day self) }
        ensures in_range { result < 7 }
    {
        ((self.day_number() + DAYS_FROM_MONDAY) as u32 % 7) as u8
    }

    /// As [`Date::to_julian_day`], of the day in UTC.
    ///
    /// ```
    /// let at = Timestamp::from_seconds(1_577_664_000)?;
    /// assert_eq!(rt; at.to_julian_day(), 2_458_848);
    /// ```
    pub fn to_julian_day(self) -> i32
        ensures value { result ≡ julian_day_of (wall_day self) }
        ensures self_in_range { IsInstant self }
    {
        self.day_number() + EPOCH_JULIAN_DAY
    }

    /// As [`Time::as_hms`], of the time of day in UTC.
    ///
    /// ```
    /// let at = Timestamp::new(1_577_710_979, 480_300_002)?;
    /// assert_eq!(rt; at.as_hms(), (13, 2, 59));
    /// ```
    pub fn as_hms(self) -> (u8, u8, u8)
        ensures value { let c = wall_time self in result ≡ (hour_of c, minute_of c, second_of c) }
        ensures in_range { AreTimeParts result.0 result.1 result.2 0 }
    {
        self.time().as_hms()
    }

    /// As [`Time::as_hms_milli`], of the time of day in UTC.
    ///
    /// ```
    /// let at = Timestamp::new(1_577_710_979, 480_300_002)?;
    /// assert_eq!(rt; at.as_hms_milli(), (13, 2, 59, 480));
    /// ```
    pub fn as_hms_milli(self) -> (u8, u8, u8, u16)
        ensures value { let c = wall_time self in
            result ≡ (hour_of c, minute_of c, second_of c, millisecond_of c) }
        ensures in_range { AreTimeParts result.0 result.1 result.2
            (result.3 * nanos_per_millisecond) }
    {
        let (hour, minute, second) = self.as_hms();
        (hour, minute, second, self.millisecond())
    }

    /// As [`Time::as_hms_micro`], of the time of day in UTC.
    ///
    /// ```
    /// let at = Timestamp::new(1_577_710_979, 480_300_002)?;
    /// assert_eq!(rt; at.as_hms_micro(), (13, 2, 59, 480_300));
    /// ```
    pub fn as_hms_micro(self) -> (u8, u8, u8, u32)
        ensures value { let c = wall_time self in
            result ≡ (hour_of c, minute_of c, second_of c, microsecond_of c) }
        ensures in_range { AreTimeParts result.0 result.1 result.2
            (result.3 * nanos_per_microsecond) }
    {
        let (hour, minute, second) = self.as_hms();
        (hour, minute, second, self.microsecond())
    }

    /// As [`Time::as_hms_nano`], of the time of day in UTC.
    ///
    /// ```
    /// let at = Timestamp::new(1_577_710_979, 480_300_002)?;
    /// assert_eq!(rt; at.as_hms_nano(), (13, 2, 59, 480_300_002));
    /// ```
    pub fn as_hms_nano(self) -> (u8, u8, u8, u32)
        ensures value { let c = wall_time self in
            result ≡ (hour_of c, minute_of c, second_of c, nanosecond_of c) }
        ensures in_range { AreTimeParts result.0 result.1 result.2 result.3 }
    {
        let (hour, minute, second) = self.as_hms();
        (hour, minute, second, self.nanosecond())
    }

    /// As [`Time::hour`], of the time of day in UTC.
    ///
    /// ```
    /// let at = Timestamp::new(1_577_710_979, 480_300_002)?;
    /// assert_eq!(rt; at.hour(), 13);
    /// ```
    pub fn hour(self) -> u8
        ensures value { result ≡ hour_of (wall_time self) }
        ensures in_range { result ≤ 23 }
    {
        self.time().hour()
    }

    /// As [`Time::minute`], of the time of day in UTC.
    ///
    /// ```
    /// let at = Timestamp::new(1_577_710_979, 480_300_002)?;
    /// assert_eq!(rt; at.minute(), 2);
    /// ```
    pub fn minute(self) -> u8
        ensures value { result ≡ minute_of (wall_time self) }
        ensures in_range { result ≤ 59 }
    {
        self.time().minute()
    }

    /// As [`Time::second`], of the time of day in UTC.
    ///
    /// ```
    /// let at = Timestamp::new(1_577_710_979, 480_300_002)?;
    /// assert_eq!(rt; at.second(), 59);
    /// ```
    pub fn second(self) -> u8
        ensures value { result ≡ second_of (wall_time self) }
        ensures in_range { result ≤ 59 }
    {
        self.time().second()
    }

    /// As [`Time::millisecond`], of the time of day in UTC.
    ///
    /// ```
    /// let at = Timestamp::new(1_577_710_979, 480_300_002)?;
    /// assert_eq!(rt; at.millisecond(), 480);
    /// ```
    pub fn millisecond(self) -> u16
        ensures value { result ≡ millisecond_of (wall_time self) }
        ensures in_range { result ≤ 999 }
    {
        (self.nanosecond() / 1_000_000) as u16
    }

    /// As [`Time::microsecond`], of the time of day in UTC.
    ///
    /// ```
    /// let at = Timestamp::new(1_577_710_979, 480_300_002)?;
    /// assert_eq!(rt; at.microsecond(), 480_300);
    /// ```
    pub fn microsecond(self) -> u32
        ensures value { result ≡ microsecond_of (wall_time self) }
        ensures in_range { result ≤ 999_999 }
    {
        self.nanosecond() / 1_000
    }

    /// As [`Time::nanosecond`], of the time of day in UTC.
    ///
    /// ```
    /// let at = Timestamp::new(1_577_710_979, 480_300_002)?;
    /// assert_eq!(rt; at.nanosecond(), 480_300_002);
    /// ```
    #[tactic(auto, using(crate::proofs::HeldInstantLemmas::unix_parts))]
    pub fn nanosecond(self) -> u32
        ensures value { result ≡ nanosecond_of (wall_time self) }
        ensures in_range { result ≤ 999_999_999 }
    {
        self.nanosecond
    }
}
