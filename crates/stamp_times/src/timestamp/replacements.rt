//! A timestamp with a part of its date or of its time of day replaced, in UTC.
ghost use Rattle.std.specs.Prelude.{◌≡◌, ◌<◌, ◌+◌, ◌*◌, IfOk};
ghost use Rattle.calendar_values.specs.Clock.{nanos_per_second, clock_of_parts, hour_of, minute_of, second_of};
ghost use Rattle.calendar_values.specs.Month.{month_number};
ghost use Rattle.calendar_values.specs.Outcomes.{Gives};
ghost use Rattle.calendar_values.specs.Range.{IsDay};
ghost use Rattle.calendar_values.specs.WallClock.{wall_clock, wall_time};
ghost use Rattle.plain_times.specs.Replacements.{with_time, ReplacesDate, ReplacesTime, wall_year_outcome, wall_month_outcome, wall_day_outcome};
ghost use Rattle.plain_times.specs.Replacements.{wall_ordinal_outcome, wall_hour_outcome, wall_minute_outcome, wall_second_outcome};
ghost use Rattle.plain_times.specs.Replacements.{wall_millisecond_outcome, wall_microsecond_outcome, wall_nanosecond_outcome, ShowsYear, ShowsMonth};
ghost use Rattle.plain_times.specs.Replacements.{ShowsDay, ShowsOrdinal, ShowsHour, ShowsMinute, ShowsSecond, ShowsMillisecond, ShowsMicrosecond};
ghost use Rattle.plain_times.specs.Replacements.{ShowsNanosecond};

use crate::Timestamp;
use calendar_values::units::SECONDS_PER_DAY;
use calendar_values::{ComponentRange, Date, Month, Part, Time};

impl Timestamp {
    /// The same date in UTC at another time of day.
    ///
    /// ```
    /// let at = Timestamp::from_seconds(1_709_164_800)?;
    /// let noon = Time::from_hms(12, 0, 0)?;
    /// assert_eq!(rt; at.replace_time(noon).time(), noon);
    /// assert_eq!(rt; at.replace_time(noon).day(), 29);
    /// ```
    #[tactic(auto, using(plain_times::specs::ReplacementLemmas::replaced, plain_times::specs::DaysLaterLemmas::within_a_day), unfolding(plain_times::specs::Replacements::with_time))]
    pub fn replace_time(self, time: Time) -> Timestamp
        ensures { ReplacesTime self time result }
    {
        instant_on_day(self.day_number(), time.second_of_day(), time.nanosecond())
    }

    /// The same time of day in UTC on another date.
    ///
    /// ```
    /// let at = Timestamp::new(1_577_710_979, 480_300_002)?;
    /// assert_eq!(rt;
    ///     at.replace_date(Date::from_calendar_date(2024, Month::February, 29)?).as_hms(),
    ///     (13, 2, 59)
    /// );
    /// ```
    #[tactic(auto, unfolding(plain_times::specs::Replacements::with_date))]
    pub fn replace_date(self, date: Date) -> Timestamp
        ensures { ReplacesDate self date result }
    {
        instant_on_day(
            date.days_since_epoch(),
            self.second_of_day(),
            self.nanosecond(),
        )
    }

    /// As [`Date::replace_year`], of the day in UTC, with the time of day kept.
    ///
    /// ```
    /// let at = Timestamp::from_seconds(1_709_164_800)?;
    /// assert_eq!(rt; at.replace_year(2028)?.to_ordinal_date(), (2028, 60));
    /// assert_eq!(rt; at.replace_year(2023), Err(ComponentRange::new("day", true)));
    /// ```
    pub fn replace_year(self, year: i32) -> Result<Timestamp, ComponentRange>
        ensures value { Gives result (wall_year_outcome self year) }
        ensures shown { IfOk result (ShowsYear self year) }
    {
        match self.date().replace_year(year) {
            Ok(date) => Ok(self.replace_date(date)),
            Err(refusal) => Err(refusal),
        }
    }

    /// As [`Date::replace_month`], of the day in UTC, with the time of day kept.
    ///
    /// ```
    /// let at = Timestamp::from_seconds(1_706_659_200)?;
    /// assert_eq!(rt; at.replace_month(Month::March)?.ordinal(), 91);
    /// assert_eq!(rt; at.replace_month(Month::April), Err(ComponentRange::new("day", true)));
    /// ```
    pub fn replace_month(self, month: Month) -> Result<Timestamp, ComponentRange>
        ensures value { Gives result (wall_month_outcome self (month_number month)) }
        ensures shown { IfOk result (ShowsMonth self (month_number month)) }
    {
        match self.date().replace_month(month) {
            Ok(date) => Ok(self.replace_date(date)),
            Err(refusal) => Err(refusal),
        }
    }

    /// As [`Date::replace_day`], of the day in UTC, with the time of day kept.
    ///
    /// ```
    /// let at = Timestamp::from_seconds(1_709_164_800)?;
    /// assert_eq!(rt; at.replace_day(1)?.ordinal(), 32);
    /// assert_eq!(rt; at.replace_day(30), Err(ComponentRange::new("day", true)));
    /// ```
    pub fn replace_day(self, day: u8) -> Result<Timestamp, ComponentRange>
        ensures value { Gives result (wall_day_outcome self day) }
        ensures shown { IfOk result (ShowsDay self day) }
    {
        match self.date().replace_day(day) {
            Ok(date) => Ok(self.replace_date(date)),
            Err(refusal) => Err(refusal),
        }
    }

    /// As [`Date::replace_ordinal`], of the day in UTC, with the time of day kept.
    ///
    /// ```
    /// let at = Timestamp::from_seconds(1_709_164_800)?;
    /// assert_eq!(rt; at.replace_ordinal(366)?.to_calendar_date(), (2024, Month::December, 31));
    /// assert_eq!(rt; at.replace_ordinal(367), Err(ComponentRange::new("ordinal", false)));
    /// ```
    pub fn replace_ordinal(self, ordinal: u16) -> Result<Timestamp, ComponentRange>
        ensures value { Gives result (wall_ordinal_outcome self ordinal) }
        ensures shown { IfOk result (ShowsOrdinal self ordinal) }
    {
        match self.date().replace_ordinal(ordinal) {
            Ok(date) => Ok(self.replace_date(date)),
            Err(refusal) => Err(refusal),
        }
    }

    /// As [`Time::replace_hour`], of the time of day in UTC, with the date kept.
    ///
    /// ```
    /// let at = Timestamp::new(1_577_710_979, 480_300_002)?;
    /// assert_eq!(rt; at.replace_hour(0)?.as_hms_nano(), (0, 2, 59, 480_300_002));
    /// assert_eq!(rt; at.replace_hour(24), Err(ComponentRange::new("hour", false)));
    /// ```
    #[tactic(auto, using(plain_times::specs::ReplacementLemmas::replaced_times))]
    pub fn replace_hour(self, hour: u8) -> Result<Timestamp, ComponentRange>
        ensures value { Gives result (wall_hour_outcome self hour) }
        ensures shown { IfOk result (ShowsHour self hour) }
    {
        match self.time().replace_hour(hour) {
            Ok(time) => Ok(self.replace_time(time)),
            Err(refusal) => Err(refusal),
        }
    }

    /// As [`Time::replace_minute`], of the time of day in UTC, with the date kept.
    ///
    /// ```
    /// let at = Timestamp::new(1_577_710_979, 480_300_002)?;
    /// assert_eq!(rt; at.replace_minute(30)?.as_hms_nano(), (13, 30, 59, 480_300_002));
    /// assert_eq!(rt; at.replace_minute(60), Err(ComponentRange::new("minute", false)));
    /// ```
    #[tactic(auto, using(plain_times::specs::ReplacementLemmas::replaced_times))]
    pub fn replace_minute(self, minute: u8) -> Result<Timestamp, ComponentRange>
        ensures value { Gives result (wall_minute_outcome self minute) }
        ensures shown { IfOk result (ShowsMinute self minute) }
    {
        match self.time().replace_minute(minute) {
            Ok(time) => Ok(self.replace_time(time)),
            Err(refusal) => Err(refusal),
        }
    }

    /// As [`Time::replace_second`], of the time of day in UTC, with the date kept.
    ///
    /// ```
    /// let at = Timestamp::new(1_577_710_979, 480_300_002)?;
    /// assert_eq!(rt; at.replace_second(0)?.as_hms_nano(), (13, 2, 0, 480_300_002));
    /// assert_eq!(rt; at.replace_second(60), Err(ComponentRange::new("second", false)));
    /// ```
    #[tactic(auto, using(plain_times::specs::ReplacementLemmas::replaced_times))]
    pub fn replace_second(self, second: u8) -> Result<Timestamp, ComponentRange>
        ensures value { Gives result (wall_second_outcome self second) }
        ensures shown { IfOk result (ShowsSecond self second) }
    {
        match self.time().replace_second(second) {
            Ok(time) => Ok(self.replace_time(time)),
            Err(refusal) => Err(refusal),
        }
    }

    /// As [`Time::replace_millisecond`], of the time of day in UTC, with the date kept: the Unix
    /// second is kept, before 1970 too.
    ///
    /// ```
    /// let at = Timestamp::new(1_577_710_979, 480_300_002)?;
    /// assert_eq!(rt; at.replace_millisecond(7)?.as_hms_nano(), (13, 2, 59, 7_000_000));
    /// assert_eq!(rt;
    ///     at.replace_millisecond(1_000),
    ///     Err(ComponentRange::new("millisecond", false))
    /// );
    /// ```
    pub fn replace_millisecond(self, millisecond: u16) -> Result<Timestamp, ComponentRange>
        ensures value { Gives result (wall_millisecond_outcome self millisecond) }
        ensures shown { IfOk result (ShowsMillisecond self millisecond) }
    {
        if millisecond > 999 {
            return Err(ComponentRange::of_part(Part::Millisecond, false));
        }
        Ok(self.with_nanosecond(millisecond as u32 * 1_000_000))
    }

    /// As [`Time::replace_microsecond`], of the time of day in UTC, with the date kept: the Unix
    /// second is kept, before 1970 too.
    ///
    /// ```
    /// let at = Timestamp::new(1_577_710_979, 480_300_002)?;
    /// assert_eq!(rt; at.replace_microsecond(7)?.as_hms_nano(), (13, 2, 59, 7_000));
    /// assert_eq!(rt;
    ///     at.replace_microsecond(1_000_000),
    ///     Err(ComponentRange::new("microsecond", false))
    /// );
    /// ```
    pub fn replace_microsecond(self, microsecond: u32) -> Result<Timestamp, ComponentRange>
        ensures value { Gives result (wall_microsecond_outcome self microsecond) }
        ensures shown { IfOk result (ShowsMicrosecond self microsecond) }
    {
        if microsecond > 999_999 {
            return Err(ComponentRange::of_part(Part::Microsecond, false));
        }
        Ok(self.with_nanosecond(microsecond * 1_000))
    }

    /// As [`Time::replace_nanosecond`], of the time of day in UTC, with the date kept: the Unix
    /// second is kept, before 1970 too.
    ///
    /// ```
    /// let at = Timestamp::new(1_577_710_979, 480_300_002)?;
    /// assert_eq!(rt; at.replace_nanosecond(7)?.as_hms_nano(), (13, 2, 59, 7));
    /// assert_eq!(rt;
    ///     at.replace_nanosecond(1_000_000_000),
    ///     Err(ComponentRange::new("nanosecond", false))
    /// );
    /// ```
    pub fn replace_nanosecond(self, nanosecond: u32) -> Result<Timestamp, ComponentRange>
        ensures value { Gives result (wall_nanosecond_outcome self nanosecond) }
        ensures shown { IfOk result (ShowsNanosecond self nanosecond) }
    {
        if nanosecond > 999_999_999 {
            return Err(ComponentRange::of_part(Part::Nanosecond, false));
        }
        Ok(self.with_nanosecond(nanosecond))
    }

    // The same second with another nanosecond.
    #[tactic(auto, using(crate::proofs::HeldInstantLemmas::replaced_nanoseconds))]
    fn with_nanosecond(self, nanosecond: u32) -> Timestamp
        requires { nanosecond < nanos_per_second }
        ensures { let c = wall_time self in result ≡
            with_time self (clock_of_parts (hour_of c) (minute_of c) (second_of c) nanosecond) }
    {
        Timestamp { nanosecond, ..self }
    }
}

// The instant of a day, a second of the day and a nanosecond of the second.
#[tactic(auto, using(crate::proofs::HeldInstantLemmas::unix_counts))]
fn instant_on_day(day: i32, second: u32, nanosecond: u32) -> Timestamp
    requires day { IsDay day }
    requires second { second < 86_400 }
    requires nanosecond { nanosecond < nanos_per_second }
    ensures { result ≡ wall_clock day (second * nanos_per_second + nanosecond) }
{
    Timestamp {
        seconds: day as i64 * SECONDS_PER_DAY + second as i64,
        nanosecond,
    }
}
