//! Date-times with a part replaced, or truncated to a unit of time: the wall clock is, and the
//! offset stays.
ghost use Rattle.std.specs.Prelude.{IfOk, ◌≡◌, ◌*◌, pos, ◌+ℤ◌, ◌-ℤ◌, ◌<ℤ◌, ◌≤ℤ◌};
ghost use Rattle.calendar_values.specs.Clock.{nanos_per_day, nanos_per_hour, nanos_per_minute, nanos_per_second, nanos_per_millisecond, nanos_per_microsecond};
ghost use Rattle.calendar_values.specs.Month.{month_number};
ghost use Rattle.calendar_values.specs.Outcomes.{Gives, within};
ghost use Rattle.calendar_values.specs.WallClock.{wall_clock, wall_day, wall_time};
ghost use Rattle.plain_times.specs.Replacements.{with_date, with_time, ReplacesDate, ReplacesTime, wall_year_outcome, wall_month_outcome};
ghost use Rattle.plain_times.specs.Replacements.{wall_day_outcome, wall_ordinal_outcome, wall_hour_outcome, wall_minute_outcome, wall_second_outcome};
ghost use Rattle.plain_times.specs.Replacements.{wall_millisecond_outcome, wall_microsecond_outcome, wall_nanosecond_outcome, ShowsYear, ShowsMonth};
ghost use Rattle.plain_times.specs.Replacements.{ShowsDay, ShowsOrdinal, ShowsHour, ShowsMinute, ShowsSecond, ShowsMillisecond, ShowsMicrosecond};
ghost use Rattle.plain_times.specs.Replacements.{ShowsNanosecond};
ghost use Rattle.plain_times.specs.Truncations.{TruncatesTo};
ghost use Rattle.offset_times.specs.Local.{wall_at, at_offset_of, local_multiple_below, offset_nanos, instant_of, SameOffset};

use crate::{Assume, OffsetDateTime};
use calendar_values::{ComponentRange, Date, Month, Time, UtcOffset};
use plain_times::PlainDateTime;

impl OffsetDateTime {
    /// The same offset with another date and time of day.
    ///
    /// ```
    /// let west = UtcOffset::from_hms(-8, 0, 0)?;
    /// let at = OffsetDateTime::UNIX_EPOCH.replace_offset(west);
    /// assert_eq!(rt; at.replace_date_time(PlainDateTime::MAX).date(), Date::MAX);
    /// assert_eq!(rt; at.replace_date_time(PlainDateTime::MAX).offset(), west);
    /// ```
    #[tactic(auto, using(crate::specs::InstantLemmas::same_offset))]
    pub fn replace_date_time(self, date_time: PlainDateTime) -> OffsetDateTime
        ensures value { result ≡ at_offset_of self date_time }
        ensures instant { SameOffset self result }
    {
        date_time.assume_offset(self.offset())
    }

    /// The same date and time of day at another offset, so at another instant.
    ///
    /// ```
    /// let west = UtcOffset::from_hms(-8, 0, 0)?;
    /// let at = OffsetDateTime::UNIX_EPOCH.replace_offset(west);
    /// assert_eq!(rt; at.hour(), 0);
    /// assert_eq!(rt; at.unix_timestamp(), 28_800);
    /// ```
    pub fn replace_offset(self, offset: UtcOffset) -> OffsetDateTime
        ensures value { result ≡ wall_at self.wall offset }
        ensures instant { instant_of result ≡ self.wall -ℤ offset_nanos offset }
    {
        self.date_time().assume_offset(offset)
    }

    /// The same date at another time of day, at the same offset.
    ///
    /// ```
    /// let date = Date::from_calendar_date(2024, Month::February, 29)?;
    /// let east = UtcOffset::from_hms(9, 0, 0)?;
    /// let at = OffsetDateTime::new_in_offset(date, Time::MIDNIGHT, east);
    /// let noon = Time::from_hms(12, 0, 0)?;
    /// assert_eq!(rt; at.replace_time(noon).time(), noon);
    /// assert_eq!(rt; at.replace_time(noon).day(), 29);
    /// ```
    pub fn replace_time(self, time: Time) -> OffsetDateTime
        ensures value { result ≡ at_offset_of self (with_time self.wall time) }
        ensures wall { ReplacesTime self.wall time result.wall }
        ensures instant { SameOffset self result }
        ensures not_a_day_later { instant_of result <ℤ (instant_of self +ℤ pos nanos_per_day) }
        ensures not_a_day_earlier { instant_of self <ℤ (instant_of result +ℤ pos nanos_per_day) }
    {
        self.replace_date_time(self.date_time().replace_time(time))
    }

    /// The same time of day on another date, at the same offset.
    ///
    /// ```
    /// let time = Time::from_hms_nano(13, 2, 59, 480_300_002)?;
    /// let date = Date::from_calendar_date(2019, Month::December, 30)?;
    /// let at = OffsetDateTime::new_in_offset(date, time, UtcOffset::from_hms(9, 0, 0)?);
    /// assert_eq!(rt;
    ///     at.replace_date(Date::from_calendar_date(2024, Month::February, 29)?).to_hms(),
    ///     (13, 2, 59)
    /// );
    /// ```
    pub fn replace_date(self, date: Date) -> OffsetDateTime
        ensures value { result ≡ at_offset_of self (with_date self.wall date) }
        ensures wall { ReplacesDate self.wall date result.wall }
        ensures instant { SameOffset self result }
    {
        self.replace_date_time(self.date_time().replace_date(date))
    }

    /// As [`Date::replace_year`], of the day of the wall clock, with the time of day and the offset
    /// kept.
    ///
    /// ```
    /// let date = Date::from_calendar_date(2024, Month::February, 29)?;
    /// let east = UtcOffset::from_hms(9, 0, 0)?;
    /// let at = OffsetDateTime::new_in_offset(date, Time::MIDNIGHT, east);
    /// assert_eq!(rt; at.replace_year(2028)?.to_ordinal_date(), (2028, 60));
    /// assert_eq!(rt; at.replace_year(2023), Err(ComponentRange::new("day", true)));
    /// ```
    pub fn replace_year(self, year: i32) -> Result<OffsetDateTime, ComponentRange>
        ensures value { let w = self.wall in
            Gives result (within (at_offset_of self) (wall_year_outcome w year)) }
        ensures shown { IfOk result (λ at. ShowsYear self.wall year at.wall) }
        ensures instant { IfOk result (λ at. SameOffset self at) }
    {
        match self.date_time().replace_year(year) {
            Ok(date_time) => Ok(self.replace_date_time(date_time)),
            Err(refusal) => Err(refusal),
        }
    }

    /// As [`Date::replace_month`], of the day of the wall clock, with the time of day and the
    /// offset kept.
    ///
    /// ```
    /// let date = Date::from_calendar_date(2024, Month::January, 31)?;
    /// let east = UtcOffset::from_hms(9, 0, 0)?;
    /// let at = OffsetDateTime::new_in_offset(date, Time::MIDNIGHT, east);
    /// assert_eq!(rt; at.replace_month(Month::March)?.ordinal(), 91);
    /// assert_eq!(rt; at.replace_month(Month::April), Err(ComponentRange::new("day", true)));
    /// ```
    pub fn replace_month(self, month: Month) -> Result<OffsetDateTime, ComponentRange>
        ensures value { let w = self.wall in
            Gives result (within (at_offset_of self) (wall_month_outcome w (month_number month))) }
        ensures shown { IfOk result (λ at. ShowsMonth self.wall (month_number month) at.wall) }
        ensures instant { IfOk result (λ at. SameOffset self at) }
    {
        match self.date_time().replace_month(month) {
            Ok(date_time) => Ok(self.replace_date_time(date_time)),
            Err(refusal) => Err(refusal),
        }
    }

    /// As [`Date::replace_day`], of the day of the wall clock, with the time of day and the offset
    /// kept.
    ///
    /// ```
    /// let date = Date::from_calendar_date(2024, Month::February, 29)?;
    /// let east = UtcOffset::from_hms(9, 0, 0)?;
    /// let at = OffsetDateTime::new_in_offset(date, Time::MIDNIGHT, east);
    /// assert_eq!(rt; at.replace_day(1)?.ordinal(), 32);
    /// assert_eq!(rt; at.replace_day(30), Err(ComponentRange::new("day", true)));
    /// ```
    pub fn replace_day(self, day: u8) -> Result<OffsetDateTime, ComponentRange>
        ensures value { let w = self.wall in
            Gives result (within (at_offset_of self) (wall_day_outcome w day)) }
        ensures shown { IfOk result (λ at. ShowsDay self.wall day at.wall) }
        ensures instant { IfOk result (λ at. SameOffset self at) }
    {
        match self.date_time().replace_day(day) {
            Ok(date_time) => Ok(self.replace_date_time(date_time)),
            Err(refusal) => Err(refusal),
        }
    }

    /// As [`Date::replace_ordinal`], of the day of the wall clock, with the time of day and the
    /// offset kept.
    ///
    /// ```
    /// let date = Date::from_calendar_date(2024, Month::February, 29)?;
    /// let east = UtcOffset::from_hms(9, 0, 0)?;
    /// let at = OffsetDateTime::new_in_offset(date, Time::MIDNIGHT, east);
    /// assert_eq!(rt; at.replace_ordinal(366)?.to_calendar_date(), (2024, Month::December, 31));
    /// assert_eq!(rt; at.replace_ordinal(367), Err(ComponentRange::new("ordinal", false)));
    /// ```
    pub fn replace_ordinal(self, ordinal: u16) -> Result<OffsetDateTime, ComponentRange>
        ensures value { let w = self.wall in
            Gives result (within (at_offset_of self) (wall_ordinal_outcome w ordinal)) }
        ensures shown { IfOk result (λ at. ShowsOrdinal self.wall ordinal at.wall) }
        ensures instant { IfOk result (λ at. SameOffset self at) }
    {
        match self.date_time().replace_ordinal(ordinal) {
            Ok(date_time) => Ok(self.replace_date_time(date_time)),
            Err(refusal) => Err(refusal),
        }
    }

    /// The first nanosecond of the day that it is in, by the wall clock, at the same offset.
    ///
    /// ```
    /// let time = Time::from_hms_nano(13, 2, 59, 480_300_002)?;
    /// let date = Date::from_calendar_date(2019, Month::December, 30)?;
    /// let at = OffsetDateTime::new_in_offset(date, time, UtcOffset::from_hms(9, 0, 0)?);
    /// assert_eq!(rt; at.truncate_to_day().to_hms_nano(), (0, 0, 0, 0));
    /// ```
    pub fn truncate_to_day(self) -> OffsetDateTime
        ensures value { result ≡ local_multiple_below nanos_per_day self }
        ensures midnight { result ≡ at_offset_of self (wall_clock (wall_day self.wall) 0) }
        ensures date { wall_day result.wall ≡ wall_day self.wall }
        ensures time { wall_time result.wall ≡ 0 }
        ensures wall { TruncatesTo nanos_per_day self.wall result.wall }
        ensures instant { SameOffset self result }
        ensures not_after { instant_of result ≤ℤ instant_of self }
        ensures within { instant_of self <ℤ (instant_of result +ℤ pos nanos_per_day) }
    {
        self.replace_date_time(self.date_time().truncate_to_day())
    }

    /// As [`Time::replace_hour`], of the time of day of the wall clock, with the date and the
    /// offset kept.
    ///
    /// ```
    /// let time = Time::from_hms_nano(13, 2, 59, 480_300_002)?;
    /// let date = Date::from_calendar_date(2019, Month::December, 30)?;
    /// let at = OffsetDateTime::new_in_offset(date, time, UtcOffset::from_hms(9, 0, 0)?);
    /// assert_eq!(rt; at.replace_hour(0)?.to_hms_nano(), (0, 2, 59, 480_300_002));
    /// assert_eq!(rt; at.replace_hour(24), Err(ComponentRange::new("hour", false)));
    /// ```
    pub fn replace_hour(self, hour: u8) -> Result<OffsetDateTime, ComponentRange>
        ensures value { let w = self.wall in
            Gives result (within (at_offset_of self) (wall_hour_outcome w hour)) }
        ensures shown { IfOk result (λ at. ShowsHour self.wall hour at.wall) }
        ensures instant { IfOk result (λ at. SameOffset self at) }
    {
        match self.date_time().replace_hour(hour) {
            Ok(date_time) => Ok(self.replace_date_time(date_time)),
            Err(refusal) => Err(refusal),
        }
    }

    /// The first nanosecond of the hour that it is in, by the wall clock, at the same offset.
    ///
    /// ```
    /// let time = Time::from_hms_nano(13, 2, 59, 480_300_002)?;
    /// let date = Date::from_calendar_date(2019, Month::December, 30)?;
    /// let at = OffsetDateTime::new_in_offset(date, time, UtcOffset::from_hms(9, 0, 0)?);
    /// assert_eq!(rt; at.truncate_to_hour().to_hms_nano(), (13, 0, 0, 0));
    /// ```
    pub fn truncate_to_hour(self) -> OffsetDateTime
        ensures value { result ≡ local_multiple_below nanos_per_hour self }
        ensures wall { TruncatesTo nanos_per_hour self.wall result.wall }
        ensures instant { SameOffset self result }
        ensures not_after { instant_of result ≤ℤ instant_of self }
        ensures within { instant_of self <ℤ (instant_of result +ℤ pos nanos_per_hour) }
    {
        self.replace_date_time(self.date_time().truncate_to_hour())
    }

    /// As [`Time::replace_minute`], of the time of day of the wall clock, with the date and the
    /// offset kept.
    ///
    /// ```
    /// let time = Time::from_hms_nano(13, 2, 59, 480_300_002)?;
    /// let date = Date::from_calendar_date(2019, Month::December, 30)?;
    /// let at = OffsetDateTime::new_in_offset(date, time, UtcOffset::from_hms(9, 0, 0)?);
    /// assert_eq!(rt; at.replace_minute(30)?.to_hms_nano(), (13, 30, 59, 480_300_002));
    /// assert_eq!(rt; at.replace_minute(60), Err(ComponentRange::new("minute", false)));
    /// ```
    pub fn replace_minute(self, minute: u8) -> Result<OffsetDateTime, ComponentRange>
        ensures value { let w = self.wall in
            Gives result (within (at_offset_of self) (wall_minute_outcome w minute)) }
        ensures shown { IfOk result (λ at. ShowsMinute self.wall minute at.wall) }
        ensures instant { IfOk result (λ at. SameOffset self at) }
    {
        match self.date_time().replace_minute(minute) {
            Ok(date_time) => Ok(self.replace_date_time(date_time)),
            Err(refusal) => Err(refusal),
        }
    }

    /// The first nanosecond of the minute that it is in, by the wall clock, at the same offset.
    ///
    /// ```
    /// let time = Time::from_hms_nano(13, 2, 59, 480_300_002)?;
    /// let date = Date::from_calendar_date(2019, Month::December, 30)?;
    /// let at = OffsetDateTime::new_in_offset(date, time, UtcOffset::from_hms(9, 0, 0)?);
    /// assert_eq!(rt; at.truncate_to_minute().to_hms_nano(), (13, 2, 0, 0));
    /// ```
    pub fn truncate_to_minute(self) -> OffsetDateTime
        ensures value { result ≡ local_multiple_below nanos_per_minute self }
        ensures wall { TruncatesTo nanos_per_minute self.wall result.wall }
        ensures instant { SameOffset self result }
        ensures not_after { instant_of result ≤ℤ instant_of self }
        ensures within { instant_of self <ℤ (instant_of result +ℤ pos nanos_per_minute) }
    {
        self.replace_date_time(self.date_time().truncate_to_minute())
    }

    /// As [`Time::replace_second`], of the time of day of the wall clock, with the date and the
    /// offset kept.
    ///
    /// ```
    /// let time = Time::from_hms_nano(13, 2, 59, 480_300_002)?;
    /// let date = Date::from_calendar_date(2019, Month::December, 30)?;
    /// let at = OffsetDateTime::new_in_offset(date, time, UtcOffset::from_hms(9, 0, 0)?);
    /// assert_eq!(rt; at.replace_second(0)?.to_hms_nano(), (13, 2, 0, 480_300_002));
    /// assert_eq!(rt; at.replace_second(60), Err(ComponentRange::new("second", false)));
    /// ```
    pub fn replace_second(self, second: u8) -> Result<OffsetDateTime, ComponentRange>
        ensures value { let w = self.wall in
            Gives result (within (at_offset_of self) (wall_second_outcome w second)) }
        ensures shown { IfOk result (λ at. ShowsSecond self.wall second at.wall) }
        ensures instant { IfOk result (λ at. SameOffset self at) }
    {
        match self.date_time().replace_second(second) {
            Ok(date_time) => Ok(self.replace_date_time(date_time)),
            Err(refusal) => Err(refusal),
        }
    }

    /// The first nanosecond of the second that it is in, by the wall clock, at the same offset.
    ///
    /// ```
    /// let time = Time::from_hms_nano(13, 2, 59, 480_300_002)?;
    /// let date = Date::from_calendar_date(2019, Month::December, 30)?;
    /// let at = OffsetDateTime::new_in_offset(date, time, UtcOffset::from_hms(9, 0, 0)?);
    /// assert_eq!(rt; at.truncate_to_second().to_hms_nano(), (13, 2, 59, 0));
    /// ```
    pub fn truncate_to_second(self) -> OffsetDateTime
        ensures value { result ≡ local_multiple_below nanos_per_second self }
        ensures wall { TruncatesTo nanos_per_second self.wall result.wall }
        ensures instant { SameOffset self result }
        ensures not_after { instant_of result ≤ℤ instant_of self }
        ensures within { instant_of self <ℤ (instant_of result +ℤ pos nanos_per_second) }
    {
        self.replace_date_time(self.date_time().truncate_to_second())
    }

    /// As [`Time::replace_millisecond`], of the time of day of the wall clock, with the date and
    /// the offset kept.
    ///
    /// ```
    /// let time = Time::from_hms_nano(13, 2, 59, 480_300_002)?;
    /// let date = Date::from_calendar_date(2019, Month::December, 30)?;
    /// let at = OffsetDateTime::new_in_offset(date, time, UtcOffset::from_hms(9, 0, 0)?);
    /// assert_eq!(rt; at.replace_millisecond(7)?.to_hms_nano(), (13, 2, 59, 7_000_000));
    /// assert_eq!(rt;
    ///     at.replace_millisecond(1_000),
    ///     Err(ComponentRange::new("millisecond", false))
    /// );
    /// ```
    pub fn replace_millisecond(self, millisecond: u16) -> Result<OffsetDateTime, ComponentRange>
        ensures value { let w = self.wall in
            Gives result (within (at_offset_of self) (wall_millisecond_outcome w millisecond)) }
        ensures shown { IfOk result (λ at. ShowsMillisecond self.wall millisecond at.wall) }
        ensures instant { IfOk result (λ at. SameOffset self at) }
    {
        match self.date_time().replace_millisecond(millisecond) {
            Ok(date_time) => Ok(self.replace_date_time(date_time)),
            Err(refusal) => Err(refusal),
        }
    }

    /// The first nanosecond of the millisecond that it is in, by the wall clock, at the same
    /// offset.
    ///
    /// ```
    /// let time = Time::from_hms_nano(13, 2, 59, 480_300_002)?;
    /// let date = Date::from_calendar_date(2019, Month::December, 30)?;
    /// let at = OffsetDateTime::new_in_offset(date, time, UtcOffset::from_hms(9, 0, 0)?);
    /// assert_eq!(rt; at.truncate_to_millisecond().to_hms_nano(), (13, 2, 59, 480_000_000));
    /// ```
    pub fn truncate_to_millisecond(self) -> OffsetDateTime
        ensures value { result ≡ local_multiple_below nanos_per_millisecond self }
        ensures wall { TruncatesTo nanos_per_millisecond self.wall result.wall }
        ensures instant { SameOffset self result }
        ensures not_after { instant_of result ≤ℤ instant_of self }
        ensures within { instant_of self <ℤ (instant_of result +ℤ pos nanos_per_millisecond) }
    {
        self.replace_date_time(self.date_time().truncate_to_millisecond())
    }

    /// As [`Time::replace_microsecond`], of the time of day of the wall clock, with the date and
    /// the offset kept.
    ///
    /// ```
    /// let time = Time::from_hms_nano(13, 2, 59, 480_300_002)?;
    /// let date = Date::from_calendar_date(2019, Month::December, 30)?;
    /// let at = OffsetDateTime::new_in_offset(date, time, UtcOffset::from_hms(9, 0, 0)?);
    /// assert_eq!(rt; at.replace_microsecond(7)?.to_hms_nano(), (13, 2, 59, 7_000));
    /// assert_eq!(rt;
    ///     at.replace_microsecond(1_000_000),
    ///     Err(ComponentRange::new("microsecond", false))
    /// );
    /// ```
    pub fn replace_microsecond(self, microsecond: u32) -> Result<OffsetDateTime, ComponentRange>
        ensures value { let w = self.wall in
            Gives result (within (at_offset_of self) (wall_microsecond_outcome w microsecond)) }
        ensures shown { IfOk result (λ at. ShowsMicrosecond self.wall microsecond at.wall) }
        ensures instant { IfOk result (λ at. SameOffset self at) }
    {
        match self.date_time().replace_microsecond(microsecond) {
            Ok(date_time) => Ok(self.replace_date_time(date_time)),
            Err(refusal) => Err(refusal),
        }
    }

    /// The first nanosecond of the microsecond that it is in, by the wall clock, at the same
    /// offset.
    ///
    /// ```
    /// let time = Time::from_hms_nano(13, 2, 59, 480_300_002)?;
    /// let date = Date::from_calendar_date(2019, Month::December, 30)?;
    /// let at = OffsetDateTime::new_in_offset(date, time, UtcOffset::from_hms(9, 0, 0)?);
    /// assert_eq!(rt; at.truncate_to_microsecond().to_hms_nano(), (13, 2, 59, 480_300_000));
    /// ```
    pub fn truncate_to_microsecond(self) -> OffsetDateTime
        ensures value { result ≡ local_multiple_below nanos_per_microsecond self }
        ensures wall { TruncatesTo nanos_per_microsecond self.wall result.wall }
        ensures instant { SameOffset self result }
        ensures not_after { instant_of result ≤ℤ instant_of self }
        ensures within { instant_of self <ℤ (instant_of result +ℤ pos nanos_per_microsecond) }
    {
        self.replace_date_time(self.date_time().truncate_to_microsecond())
    }

    /// As [`Time::replace_nanosecond`], of the time of day of the wall clock, with the date and the
    /// offset kept.
    ///
    /// ```
    /// let time = Time::from_hms_nano(13, 2, 59, 480_300_002)?;
    /// let date = Date::from_calendar_date(2019, Month::December, 30)?;
    /// let at = OffsetDateTime::new_in_offset(date, time, UtcOffset::from_hms(9, 0, 0)?);
    /// assert_eq!(rt; at.replace_nanosecond(7)?.to_hms_nano(), (13, 2, 59, 7));
    /// assert_eq!(rt;
    ///     at.replace_nanosecond(1_000_000_000),
    ///     Err(ComponentRange::new("nanosecond", false))
    /// );
    /// ```
    pub fn replace_nanosecond(self, nanosecond: u32) -> Result<OffsetDateTime, ComponentRange>
        ensures value { let w = self.wall in
            Gives result (within (at_offset_of self) (wall_nanosecond_outcome w nanosecond)) }
        ensures shown { IfOk result (λ at. ShowsNanosecond self.wall nanosecond at.wall) }
        ensures instant { IfOk result (λ at. SameOffset self at) }
    {
        match self.date_time().replace_nanosecond(nanosecond) {
            Ok(date_time) => Ok(self.replace_date_time(date_time)),
            Err(refusal) => Err(refusal),
        }
    }
}
