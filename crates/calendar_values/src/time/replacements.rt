//! Times of day with a part replaced, or truncated to a unit of time.
ghost use Rattle.std.specs.Prelude.{◌≡◌, ◌+◌, ◌-◌, ◌*◌, ◌/◌, ◌%◌, ◌<◌, ◌≤◌, IfOk};
ghost use Rattle.calendar_values.specs.Clock.{nanos_per_hour, nanos_per_minute, nanos_per_second, nanos_per_millisecond, nanos_per_microsecond};
ghost use Rattle.calendar_values.specs.Clock.{hour_of, minute_of, second_of, nanosecond_of, HasTimeParts};
ghost use Rattle.calendar_values.specs.Outcomes.{Gives};
ghost use Rattle.calendar_values.specs.Replacements.{hour_outcome, minute_outcome, second_outcome, millisecond_outcome, microsecond_outcome};
ghost use Rattle.calendar_values.specs.Replacements.{nanosecond_outcome};
ghost use Rattle.calendar_values.specs.Truncations.{multiple_below};

use crate::{ComponentRange, Part, Time};

impl Time {
    /// The same time with another hour. Fails with `hour` above 23.
    ///
    /// ```
    /// let time = Time::from_hms_nano(13, 2, 59, 480_300_002)?;
    /// assert_eq!(rt; time.replace_hour(0)?.as_hms_nano(), (0, 2, 59, 480_300_002));
    /// assert_eq!(rt; time.replace_hour(24), Err(ComponentRange::new("hour", false)));
    /// ```
    pub fn replace_hour(self, hour: u8) -> Result<Time, ComponentRange>
        ensures value { Gives result (hour_outcome self hour) }
        ensures shown { IfOk result (λ time.
            HasTimeParts time hour (minute_of self) (second_of self) (nanosecond_of self)) }
    {
        if hour <= 23 {
            Ok(Time { hour, ..self })
        } else {
            Err(ComponentRange::of_part(Part::Hour, false))
        }
    }

    /// The first nanosecond of the hour that the time is in.
    ///
    /// ```
    /// let time = Time::from_hms_nano(13, 2, 59, 480_300_002)?;
    /// assert_eq!(rt; time.truncate_to_hour().as_hms_nano(), (13, 0, 0, 0));
    /// ```
    pub fn truncate_to_hour(self) -> Time
        ensures value { result ≡ multiple_below nanos_per_hour self }
        ensures not_above { result ≤ self }
        ensures within { self < result + nanos_per_hour }
    {
        Time {
            minute: 0,
            second: 0,
            nanosecond: 0,
            ..self
        }
    }

    /// The same time with another minute. Fails with `minute` above 59.
    ///
    /// ```
    /// let time = Time::from_hms_nano(13, 2, 59, 480_300_002)?;
    /// assert_eq!(rt; time.replace_minute(30)?.as_hms_nano(), (13, 30, 59, 480_300_002));
    /// assert_eq!(rt; time.replace_minute(60), Err(ComponentRange::new("minute", false)));
    /// ```
    pub fn replace_minute(self, minute: u8) -> Result<Time, ComponentRange>
        ensures value { Gives result (minute_outcome self minute) }
        ensures shown { IfOk result (λ time.
            HasTimeParts time (hour_of self) minute (second_of self) (nanosecond_of self)) }
    {
        if minute <= 59 {
            Ok(Time { minute, ..self })
        } else {
            Err(ComponentRange::of_part(Part::Minute, false))
        }
    }

    /// The first nanosecond of the minute that the time is in.
    ///
    /// ```
    /// let time = Time::from_hms_nano(13, 2, 59, 480_300_002)?;
    /// assert_eq!(rt; time.truncate_to_minute().as_hms_nano(), (13, 2, 0, 0));
    /// ```
    pub fn truncate_to_minute(self) -> Time
        ensures value { result ≡ multiple_below nanos_per_minute self }
        ensures not_above { result ≤ self }
        ensures within { self < result + nanos_per_minute }
    {
        Time {
            second: 0,
            nanosecond: 0,
            ..self
        }
    }

    /// The same time with another second. Fails with `second` above 59.
    ///
    /// ```
    /// let time = Time::from_hms_nano(13, 2, 59, 480_300_002)?;
    /// assert_eq!(rt; time.replace_second(0)?.as_hms_nano(), (13, 2, 0, 480_300_002));
    /// assert_eq!(rt; time.replace_second(60), Err(ComponentRange::new("second", false)));
    /// ```
    pub fn replace_second(self, second: u8) -> Result<Time, ComponentRange>
        ensures value { Gives result (second_outcome self second) }
        ensures shown { IfOk result (λ time.
            HasTimeParts time (hour_of self) (minute_of self) second (nanosecond_of self)) }
    {
        if second <= 59 {
            Ok(Time { second, ..self })
        } else {
            Err(ComponentRange::of_part(Part::Second, false))
        }
    }

    /// The first nanosecond of the second that the time is in.
    ///
    /// ```
    /// let time = Time::from_hms_nano(13, 2, 59, 480_300_002)?;
    /// assert_eq!(rt; time.truncate_to_second().as_hms_nano(), (13, 2, 59, 0));
    /// ```
    pub fn truncate_to_second(self) -> Time
        ensures value { result ≡ multiple_below nanos_per_second self }
        ensures not_above { result ≤ self }
        ensures within { self < result + nanos_per_second }
    {
        Time {
            nanosecond: 0,
            ..self
        }
    }

    /// The same time with another millisecond of the second, and nothing finer. Fails with
    /// `millisecond` above 999.
    ///
    /// ```
    /// let time = Time::from_hms_nano(13, 2, 59, 480_300_002)?;
    /// assert_eq!(rt; time.replace_millisecond(7)?.as_hms_nano(), (13, 2, 59, 7_000_000));
    /// assert_eq!(rt;
    ///     time.replace_millisecond(1_000),
    ///     Err(ComponentRange::new("millisecond", false))
    /// );
    /// ```
    pub fn replace_millisecond(self, millisecond: u16) -> Result<Time, ComponentRange>
        ensures value { Gives result (millisecond_outcome self millisecond) }
        ensures shown { IfOk result (λ time.
            HasTimeParts time (hour_of self) (minute_of self) (second_of self)
            (millisecond * nanos_per_millisecond)) }
    {
        if millisecond <= 999 {
            Ok(Time {
                nanosecond: millisecond as u32 * 1_000_000,
                ..self
            })
        } else {
            Err(ComponentRange::of_part(Part::Millisecond, false))
        }
    }

    /// The first nanosecond of the millisecond that the time is in.
    ///
    /// ```
    /// let time = Time::from_hms_nano(13, 2, 59, 480_300_002)?;
    /// assert_eq!(rt; time.truncate_to_millisecond().as_hms_nano(), (13, 2, 59, 480_000_000));
    /// ```
    pub fn truncate_to_millisecond(self) -> Time
        ensures value { result ≡ multiple_below nanos_per_millisecond self }
        ensures not_above { result ≤ self }
        ensures within { self < result + nanos_per_millisecond }
    {
        Time {
            nanosecond: self.nanosecond - self.nanosecond % 1_000_000,
            ..self
        }
    }

    /// The same time with another microsecond of the second, and nothing finer. Fails with
    /// `microsecond` above 999,999.
    ///
    /// ```
    /// let time = Time::from_hms_nano(13, 2, 59, 480_300_002)?;
    /// assert_eq!(rt; time.replace_microsecond(7)?.as_hms_nano(), (13, 2, 59, 7_000));
    /// assert_eq!(rt;
    ///     time.replace_microsecond(1_000_000),
    ///     Err(ComponentRange::new("microsecond", false))
    /// );
    /// ```
    pub fn replace_microsecond(self, microsecond: u32) -> Result<Time, ComponentRange>
        ensures value { Gives result (microsecond_outcome self microsecond) }
        ensures shown { IfOk result (λ time.
            HasTimeParts time (hour_of self) (minute_of self) (second_of self)
            (microsecond * nanos_per_microsecond)) }
    {
        if microsecond <= 999_999 {
            Ok(Time {
                nanosecond: microsecond * 1_000,
                ..self
            })
        } else {
            Err(ComponentRange::of_part(Part::Microsecond, false))
        }
    }

    /// The first nanosecond of the microsecond that the time is in.
    ///
    /// ```
    /// let time = Time::from_hms_nano(13, 2, 59, 480_300_002)?;
    /// assert_eq!(rt; time.truncate_to_microsecond().as_hms_nano(), (13, 2, 59, 480_300_000));
    /// ```
    pub fn truncate_to_microsecond(self) -> Time
        ensures value { result ≡ multiple_below nanos_per_microsecond self }
        ensures not_above { result ≤ self }
        ensures within { self < result + nanos_per_microsecond }
    {
        Time {
            nanosecond: self.nanosecond - self.nanosecond % 1_000,
            ..self
        }
    }

    /// The same time with another nanosecond of the second. Fails with `nanosecond` above
    /// 999,999,999.
    ///
    /// ```
    /// let time = Time::from_hms_nano(13, 2, 59, 480_300_002)?;
    /// assert_eq!(rt; time.replace_nanosecond(7)?.as_hms_nano(), (13, 2, 59, 7));
    /// assert_eq!(rt;
    ///     time.replace_nanosecond(1_000_000_000),
    ///     Err(ComponentRange::new("nanosecond", false))
    /// );
    /// ```
    pub fn replace_nanosecond(self, nanosecond: u32) -> Result<Time, ComponentRange>
        ensures value { Gives result (nanosecond_outcome self nanosecond) }
        ensures shown { IfOk result (λ time.
            HasTimeParts time (hour_of self) (minute_of self) (second_of self) nanosecond) }
    {
        if nanosecond <= 999_999_999 {
            Ok(Time { nanosecond, ..self })
        } else {
            Err(ComponentRange::of_part(Part::Nanosecond, false))
        }
    }
}
