//! The parts of a time of day.
ghost use Rattle.std.specs.Prelude.{◌≡◌, ◌+◌, ◌-◌, ◌*◌, ◌/◌, ◌<◌, ◌≤◌};
ghost use Rattle.calendar_values.specs.Clock.{IsClock, AreTimeParts, nanos_per_second, nanos_per_millisecond, nanos_per_microsecond, hour_of};
ghost use Rattle.calendar_values.specs.Clock.{minute_of, second_of, millisecond_of, microsecond_of, nanosecond_of};

use crate::Time;
use crate::units::NANOS_PER_SECOND;

impl Time {
    /// The hour, the minute and the second.
    ///
    /// ```
    /// let time = Time::from_hms_nano(13, 2, 59, 480_300_002)?;
    /// assert_eq!(rt; time.as_hms(), (13, 2, 59));
    /// ```
    pub fn as_hms(self) -> (u8, u8, u8)
        ensures value { result ≡ (hour_of self, minute_of self, second_of self) }
        ensures in_range { AreTimeParts result.0 result.1 result.2 0 }
    {
        (self.hour, self.minute, self.second)
    }

    /// The hour, the minute, the second and the millisecond of the second.
    ///
    /// ```
    /// let time = Time::from_hms_nano(13, 2, 59, 480_300_002)?;
    /// assert_eq!(rt; time.as_hms_milli(), (13, 2, 59, 480));
    /// ```
    pub fn as_hms_milli(self) -> (u8, u8, u8, u16)
        ensures value { result ≡ (
          hour_of self,
          minute_of self,
          second_of self,
          millisecond_of self,
        ) }
        ensures in_range { AreTimeParts result.0 result.1 result.2
            (result.3 * nanos_per_millisecond) }
    {
        (self.hour, self.minute, self.second, self.millisecond())
    }

    /// The hour, the minute, the second and the microsecond of the second.
    ///
    /// ```
    /// let time = Time::from_hms_nano(13, 2, 59, 480_300_002)?;
    /// assert_eq!(rt; time.as_hms_micro(), (13, 2, 59, 480_300));
    /// ```
    pub fn as_hms_micro(self) -> (u8, u8, u8, u32)
        ensures value { result ≡ (
          hour_of self,
          minute_of self,
          second_of self,
          microsecond_of self,
        ) }
        ensures in_range { AreTimeParts result.0 result.1 result.2
            (result.3 * nanos_per_microsecond) }
    {
        (self.hour, self.minute, self.second, self.microsecond())
    }

    /// The hour, the minute, the second and the nanosecond of the second.
    ///
    /// ```
    /// let time = Time::from_hms_nano(13, 2, 59, 480_300_002)?;
    /// assert_eq!(rt; time.as_hms_nano(), (13, 2, 59, 480_300_002));
    /// ```
    pub fn as_hms_nano(self) -> (u8, u8, u8, u32)
        ensures value { result ≡ (
          hour_of self,
          minute_of self,
          second_of self,
          nanosecond_of self,
        ) }
        ensures in_range { AreTimeParts result.0 result.1 result.2 result.3 }
    {
        (self.hour, self.minute, self.second, self.nanosecond)
    }

    /// The hour, 0 to 23.
    ///
    /// ```
    /// let time = Time::from_hms_nano(13, 2, 59, 480_300_002)?;
    /// assert_eq!(rt; time.hour(), 13);
    /// ```
    pub fn hour(self) -> u8
        ensures value { result ≡ hour_of self }
        ensures in_range { result ≤ 23 }
    {
        self.hour
    }

    /// The minute of the hour, 0 to 59.
    ///
    /// ```
    /// let time = Time::from_hms_nano(13, 2, 59, 480_300_002)?;
    /// assert_eq!(rt; time.minute(), 2);
    /// ```
    pub fn minute(self) -> u8
        ensures value { result ≡ minute_of self }
        ensures in_range { result ≤ 59 }
    {
        self.minute
    }

    /// The second of the minute, 0 to 59.
    ///
    /// ```
    /// let time = Time::from_hms_nano(13, 2, 59, 480_300_002)?;
    /// assert_eq!(rt; time.second(), 59);
    /// ```
    pub fn second(self) -> u8
        ensures value { result ≡ second_of self }
        ensures in_range { result ≤ 59 }
    {
        self.second
    }

    /// The millisecond of the second, 0 to 999.
    ///
    /// ```
    /// let time = Time::from_hms_nano(13, 2, 59, 480_300_002)?;
    /// assert_eq!(rt; time.millisecond(), 480);
    /// ```
    pub fn millisecond(self) -> u16
        ensures value { result ≡ millisecond_of self }
        ensures in_range { result ≤ 999 }
    {
        (self.nanosecond / 1_000_000) as u16
    }

    /// The microsecond of the second, 0 to 999,999.
    ///
    /// ```
    /// let time = Time::from_hms_nano(13, 2, 59, 480_300_002)?;
    /// assert_eq!(rt; time.microsecond(), 480_300);
    /// ```
    pub fn microsecond(self) -> u32
        ensures value { result ≡ microsecond_of self }
        ensures in_range { result ≤ 999_999 }
    {
        self.nanosecond / 1_000
    }

    /// The nanosecond of the second, 0 to 999,999,999.
    ///
    /// ```
    /// let time = Time::from_hms_nano(13, 2, 59, 480_300_002)?;
    /// assert_eq!(rt; time.nanosecond(), 480_300_002);
    /// ```
    pub fn nanosecond(self) -> u32
        ensures value { result ≡ nanosecond_of self }
        ensures in_range { result ≤ 999_999_999 }
    {
        self.nanosecond
    }

    /// The second of the day, 0 to 86,399.
    ///
    /// ```
    /// let time = Time::from_hms_nano(13, 2, 59, 480_300_002)?;
    /// assert_eq!(rt; time.second_of_day(), 46_979);
    /// ```
    #[inline(always)]
    pub fn second_of_day(self) -> u32
        ensures value { result ≡ self / nanos_per_second }
        ensures in_range { result < 86_400 }
    {
        (self.hour as u32 * 60 + self.minute as u32) * 60 + self.second as u32
    }

    /// The nanosecond of the day, 0 to 86,399,999,999,999.
    ///
    /// ```
    /// let time = Time::from_hms_nano(13, 2, 59, 480_300_002)?;
    /// assert_eq!(rt; time.nanosecond_of_day(), 46_979_480_300_002);
    /// ```
    #[inline(always)]
    pub fn nanosecond_of_day(self) -> u64
        ensures value { result ≡ self }
        ensures self_in_range { IsClock self }
    {
        self.second_of_day() as u64 * NANOS_PER_SECOND as u64 + self.nanosecond as u64
    }
}
