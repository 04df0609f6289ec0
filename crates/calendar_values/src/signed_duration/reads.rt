//! The parts of a duration.
ghost use Rattle.std.specs.Prelude.{◌≡◌, ℤ, pos, ◌≤◌, ◌↔◌, IsTrue, ◌<ℤ◌, min, unsigned_abs};
ghost use Rattle.std.specs.Duration.{as_nanos};
ghost use Rattle.calendar_values.specs.Durations.{IsDuration, IsDurationParts, duration_of_parts, whole_seconds_of, subsec_nanoseconds_of};
ghost use Rattle.calendar_values.specs.Durations.{whole_minutes_of, whole_hours_of, whole_days_of, whole_weeks_of, greatest_duration};
ghost use Rattle.calendar_values.specs.Durations.{whole_milliseconds_of, whole_microseconds_of, subsec_milliseconds_of, subsec_microseconds_of};

use crate::SignedDuration;
use crate::units::{
    NANOS_PER_SECOND, SECONDS_PER_DAY, SECONDS_PER_HOUR, SECONDS_PER_MINUTE, SECONDS_PER_WEEK,
};
use std::time::Duration;

impl SignedDuration {
    /// Whether the duration is 0.
    ///
    /// ```
    /// assert_eq!(rt; SignedDuration::ZERO.is_zero(), true);
    /// assert_eq!(rt; SignedDuration::NANOSECOND.is_zero(), false);
    /// ```
    pub fn is_zero(self) -> bool
        ensures { IsTrue result ↔ (self ≡ pos 0) }
    {
        self.seconds == 0 && self.nanoseconds == 0
    }

    /// Whether the duration is below 0.
    ///
    /// ```
    /// assert_eq!(rt; SignedDuration::milliseconds(-1).is_negative(), true);
    /// assert_eq!(rt; SignedDuration::ZERO.is_negative(), false);
    /// ```
    pub fn is_negative(self) -> bool
        ensures { IsTrue result ↔ (self <ℤ pos 0) }
    {
        self.seconds < 0 || self.nanoseconds < 0
    }

    /// Whether the duration is above 0.
    ///
    /// ```
    /// assert_eq!(rt; SignedDuration::milliseconds(1).is_positive(), true);
    /// assert_eq!(rt; SignedDuration::ZERO.is_positive(), false);
    /// ```
    pub fn is_positive(self) -> bool
        ensures { IsTrue result ↔ (pos 0 <ℤ self) }
    {
        self.seconds > 0 || self.nanoseconds > 0
    }

    /// The duration without its sign, or [`SignedDuration::MAX`] where that is past it: for -2^63
    /// seconds and less.
    ///
    /// ```
    /// assert_eq!(rt; SignedDuration::hours(-8).abs(), SignedDuration::hours(8));
    /// assert_eq!(rt; SignedDuration::MIN.abs(), SignedDuration::MAX);
    /// ```
    pub fn abs(self) -> SignedDuration
        ensures { result ≡ pos (min (unsigned_abs self) (unsigned_abs greatest_duration)) }
    {
        if self.seconds == i64::MIN {
            return SignedDuration::MAX;
        }
        SignedDuration {
            seconds: self.seconds.abs(),
            nanoseconds: self.nanoseconds.abs(),
        }
    }

    /// The duration without its sign, which always fits.
    ///
    /// ```
    /// assert_eq!(rt;
    ///     SignedDuration::hours(-1).unsigned_abs(),
    ///     std::time::Duration::from_secs(3_600)
    /// );
    /// ```
    pub fn unsigned_abs(self) -> Duration
        ensures { as_nanos result ≡ unsigned_abs self }
    {
        Duration::new(self.seconds.unsigned_abs(), self.nanoseconds.unsigned_abs())
    }

    /// The whole weeks of seven days, rounded towards zero: -15,250,284,452,471 to
    /// 15,250,284,452,471.
    ///
    /// ```
    /// let duration = SignedDuration::new(-889_689, -120_300_004);
    /// assert_eq!(rt; duration.whole_weeks(), -1);
    /// ```
    pub fn whole_weeks(self) -> i64
        ensures value { result ≡ whole_weeks_of self }
        ensures in_range { unsigned_abs result ≤ 15_250_284_452_471 }
    {
        self.seconds / SECONDS_PER_WEEK
    }

    /// The whole days, rounded towards zero: -106,751,991,167,300 to 106,751,991,167,300.
    ///
    /// ```
    /// let duration = SignedDuration::new(-889_689, -120_300_004);
    /// assert_eq!(rt; duration.whole_days(), -10);
    /// ```
    pub fn whole_days(self) -> i64
        ensures value { result ≡ whole_days_of self }
        ensures in_range { unsigned_abs result ≤ 106_751_991_167_300 }
    {
        self.seconds / SECONDS_PER_DAY
    }

    /// The whole hours, rounded towards zero: -2,562,047,788,015,215 to 2,562,047,788,015,215.
    ///
    /// ```
    /// let duration = SignedDuration::new(-889_689, -120_300_004);
    /// assert_eq!(rt; duration.whole_hours(), -247);
    /// ```
    pub fn whole_hours(self) -> i64
        ensures value { result ≡ whole_hours_of self }
        ensures in_range { unsigned_abs result ≤ 2_562_047_788_015_215 }
    {
        self.seconds / SECONDS_PER_HOUR as i64
    }

    /// The whole minutes, rounded towards zero: -153,722,867,280,912,930 to
    /// 153,722,867,280,912,930.
    ///
    /// ```
    /// let duration = SignedDuration::new(-889_689, -120_300_004);
    /// assert_eq!(rt; duration.whole_minutes(), -14_828);
    /// ```
    pub fn whole_minutes(self) -> i64
        ensures value { result ≡ whole_minutes_of self }
        ensures in_range { unsigned_abs result ≤ 153_722_867_280_912_930 }
    {
        self.seconds / SECONDS_PER_MINUTE
    }

    /// The whole seconds, rounded towards zero: -2^63 to 2^63 - 1.
    ///
    /// ```
    /// let duration = SignedDuration::new(-889_689, -120_300_004);
    /// assert_eq!(rt; duration.whole_seconds(), -889_689);
    /// ```
    pub fn whole_seconds(self) -> i64
        ensures value { result ≡ whole_seconds_of self }
        ensures self_in_range { IsDuration self }
        ensures one_sign { IsDurationParts result (subsec_nanoseconds_of self) }
        ensures parts { duration_of_parts result (subsec_nanoseconds_of self) ≡ self }
    {
        self.seconds
    }

    /// The nanoseconds that the whole seconds leave, of the sign of the duration: -999,999,999 to
    /// 999,999,999.
    ///
    /// ```
    /// let duration = SignedDuration::new(-2, -120_300_004);
    /// assert_eq!(rt; duration.subsec_nanoseconds(), -120_300_004);
    /// ```
    pub fn subsec_nanoseconds(self) -> i32
        ensures value { result ≡ subsec_nanoseconds_of self }
        ensures one_sign { IsDurationParts (whole_seconds_of self) result }
        ensures parts { duration_of_parts (whole_seconds_of self) result ≡ self }
    {
        self.nanoseconds
    }

    /// The whole milliseconds, rounded towards zero.
    ///
    /// ```
    /// let duration = SignedDuration::new(-2, -120_300_004);
    /// assert_eq!(rt; duration.whole_milliseconds(), -2_120);
    /// ```
    pub fn whole_milliseconds(self) -> i128
        ensures value { result ≡ whole_milliseconds_of self }
        ensures in_range { unsigned_abs result ≤ 9_223_372_036_854_775_808_999 }
    {
        self.whole_seconds() as i128 * 1_000 + self.subsec_milliseconds() as i128
    }

    /// The milliseconds that the whole seconds leave, rounded towards zero: -999 to 999.
    ///
    /// ```
    /// let duration = SignedDuration::new(-2, -120_300_004);
    /// assert_eq!(rt; duration.subsec_milliseconds(), -120);
    /// ```
    pub fn subsec_milliseconds(self) -> i16
        ensures value { result ≡ subsec_milliseconds_of self }
        ensures in_range { unsigned_abs result ≤ 999 }
    {
        (self.subsec_nanoseconds() / 1_000_000) as i16
    }

    /// The whole microseconds, rounded towards zero.
    ///
    /// ```
    /// let duration = SignedDuration::new(-2, -120_300_004);
    /// assert_eq!(rt; duration.whole_microseconds(), -2_120_300);
    /// ```
    pub fn whole_microseconds(self) -> i128
        ensures value { result ≡ whole_microseconds_of self }
        ensures in_range { unsigned_abs result ≤ 9_223_372_036_854_775_808_999_999 }
    {
        self.whole_seconds() as i128 * 1_000_000 + self.subsec_microseconds() as i128
    }

    /// The microseconds that the whole seconds leave, rounded towards zero: -999,999 to 999,999.
    ///
    /// ```
    /// let duration = SignedDuration::new(-2, -120_300_004);
    /// assert_eq!(rt; duration.subsec_microseconds(), -120_300);
    /// ```
    pub fn subsec_microseconds(self) -> i32
        ensures value { result ≡ subsec_microseconds_of self }
        ensures in_range { unsigned_abs result ≤ 999_999 }
    {
        self.subsec_nanoseconds() / 1_000
    }

    /// The nanoseconds: all of the duration.
    ///
    /// ```
    /// let duration = SignedDuration::new(-2, -120_300_004);
    /// assert_eq!(rt; duration.whole_nanoseconds(), -2_120_300_004);
    /// ```
    pub fn whole_nanoseconds(self) -> i128
        ensures value { result ≡ self }
        ensures self_in_range { IsDuration self }
    {
        self.whole_seconds() as i128 * NANOS_PER_SECOND as i128 + self.subsec_nanoseconds() as i128
    }
}
