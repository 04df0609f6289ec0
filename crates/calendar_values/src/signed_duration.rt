//! Durations, which may be negative.
ghost use Rattle.std.specs.Prelude.{◌≡◌, ℤ, pos, ◌≤◌, ◌*ℤ◌, unsigned_abs};
ghost use Rattle.calendar_values.specs.Clock.{nanos_per_microsecond, nanos_per_millisecond, nanos_per_second, nanos_per_minute, nanos_per_hour};
ghost use Rattle.calendar_values.specs.Clock.{nanos_per_day, nanos_per_week};
ghost use Rattle.calendar_values.specs.Durations.{IsDuration, IsDurationParts, duration_of_parts, whole_seconds_of, subsec_nanoseconds_of, whole_days_of};
ghost use Rattle.calendar_values.specs.Durations.{SomeDuration, IsNearestDuration};

use crate::units::{
    NANOS_PER_SECOND, SECONDS_PER_DAY, SECONDS_PER_HOUR, SECONDS_PER_MINUTE, SECONDS_PER_WEEK,
};
use std::marker::Model;

mod comparisons;
mod operators;
mod products;
mod quotients;
mod reads;
mod std_durations;
mod sums;
mod totals;

/// A duration of -2^63 to 2^63 - 1 seconds plus -999,999,999 to 999,999,999 nanoseconds, never of
/// opposite signs, as in the `time` crate. A contract sees the sum as a number of nanoseconds.
///
/// ```
/// let delay = SignedDuration::new(-1, -500_000_000);
/// assert_eq!(rt; delay.whole_seconds(), -1);
/// assert_eq!(rt;
///     delay + SignedDuration::seconds(2),
///     SignedDuration::nanoseconds(500_000_000)
/// );
/// ```
#[derive(Clone, Copy, Debug)]
pub struct SignedDuration {
    seconds: i64,
    nanoseconds: i32,
}

impl Model for SignedDuration {
    ghost use Rattle.std.specs.Prelude.{ℤ};

    ghost Value = { ℤ };

    ghost use Rattle.calendar_values.specs.Durations.{IsDurationParts, duration_of_parts, whole_seconds_of, subsec_nanoseconds_of};
    ghost use Rattle.calendar_values.specs.DurationPartLemmas.{whole_seconds_of-parts, subsec_nanoseconds_of-parts};

    ghost view = { λ a. duration_of_parts a.seconds a.nanoseconds };

    ghost invariant = { λ a. IsDurationParts a.seconds a.nanoseconds };

    ghost inverse = { λ d. record {
      seconds = whole_seconds_of d;
      nanoseconds = subsec_nanoseconds_of d;
    } };

    ghost inverse_ok = { λ a h i. record {
      seconds = whole_seconds_of-parts a.seconds a.nanoseconds h i;
      nanoseconds = subsec_nanoseconds_of-parts a.seconds a.nanoseconds h i;
    } };
}

impl Default for SignedDuration {
    ghost is_default = { λ d. d ≡ pos 0 };

    /// The duration 0.
    fn default() -> SignedDuration {
        SignedDuration::ZERO
    }
}

impl SignedDuration {
    /// The duration 0.
    pub const ZERO: SignedDuration = SignedDuration {
        seconds: 0,
        nanoseconds: 0,
    };

    /// The least duration: -2^63 seconds and -999,999,999 nanoseconds.
    pub const MIN: SignedDuration = SignedDuration {
        seconds: i64::MIN,
        nanoseconds: -999_999_999,
    };

    /// The greatest duration: 2^63 - 1 seconds and 999,999,999 nanoseconds.
    pub const MAX: SignedDuration = SignedDuration {
        seconds: i64::MAX,
        nanoseconds: 999_999_999,
    };

    /// One nanosecond.
    pub const NANOSECOND: SignedDuration = SignedDuration {
        seconds: 0,
        nanoseconds: 1,
    };

    /// One microsecond.
    pub const MICROSECOND: SignedDuration = SignedDuration {
        seconds: 0,
        nanoseconds: 1_000,
    };

    /// One millisecond.
    pub const MILLISECOND: SignedDuration = SignedDuration {
        seconds: 0,
        nanoseconds: 1_000_000,
    };

    /// One second.
    pub const SECOND: SignedDuration = SignedDuration {
        seconds: 1,
        nanoseconds: 0,
    };

    /// One minute.
    pub const MINUTE: SignedDuration = SignedDuration {
        seconds: SECONDS_PER_MINUTE,
        nanoseconds: 0,
    };

    /// One hour.
    pub const HOUR: SignedDuration = SignedDuration {
        seconds: SECONDS_PER_HOUR as i64,
        nanoseconds: 0,
    };

    /// One day of 86,400 seconds.
    pub const DAY: SignedDuration = SignedDuration {
        seconds: SECONDS_PER_DAY,
        nanoseconds: 0,
    };

    /// One week of seven days.
    pub const WEEK: SignedDuration = SignedDuration {
        seconds: SECONDS_PER_WEEK,
        nanoseconds: 0,
    };

    /// The duration of seconds and nanoseconds together: `new(1, -1)` has 0 seconds and 999,999,999
    /// nanoseconds. Their sum must be from `MIN` to `MAX`. The caller proves this; the `time` crate
    /// panics.
    ///
    /// ```
    /// assert_eq!(rt; SignedDuration::new(1, -250_000_000), SignedDuration::milliseconds(750));
    /// assert_eq!(rt; SignedDuration::new(-1, 2_000_000_000), SignedDuration::seconds(1));
    /// ```
    pub fn new(seconds: i64, nanoseconds: i32) -> SignedDuration
        requires { IsDuration (duration_of_parts seconds nanoseconds) }
        ensures { result ≡ duration_of_parts seconds nanoseconds }
    {
        SignedDuration::from_parts(seconds, nanoseconds).unwrap()
    }

    // The duration of these seconds and nanoseconds together, if it is in range.
    fn from_parts(seconds: i64, nanoseconds: i32) -> Option<SignedDuration>
        ensures { SomeDuration result (duration_of_parts seconds nanoseconds) }
    {
        let carried = (nanoseconds / NANOS_PER_SECOND) as i64;
        let left = nanoseconds % NANOS_PER_SECOND;
        match seconds.checked_add(carried) {
            Some(seconds) => Some(SignedDuration::of_one_sign(seconds, left)),
            None => None,
        }
    }

    // Brings the two parts to one sign.
    fn of_one_sign(seconds: i64, nanoseconds: i32) -> SignedDuration
        requires { unsigned_abs nanoseconds ≤ 999_999_999 }
        ensures { result ≡ duration_of_parts seconds nanoseconds }
    {
        if seconds > 0 && nanoseconds < 0 {
            return SignedDuration {
                seconds: seconds - 1,
                nanoseconds: nanoseconds + NANOS_PER_SECOND,
            };
        }
        if seconds < 0 && nanoseconds > 0 {
            return SignedDuration {
                seconds: seconds + 1,
                nanoseconds: nanoseconds - NANOS_PER_SECOND,
            };
        }
        SignedDuration {
            seconds,
            nanoseconds,
        }
    }

    /// The duration of a number of weeks of seven days. Its absolute value must be at most
    /// 15,250,284,452,471, the most that fits.
    ///
    /// ```
    /// assert_eq!(rt; SignedDuration::weeks(-2), SignedDuration::days(-14));
    /// ```
    pub fn weeks(weeks: i64) -> SignedDuration
        requires { unsigned_abs weeks ≤ 15_250_284_452_471 }
        ensures value { result ≡ weeks *ℤ pos nanos_per_week }
        ensures whole { whole_days_of result ≡ weeks *ℤ pos 7 }
    {
        SignedDuration::days(weeks.checked_mul(7).unwrap())
    }

    /// The duration of a number of days of 86,400 seconds. Its absolute value must be at most
    /// 106,751,991,167,300, the most that fits.
    ///
    /// ```
    /// assert_eq!(rt; SignedDuration::days(3), SignedDuration::hours(72));
    /// ```
    pub fn days(days: i64) -> SignedDuration
        requires { unsigned_abs days ≤ 106_751_991_167_300 }
        ensures value { result ≡ days *ℤ pos nanos_per_day }
        ensures whole { whole_days_of result ≡ days }
    {
        SignedDuration::seconds(days.checked_mul(SECONDS_PER_DAY).unwrap())
    }

    /// The duration of a number of hours. Its absolute value must be at most 2,562,047,788,015,215,
    /// the most that fits.
    ///
    /// ```
    /// assert_eq!(rt; SignedDuration::hours(-5), SignedDuration::minutes(-300));
    /// ```
    pub fn hours(hours: i64) -> SignedDuration
        requires { unsigned_abs hours ≤ 2_562_047_788_015_215 }
        ensures { result ≡ hours *ℤ pos nanos_per_hour }
    {
        SignedDuration::seconds(hours.checked_mul(SECONDS_PER_HOUR as i64).unwrap())
    }

    /// The duration of a number of minutes. Its absolute value must be at most
    /// 153,722,867,280,912,930, the most that fits.
    ///
    /// ```
    /// assert_eq!(rt; SignedDuration::minutes(90), SignedDuration::seconds(5_400));
    /// ```
    pub fn minutes(minutes: i64) -> SignedDuration
        requires { unsigned_abs minutes ≤ 153_722_867_280_912_930 }
        ensures { result ≡ minutes *ℤ pos nanos_per_minute }
    {
        SignedDuration::seconds(minutes.checked_mul(SECONDS_PER_MINUTE).unwrap())
    }

    /// The duration of a number of seconds.
    ///
    /// ```
    /// assert_eq!(rt; SignedDuration::seconds(12), SignedDuration::new(12, 0));
    /// ```
    pub fn seconds(seconds: i64) -> SignedDuration
        ensures { result ≡ seconds *ℤ pos nanos_per_second }
    {
        SignedDuration {
            seconds,
            nanoseconds: 0,
        }
    }

    /// The duration of a number of milliseconds.
    ///
    /// ```
    /// assert_eq!(rt; SignedDuration::milliseconds(-1_250), SignedDuration::new(-1, -250_000_000));
    /// ```
    pub fn milliseconds(milliseconds: i64) -> SignedDuration
        ensures { result ≡ milliseconds *ℤ pos nanos_per_millisecond }
    {
        SignedDuration::new(
            milliseconds / 1_000,
            (milliseconds % 1_000) as i32 * 1_000_000,
        )
    }

    /// The duration of a number of microseconds.
    ///
    /// ```
    /// assert_eq!(rt; SignedDuration::microseconds(3_000_007), SignedDuration::new(3, 7_000));
    /// ```
    pub fn microseconds(microseconds: i64) -> SignedDuration
        ensures { result ≡ microseconds *ℤ pos nanos_per_microsecond }
    {
        SignedDuration::new(
            microseconds / 1_000_000,
            (microseconds % 1_000_000) as i32 * 1_000,
        )
    }

    /// The duration of a number of nanoseconds.
    ///
    /// ```
    /// assert_eq!(rt; SignedDuration::nanoseconds(-1_000_000_001), SignedDuration::new(-1, -1));
    /// ```
    pub fn nanoseconds(nanoseconds: i64) -> SignedDuration
        ensures { result ≡ nanoseconds }
    {
        SignedDuration {
            seconds: nanoseconds / NANOS_PER_SECOND as i64,
            nanoseconds: (nanoseconds % NANOS_PER_SECOND as i64) as i32,
        }
    }

    // The duration of this number of nanoseconds, if it is in range.
    fn from_whole_nanoseconds(nanoseconds: i128) -> Option<SignedDuration>
        ensures { SomeDuration result nanoseconds }
    {
        let seconds = nanoseconds / NANOS_PER_SECOND as i128;
        if seconds < i64::MIN as i128 || seconds > i64::MAX as i128 {
            return None;
        }
        Some(SignedDuration {
            seconds: seconds as i64,
            nanoseconds: (nanoseconds % NANOS_PER_SECOND as i128) as i32,
        })
    }

    // The duration that is nearest to this number of nanoseconds.
    fn nearest(nanoseconds: i128) -> SignedDuration
        ensures { IsNearestDuration nanoseconds result }
    {
        match SignedDuration::from_whole_nanoseconds(nanoseconds) {
            Some(duration) => duration,
            None if nanoseconds < 0 => SignedDuration::MIN,
            None => SignedDuration::MAX,
        }
    }
}
