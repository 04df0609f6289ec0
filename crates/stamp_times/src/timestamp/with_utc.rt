//! Timestamps and date-times in UTC: the same instants.
ghost use Rattle.std.specs.Prelude.{◌≡◌, ◌-ℤ◌};
ghost use Rattle.std.specs.Ordering.{int_eq, int_cmp};

use crate::Timestamp;
use calendar_values::SignedDuration;
use std::cmp::Ordering;
use std::ops::Sub;
use utc_times::UtcDateTime;

impl Timestamp {
    /// The same instant as a date with a time of day in UTC.
    ///
    /// ```
    /// assert_eq!(rt; Timestamp::UNIX_EPOCH.to_utc(), UtcDateTime::UNIX_EPOCH);
    /// ```
    #[tactic(auto, using(calendar_values::specs::WallClockLemmas::wall_clock_parts))]
    pub fn to_utc(self) -> UtcDateTime
        ensures { result ≡ self }
    {
        UtcDateTime::new(self.date(), self.time())
    }

    /// Whether both are one instant.
    ///
    /// ```
    /// assert_eq!(rt; Timestamp::UNIX_EPOCH.eq_utc(UtcDateTime::UNIX_EPOCH), true);
    /// assert_eq!(rt; Timestamp::UNIX_EPOCH.eq_utc(UtcDateTime::MIN), false);
    /// ```
    pub fn eq_utc(self, other: UtcDateTime) -> bool
        ensures { result ≡ int_eq self other }
    {
        self == Timestamp::from(other)
    }

    /// Which instant comes first.
    ///
    /// ```
    /// assert_eq!(rt;
    ///     Timestamp::UNIX_EPOCH.cmp_utc(UtcDateTime::MIN),
    ///     std::cmp::Ordering::Greater
    /// );
    /// ```
    pub fn cmp_utc(self, other: UtcDateTime) -> Ordering
        ensures { result ≡ int_cmp self other }
    {
        self.cmp(&Timestamp::from(other))
    }

    // The instant, by its Unix second.
    #[tactic(auto, using(crate::specs::TimestampLemmas::instant_parts))]
    pub(crate) fn from_utc(at: UtcDateTime) -> Timestamp
        ensures { result ≡ at }
    {
        Timestamp {
            seconds: at.unix_timestamp(),
            nanosecond: at.nanosecond(),
        }
    }
}

impl From<UtcDateTime> for Timestamp {
    ghost from_gives = { λ at stamp. stamp ≡ at };

    fn from(at: UtcDateTime) -> Timestamp {
        Timestamp::from_utc(at)
    }
}

impl From<Timestamp> for UtcDateTime {
    ghost from_gives = { λ stamp at. at ≡ stamp };

    fn from(stamp: Timestamp) -> UtcDateTime {
        stamp.to_utc()
    }
}

impl Sub<UtcDateTime> for Timestamp {
    type Output = SignedDuration;

    ghost sub_gives = { λ stamp at difference. difference ≡ stamp -ℤ at };

    fn sub(self, other: UtcDateTime) -> SignedDuration {
        self - Timestamp::from(other)
    }
}

impl Sub<Timestamp> for UtcDateTime {
    type Output = SignedDuration;

    ghost sub_gives = { λ at stamp difference. difference ≡ at -ℤ stamp };

    fn sub(self, other: Timestamp) -> SignedDuration {
        Timestamp::from(self) - other
    }
}
