//! Timestamps and date-times at offsets from UTC: the same instants.
ghost use Rattle.std.specs.Prelude.{◌≡◌, ◌-ℤ◌, pos, IfSome};
ghost use Rattle.std.specs.Ordering.{int_eq, int_cmp};
ghost use Rattle.calendar_values.specs.WallClock.{IsWallClock};
ghost use Rattle.offset_times.specs.Local.{instant_of, shown_at, local_in_utc, local_at, ShownAt};

use crate::Timestamp;
use calendar_values::{SignedDuration, UtcOffset};
use offset_times::{OffsetDateTime, ToOffset};
use std::cmp::Ordering;
use std::ops::Sub;

impl Timestamp {
    /// The same instant at an offset, where its date must be in range. The caller proves this, or
    /// calls [`Timestamp::checked_to_offset`]; the `time` crate panics.
    ///
    /// ```
    /// let west = UtcOffset::from_hms(-8, 0, 0)?;
    /// let shown = Timestamp::UNIX_EPOCH.to_offset(west);
    /// assert_eq!(rt; shown.hour(), 16);
    /// assert_eq!(rt; shown.day(), 31);
    /// ```
    pub fn to_offset(self, offset: UtcOffset) -> OffsetDateTime
        requires { IsWallClock (shown_at self offset) }
        ensures value { result ≡ local_at self offset }
        ensures instant { instant_of result ≡ self }
    {
        self.to_utc().to_offset(offset)
    }

    /// The same instant at an offset. None if its date there is out of range.
    ///
    /// ```
    /// let west = UtcOffset::from_hms(-8, 0, 0)?;
    /// assert_eq!(rt;
    ///     Timestamp::UNIX_EPOCH.checked_to_offset(west).map(|shown| shown.hour()),
    ///     Some(16)
    /// );
    /// assert_eq!(rt; Timestamp::MIN.checked_to_offset(west), None);
    /// ```
    pub fn checked_to_offset(self, offset: UtcOffset) -> Option<OffsetDateTime>
        ensures value { ShownAt result self offset }
        ensures instant { IfSome result (λ at. instant_of at ≡ self) }
    {
        self.to_utc().checked_to_offset(offset)
    }

    /// Whether both are one instant.
    ///
    /// ```
    /// assert_eq!(rt; Timestamp::UNIX_EPOCH.eq_offset(OffsetDateTime::UNIX_EPOCH), true);
    /// assert_eq!(rt; Timestamp::MAX.eq_offset(OffsetDateTime::UNIX_EPOCH), false);
    /// ```
    #[tactic(auto, using(offset_times::specs::InstantLemmas::instants))]
    pub fn eq_offset(self, other: OffsetDateTime) -> bool
        ensures { result ≡ int_eq self (instant_of other) }
    {
        OffsetDateTime::from(self) == other
    }

    /// Which instant comes first.
    ///
    /// ```
    /// let earlier = PlainDateTime::UNIX_EPOCH.assume_offset(UtcOffset::from_hms(1, 0, 0)?);
    /// assert_eq!(rt; Timestamp::UNIX_EPOCH.cmp_offset(earlier), std::cmp::Ordering::Greater);
    /// ```
    #[tactic(auto, using(offset_times::specs::InstantLemmas::instants))]
    pub fn cmp_offset(self, other: OffsetDateTime) -> Ordering
        ensures { result ≡ int_cmp self (instant_of other) }
    {
        OffsetDateTime::from(self).cmp(&other)
    }
}

impl From<Timestamp> for OffsetDateTime {
    ghost from_gives = { λ stamp at. (at ≡ local_in_utc stamp) × (instant_of at ≡ stamp) };

    #[tactic(auto, using(offset_times::specs::InstantLemmas::instants))]
    fn from(stamp: Timestamp) -> OffsetDateTime {
        OffsetDateTime::from(stamp.to_utc())
    }
}

impl Sub<OffsetDateTime> for Timestamp {
    type Output = SignedDuration;

    ghost sub_gives = { λ stamp at difference. difference ≡ stamp -ℤ instant_of at };

    #[tactic(auto, using(offset_times::specs::InstantLemmas::instants))]
    fn sub(self, other: OffsetDateTime) -> SignedDuration {
        OffsetDateTime::from(self) - other
    }
}

impl Sub<Timestamp> for OffsetDateTime {
    type Output = SignedDuration;

    ghost sub_gives = { λ at stamp difference. difference ≡ instant_of at -ℤ stamp };

    #[tactic(auto, using(offset_times::specs::InstantLemmas::instants))]
    fn sub(self, other: Timestamp) -> SignedDuration {
        self - OffsetDateTime::from(other)
    }
}
