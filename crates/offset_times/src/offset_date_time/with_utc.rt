//! Date-times with an offset together with those in UTC.
ghost use Rattle.std.specs.Prelude.{◌≡◌, pos, ◌-ℤ◌};
ghost use Rattle.std.specs.Ordering.{int_eq, int_cmp};
ghost use Rattle.offset_times.specs.Local.{instant_of, local_in_utc};

use crate::OffsetDateTime;
use calendar_values::SignedDuration;
use std::cmp::Ordering;
use std::ops::Sub;
use utc_times::UtcDateTime;

impl OffsetDateTime {
    /// Whether the instant is that of a date-time in UTC, also where its date in UTC does not
    /// exist.
    ///
    /// ```
    /// let east = UtcOffset::from_hms(1, 0, 0)?;
    /// let shown = OffsetDateTime::UNIX_EPOCH.checked_to_offset(east).ok_or("no date")?;
    /// assert_eq!(rt; shown.eq_utc(UtcDateTime::UNIX_EPOCH), true);
    /// assert_eq!(rt; shown.eq_utc(UtcDateTime::MAX), false);
    /// ```
    #[tactic(auto, using(crate::specs::InstantLemmas::instants))]
    pub fn eq_utc(self, other: UtcDateTime) -> bool
        ensures { result ≡ int_eq (instant_of self) other }
    {
        self == OffsetDateTime::from(other)
    }

    /// The order of the instant and that of a date-time in UTC.
    ///
    /// ```
    /// let earlier = PlainDateTime::UNIX_EPOCH.assume_offset(UtcOffset::from_hms(1, 0, 0)?);
    /// assert_eq!(rt; earlier.cmp_utc(UtcDateTime::UNIX_EPOCH), std::cmp::Ordering::Less);
    /// ```
    #[tactic(auto, using(crate::specs::InstantLemmas::instants))]
    pub fn cmp_utc(self, other: UtcDateTime) -> Ordering
        ensures { result ≡ int_cmp (instant_of self) other }
    {
        self.cmp(&OffsetDateTime::from(other))
    }

    // The instant, as clocks in UTC show it.
    #[tactic(auto, using(crate::specs::InstantLemmas::instants))]
    pub(crate) fn from_utc(at: UtcDateTime) -> OffsetDateTime
        ensures value { result ≡ local_in_utc at }
        ensures instant { instant_of result ≡ at }
    {
        OffsetDateTime::new_utc(at.date(), at.time())
    }
}

impl From<UtcDateTime> for OffsetDateTime {
    ghost from_gives = { λ instant at. (at ≡ local_in_utc instant) × (instant_of at ≡ instant) };

    fn from(at: UtcDateTime) -> OffsetDateTime {
        OffsetDateTime::from_utc(at)
    }
}

impl Sub<UtcDateTime> for OffsetDateTime {
    type Output = SignedDuration;

    ghost sub_gives = { λ at other difference. difference ≡ instant_of at -ℤ other };

    #[tactic(auto, using(crate::specs::InstantLemmas::instants))]
    fn sub(self, other: UtcDateTime) -> SignedDuration {
        self - OffsetDateTime::from(other)
    }
}

impl Sub<OffsetDateTime> for UtcDateTime {
    type Output = SignedDuration;

    ghost sub_gives = { λ at other difference. difference ≡ at -ℤ instant_of other };

    #[tactic(auto, using(crate::specs::InstantLemmas::instants))]
    fn sub(self, other: OffsetDateTime) -> SignedDuration {
        OffsetDateTime::from(self) - other
    }
}
