//! Conversions to another offset, and to UTC.
ghost use Rattle.std.specs.Prelude.{◌≡◌, IfSome};
ghost use Rattle.calendar_values.specs.Calendar.{day_of_ordinal_date, IsOrdinalDate};
ghost use Rattle.calendar_values.specs.Clock.{IsClock};
ghost use Rattle.calendar_values.specs.WallClock.{wall_clock, IsWallClock, SomeInRange, IsInstant};
ghost use Rattle.offset_times.specs.Local.{instant_of, shown_at, local_at, ShownAt};

use crate::carries::{to_offset_raw, to_utc_raw};
use crate::{Assume, OffsetDateTime};
use calendar_values::{Date, Time, UtcOffset};
use plain_times::PlainDateTime;
use utc_times::{AsUtc, UtcDateTime};

impl OffsetDateTime {
    /// The same instant at another offset, where its date must be in range. The caller proves this,
    /// or calls [`OffsetDateTime::checked_to_offset`]; the `time` crate panics.
    ///
    /// ```
    /// let west = UtcOffset::from_hms(-8, 0, 0)?;
    /// let shown = OffsetDateTime::UNIX_EPOCH.to_offset(west);
    /// assert_eq!(rt; shown.hour(), 16);
    /// assert_eq!(rt; shown.day(), 31);
    /// ```
    #[tactic(auto, using(crate::specs::InstantLemmas::instants))]
    pub fn to_offset(self, offset: UtcOffset) -> OffsetDateTime
        requires { IsWallClock (shown_at (instant_of self) offset) }
        ensures value { result ≡ local_at (instant_of self) offset }
        ensures instant { instant_of result ≡ instant_of self }
    {
        self.checked_to_offset(offset).unwrap()
    }

    /// The same instant at another offset. None if its date there is out of range. Its date in UTC
    /// may be out of range.
    ///
    /// ```
    /// let west = UtcOffset::from_hms(-8, 0, 0)?;
    /// assert_eq!(rt;
    ///     OffsetDateTime::UNIX_EPOCH.checked_to_offset(west).map(|shown| shown.hour()),
    ///     Some(16)
    /// );
    /// assert_eq!(rt; PlainDateTime::MIN.assume_utc().checked_to_offset(west), None);
    /// ```
    pub fn checked_to_offset(self, offset: UtcOffset) -> Option<OffsetDateTime>
        ensures value { ShownAt result (instant_of self) offset }
        ensures instant { IfSome result (λ at. instant_of at ≡ instant_of self) }
    {
        let (from, to) = (self.offset().whole_seconds(), offset.whole_seconds());
        if from == to {
            return Some(self);
        }
        let (year, ordinal, time) = to_offset_raw(self, offset);
        match date_time_if_any(year, ordinal, time) {
            Some(shown) => Some(shown.assume_offset(offset)),
            None => None,
        }
    }

    /// The same instant in UTC, which must be in range. The caller proves this, or calls
    /// [`OffsetDateTime::checked_to_utc`]; the `time` crate panics.
    ///
    /// ```
    /// let west = UtcOffset::from_hms(-8, 0, 0)?;
    /// let at = PlainDateTime::UNIX_EPOCH.assume_offset(west);
    /// assert_eq!(rt; at.to_utc().unix_timestamp(), 28_800);
    /// ```
    pub fn to_utc(self) -> UtcDateTime
        requires { IsInstant (instant_of self) }
        ensures { result ≡ instant_of self }
    {
        self.checked_to_utc().unwrap()
    }

    /// The same instant in UTC. None outside the range.
    ///
    /// ```
    /// let west = UtcOffset::from_hms(-8, 0, 0)?;
    /// let at = PlainDateTime::MAX.assume_offset(west);
    /// assert_eq!(rt; at.checked_to_utc(), None);
    /// assert_eq!(rt; OffsetDateTime::UNIX_EPOCH.checked_to_utc(), Some(UtcDateTime::UNIX_EPOCH));
    /// ```
    pub fn checked_to_utc(self) -> Option<UtcDateTime>
        ensures { SomeInRange result (instant_of self) }
    {
        if self.offset().is_utc() {
            return Some(self.date_time().as_utc());
        }
        let (year, ordinal, time) = to_utc_raw(self);
        match date_time_if_any(year, ordinal, time) {
            Some(shown) => Some(shown.as_utc()),
            None => None,
        }
    }
}

// The day of the year and the time of day, if the range has them.
pub(crate) fn date_time_if_any(year: i32, ordinal: u16, time: Time) -> Option<PlainDateTime>
    requires date { IsOrdinalDate year ordinal }
    requires clock { IsClock time }
    ensures { SomeInRange result (wall_clock (day_of_ordinal_date year ordinal) time) }
{
    match Date::from_ordinal_date(year, ordinal) {
        Ok(date) => Some(PlainDateTime::new(date, time)),
        Err(_) => None,
    }
}
