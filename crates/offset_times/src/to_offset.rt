//! Conversions from UTC to an offset.
ghost use Rattle.std.specs.Prelude.{◌≡◌, IfSome, ℤ};
ghost use Rattle.calendar_values.specs.WallClock.{IsWallClock};
ghost use Rattle.offset_times.specs.Local.{instant_of, shown_at, local_at, ShownAt};

use crate::carries::utc_to_offset_raw;
use crate::offset_date_time::date_time_if_any;
use crate::{Assume, OffsetDateTime};
use calendar_values::UtcOffset;
use utc_times::UtcDateTime;

/// A type with an instant that converts to an offset.
pub trait ToOffset {
    /// Its instant.
    ghost instant_shown: { Self → ℤ };

    /// The same instant at an offset, where its date must be in range. The caller proves this, or
    /// calls [`ToOffset::checked_to_offset`]; the `time` crate panics.
    ///
    /// ```
    /// let west = UtcOffset::from_hms(-8, 0, 0)?;
    /// let shown = UtcDateTime::UNIX_EPOCH.to_offset(west);
    /// assert_eq!(rt; shown.hour(), 16);
    /// assert_eq!(rt; shown.day(), 31);
    /// ```
    fn to_offset(self, offset: UtcOffset) -> OffsetDateTime
        requires { IsWallClock (shown_at (instant_shown self) offset) }
        ensures value { result ≡ local_at (instant_shown self) offset }
        ensures instant { instant_of result ≡ instant_shown self };

    /// The same instant at an offset. None if its date there is out of range.
    ///
    /// ```
    /// let west = UtcOffset::from_hms(-8, 0, 0)?;
    /// assert_eq!(rt;
    ///     UtcDateTime::UNIX_EPOCH.checked_to_offset(west).map(|shown| shown.hour()),
    ///     Some(16)
    /// );
    /// assert_eq!(rt; UtcDateTime::MIN.checked_to_offset(west), None);
    /// ```
    fn checked_to_offset(self, offset: UtcOffset) -> Option<OffsetDateTime>
        ensures value { ShownAt result (instant_shown self) offset }
        ensures instant { IfSome result (λ at. instant_of at ≡ instant_shown self) };
}

impl ToOffset for UtcDateTime {
    ghost instant_shown = { λ instant. instant };

    #[tactic(auto, using(crate::specs::InstantLemmas::instants))]
    fn to_offset(self, offset: UtcOffset) -> OffsetDateTime {
        self.checked_to_offset(offset).unwrap()
    }

    fn checked_to_offset(self, offset: UtcOffset) -> Option<OffsetDateTime> {
        if offset.is_utc() {
            return Some(OffsetDateTime::from_utc(self));
        }
        let (year, ordinal, time) = utc_to_offset_raw(self, offset);
        match date_time_if_any(year, ordinal, time) {
            Some(shown) => Some(shown.assume_offset(offset)),
            None => None,
        }
    }
}
