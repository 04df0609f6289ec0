//! Date-times at an offset as timestamps.
ghost use Rattle.std.specs.Prelude.{◌≡◌, ℤ};
ghost use Rattle.calendar_values.specs.WallClock.{SomeInRange, IsInstant};
ghost use Rattle.offset_times.specs.Local.{instant_of};

use crate::Timestamp;
use offset_times::OffsetDateTime;

/// A type with an instant that may be a timestamp.
pub trait ToTimestamp {
    /// Its instant.
    ghost instant_told: { Self → ℤ };

    /// The timestamp of the instant, which must be in range. The caller proves this, or calls
    /// [`ToTimestamp::checked_to_timestamp`]; the `time` crate panics.
    ///
    /// ```
    /// let at = OffsetDateTime::from_unix_timestamp(1_000_000_000)?;
    /// assert_eq!(rt; at.to_timestamp(), Timestamp::from_seconds(1_000_000_000)?);
    /// ```
    fn to_timestamp(self) -> Timestamp
        requires { IsInstant (instant_told self) }
        ensures { result ≡ instant_told self };

    /// The timestamp of the instant. None outside the range.
    ///
    /// ```
    /// assert_eq!(rt;
    ///     OffsetDateTime::UNIX_EPOCH.checked_to_timestamp(),
    ///     Some(Timestamp::UNIX_EPOCH)
    /// );
    /// let late = PlainDateTime::MAX.assume_offset(UtcOffset::from_hms(-1, 0, 0)?);
    /// assert_eq!(rt; late.checked_to_timestamp(), None);
    /// ```
    fn checked_to_timestamp(self) -> Option<Timestamp>
        ensures { SomeInRange result (instant_told self) };
}

impl ToTimestamp for OffsetDateTime {
    ghost instant_told = { λ at. instant_of at };

    fn to_timestamp(self) -> Timestamp {
        self.checked_to_timestamp().unwrap()
    }

    fn checked_to_timestamp(self) -> Option<Timestamp> {
        match self.checked_to_utc() {
            Some(at) => Some(Timestamp::from_utc(at)),
            None => None,
        }
    }
}
