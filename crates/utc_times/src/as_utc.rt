//! Wall clocks read as UTC.
ghost use Rattle.std.specs.Prelude.{◌≡◌, ℤ};

use crate::UtcDateTime;
use plain_times::PlainDateTime;

/// A type with a date and a time of day in UTC.
pub trait AsUtc {
    /// The instant at which clocks in UTC show it.
    ghost instant_in_utc: { Self → ℤ };

    /// The instant at which clocks in UTC show it.
    ///
    /// ```
    /// assert_eq!(rt; PlainDateTime::UNIX_EPOCH.as_utc(), UtcDateTime::UNIX_EPOCH);
    /// ```
    fn as_utc(self) -> UtcDateTime
        ensures { result ≡ instant_in_utc self };
}

impl AsUtc for PlainDateTime {
    ghost instant_in_utc = { λ w. w };

    fn as_utc(self) -> UtcDateTime {
        UtcDateTime::from_plain(self)
    }
}
