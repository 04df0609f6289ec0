//! Wall clocks read at an offset.
ghost use Rattle.std.specs.Prelude.{◌≡◌, ◌-ℤ◌, ℤ, pos};
ghost use Rattle.offset_times.specs.Local.{instant_of, wall_at, offset_nanos};

use crate::OffsetDateTime;
use calendar_values::UtcOffset;
use plain_times::PlainDateTime;

/// A type that has a wall clock, which an offset makes a date-time.
pub trait Assume {
    /// The wall clock that it shows.
    ghost wall_clock_shown: { Self → ℤ };

    /// The date-time of this wall clock at the offset.
    ///
    /// ```
    /// let east = UtcOffset::from_hms(2, 0, 0)?;
    /// let at = PlainDateTime::UNIX_EPOCH.assume_offset(east);
    /// assert_eq!(rt; at.hour(), 0);
    /// assert_eq!(rt; at.unix_timestamp(), -7_200);
    /// ```
    fn assume_offset(self, offset: UtcOffset) -> OffsetDateTime
        ensures value { result ≡ wall_at (wall_clock_shown self) offset }
        ensures instant { instant_of result ≡ wall_clock_shown self -ℤ offset_nanos offset };

    /// The date-time of this wall clock in UTC.
    ///
    /// ```
    /// assert_eq!(rt; PlainDateTime::UNIX_EPOCH.assume_utc(), OffsetDateTime::UNIX_EPOCH);
    /// ```
    fn assume_utc(self) -> OffsetDateTime
        ensures value { result ≡ wall_at (wall_clock_shown self) (pos 0) }
        ensures instant { instant_of result ≡ wall_clock_shown self };
}

impl Assume for PlainDateTime {
    ghost wall_clock_shown = { λ w. w };

    #[tactic(auto, using(calendar_values::specs::WallClockLemmas::wall_clock_parts))]
    fn assume_offset(self, offset: UtcOffset) -> OffsetDateTime {
        OffsetDateTime::new_in_offset(self.date(), self.time(), offset)
    }

    #[tactic(auto, using(calendar_values::specs::WallClockLemmas::wall_clock_parts))]
    fn assume_utc(self) -> OffsetDateTime {
        OffsetDateTime::new_utc(self.date(), self.time())
    }
}
