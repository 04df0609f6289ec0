//! A date and a time of day at an offset from UTC.
ghost use Rattle.std.specs.Prelude.{◌≡◌, pos, ◌-ℤ◌};
ghost use Rattle.calendar_values.specs.WallClock.{wall_clock, wall_day, wall_time};
ghost use Rattle.offset_times.specs.Local.{instant_of, wall_at, offset_nanos, IsLocal};

use calendar_values::{Date, Time, UtcOffset};
use plain_times::PlainDateTime;
use std::marker::Model;

mod comparisons;
mod conversions;
mod operators;
mod reads;
mod replacements;
mod sums;
mod texts;
mod unix_time;
mod with_utc;

pub(crate) use conversions::date_time_if_any;

/// A date and a time of day, from those of [`PlainDateTime::MIN`] to those of
/// [`PlainDateTime::MAX`], that clocks at an offset from UTC show. Its instant may lie outside that
/// range, in UTC: such a value compares, feeds a hasher and converts like any other. A contract
/// sees the wall clock, in nanoseconds, and the offset, in seconds; the instant is the wall clock
/// less the nanoseconds of the offset.
///
/// ```
/// let east = UtcOffset::from_hms(1, 0, 0)?;
/// let shown = OffsetDateTime::UNIX_EPOCH
///     .checked_to_offset(east)
///     .ok_or("no date")?;
/// assert_eq!(rt; shown.hour(), 1);
/// assert_eq!(rt; shown, OffsetDateTime::UNIX_EPOCH);
/// ```
#[derive(Clone, Copy)]
pub struct OffsetDateTime {
    date: Date,
    time: Time,
    offset: UtcOffset,
}

impl Model for OffsetDateTime {
    ghost use Rattle.calendar_values.specs.Clock.{IsClock};
    ghost use Rattle.calendar_values.specs.Offsets.{IsOffset};
    ghost use Rattle.calendar_values.specs.WallClock.{wall_clock, wall_day, wall_time, IsWallClock};
    ghost use Rattle.calendar_values.specs.WallClockLemmas.{wall_day-wall_clock, wall_time-wall_clock};
    ghost use Rattle.offset_times.specs.Local.{Local, wall_at};

    ghost Value = { Local };

    ghost view = { λ at. wall_at (wall_clock at.date at.time) at.offset };

    ghost invariant = { λ at. IsWallClock (wall_clock at.date at.time) × IsClock at.time ×
        IsOffset at.offset };

    ghost inverse = { λ at. record {
      date = wall_day at.wall;
      time = wall_time at.wall;
      offset = at.offset;
    } };

    ghost inverse_ok = { λ at h i. record {
      date = wall_day-wall_clock at.date at.time h.1 i;
      time = wall_time-wall_clock at.date at.time h.1 i;
      offset = at.offset;
    } };
}

impl OffsetDateTime {
    /// 1970-01-01 0:00:00.0 in UTC, from which Unix time is counted.
    pub const UNIX_EPOCH: OffsetDateTime = OffsetDateTime {
        date: Date::UNIX_EPOCH,
        time: Time::MIDNIGHT,
        offset: UtcOffset::UTC,
    };

    /// The date and the time of day that clocks at the offset show.
    ///
    /// ```
    /// let time = Time::from_hms(12, 0, 0)?;
    /// let east = UtcOffset::from_hms(5, 30, 0)?;
    /// let date = Date::from_calendar_date(2024, Month::February, 29)?;
    /// let at = OffsetDateTime::new_in_offset(date, time, east);
    /// assert_eq!(rt; at.to_hms(), (12, 0, 0));
    /// assert_eq!(rt; at.unix_timestamp(), 1_709_188_200);
    /// ```
    #[tactic(auto, unfolding(crate::specs::Local::instant_of))]
    pub fn new_in_offset(date: Date, time: Time, offset: UtcOffset) -> OffsetDateTime
        ensures value { result ≡ wall_at (wall_clock date time) offset }
        ensures instant { instant_of result ≡ wall_clock date time -ℤ offset_nanos offset }
    {
        // For the proof alone: what is read lies in its range.
        let _in_range = (date.year(), offset.whole_seconds());
        OffsetDateTime { date, time, offset }
    }

    /// The date and the time of day, in UTC.
    ///
    /// ```
    /// let date = Date::from_calendar_date(2024, Month::February, 29)?;
    /// let at = OffsetDateTime::new_utc(date, Time::MIDNIGHT);
    /// assert_eq!(rt; at.offset(), UtcOffset::UTC);
    /// assert_eq!(rt; at.unix_timestamp(), 1_709_164_800);
    /// ```
    #[tactic(auto, using(crate::specs::InstantLemmas::instants))]
    pub fn new_utc(date: Date, time: Time) -> OffsetDateTime
        ensures value { result ≡ wall_at (wall_clock date time) (pos 0) }
        ensures instant { instant_of result ≡ wall_clock date time }
    {
        OffsetDateTime::new_in_offset(date, time, UtcOffset::UTC)
    }

    /// The offset.
    ///
    /// ```
    /// let east = UtcOffset::from_hms(10, 30, 0)?;
    /// let at = PlainDateTime::UNIX_EPOCH.assume_offset(east);
    /// assert_eq!(rt; at.offset(), east);
    /// ```
    pub fn offset(self) -> UtcOffset
        ensures value { result ≡ self.offset }
        ensures self_in_range { IsLocal self }
    {
        self.offset
    }

    /// The date and the time of day, without the offset.
    ///
    /// ```
    /// let east = UtcOffset::from_hms(10, 30, 0)?;
    /// let at = PlainDateTime::UNIX_EPOCH.assume_offset(east);
    /// assert_eq!(rt; at.date_time(), PlainDateTime::UNIX_EPOCH);
    /// ```
    #[tactic(auto, using(calendar_values::specs::WallClockLemmas::wall_clock_parts))]
    pub fn date_time(self) -> PlainDateTime
        ensures value { result ≡ self.wall }
        ensures self_in_range { IsLocal self }
    {
        PlainDateTime::new(self.date, self.time)
    }

    /// The date and the time of day that clocks at the offset show, and the offset.
    ///
    /// ```
    /// let east = UtcOffset::from_hms(10, 30, 0)?;
    /// let at = PlainDateTime::UNIX_EPOCH.assume_offset(east);
    /// assert_eq!(rt; at.parts(), (Date::UNIX_EPOCH, Time::MIDNIGHT, east));
    /// ```
    pub fn parts(self) -> (Date, Time, UtcOffset)
        ensures date { result.0 ≡ wall_day self.wall }
        ensures time { result.1 ≡ wall_time self.wall }
        ensures offset { result.2 ≡ self.offset }
        ensures self_in_range { IsLocal self }
    {
        let shown = self.date_time();
        (shown.date(), shown.time(), self.offset())
    }
}
