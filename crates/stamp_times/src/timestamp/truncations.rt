//! Timestamps truncated to a unit of time in UTC: rounded down, before 1970 too.
ghost use Rattle.std.specs.Prelude.{◌≡◌};
ghost use Rattle.calendar_values.specs.Clock.{nanos_per_day, nanos_per_hour, nanos_per_minute, nanos_per_second, nanos_per_millisecond, nanos_per_microsecond};
ghost use Rattle.calendar_values.specs.WallClock.{wall_clock, wall_day, wall_time};
ghost use Rattle.plain_times.specs.Truncations.{TruncatesTo};

use crate::Timestamp;
use calendar_values::Time;

impl Timestamp {
    /// The midnight in UTC with which the date of the timestamp begins.
    ///
    /// ```
    /// let at = Timestamp::new(1_709_168_523, 480_300_002)?;
    /// assert_eq!(rt; at.truncate_to_day(), Timestamp::new(1_709_164_800, 0)?);
    /// ```
    #[tactic(auto, using(crate::proofs::TimestampTruncationLemmas::truncations))]
    pub fn truncate_to_day(self) -> Timestamp
        ensures value { TruncatesTo nanos_per_day self result }
        ensures midnight { result ≡ wall_clock (wall_day self) 0 }
        ensures date { wall_day result ≡ wall_day self }
        ensures time { wall_time result ≡ 0 }
    {
        self.replace_time(Time::MIDNIGHT)
    }

    /// The timestamp rounded down to a whole hour in UTC.
    ///
    /// ```
    /// let at = Timestamp::new(1_709_168_523, 480_300_002)?;
    /// assert_eq!(rt; at.truncate_to_hour(), Timestamp::new(1_709_168_400, 0)?);
    /// ```
    #[tactic(auto, using(crate::proofs::TimestampTruncationLemmas::truncations))]
    pub fn truncate_to_hour(self) -> Timestamp
        ensures { TruncatesTo nanos_per_hour self result }
    {
        self.replace_time(self.time().truncate_to_hour())
    }

    /// The timestamp rounded down to a whole minute in UTC.
    ///
    /// ```
    /// let at = Timestamp::new(1_709_168_523, 480_300_002)?;
    /// assert_eq!(rt; at.truncate_to_minute(), Timestamp::new(1_709_168_520, 0)?);
    /// ```
    #[tactic(auto, using(crate::proofs::TimestampTruncationLemmas::truncations))]
    pub fn truncate_to_minute(self) -> Timestamp
        ensures { TruncatesTo nanos_per_minute self result }
    {
        self.replace_time(self.time().truncate_to_minute())
    }

    /// The timestamp rounded down to a whole second in UTC.
    ///
    /// ```
    /// let at = Timestamp::new(1_709_168_523, 480_300_002)?;
    /// assert_eq!(rt; at.truncate_to_second(), Timestamp::new(1_709_168_523, 0)?);
    /// ```
    #[tactic(auto, using(crate::proofs::TimestampTruncationLemmas::truncations))]
    pub fn truncate_to_second(self) -> Timestamp
        ensures { TruncatesTo nanos_per_second self result }
    {
        self.replace_time(self.time().truncate_to_second())
    }

    /// The timestamp rounded down to a whole millisecond in UTC.
    ///
    /// ```
    /// let at = Timestamp::new(1_709_168_523, 480_300_002)?;
    /// assert_eq!(rt; at.truncate_to_millisecond(), Timestamp::new(1_709_168_523, 480_000_000)?);
    /// ```
    #[tactic(auto, using(crate::proofs::TimestampTruncationLemmas::truncations))]
    pub fn truncate_to_millisecond(self) -> Timestamp
        ensures { TruncatesTo nanos_per_millisecond self result }
    {
        self.replace_time(self.time().truncate_to_millisecond())
    }

    /// The timestamp rounded down to a whole microsecond in UTC.
    ///
    /// ```
    /// let at = Timestamp::new(1_709_168_523, 480_300_002)?;
    /// assert_eq!(rt; at.truncate_to_microsecond(), Timestamp::new(1_709_168_523, 480_300_000)?);
    /// ```
    #[tactic(auto, using(crate::proofs::TimestampTruncationLemmas::truncations))]
    pub fn truncate_to_microsecond(self) -> Timestamp
        ensures { TruncatesTo nanos_per_microsecond self result }
    {
        self.replace_time(self.time().truncate_to_microsecond())
    }
}
