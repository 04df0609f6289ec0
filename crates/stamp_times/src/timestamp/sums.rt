//! Sums of a timestamp and a duration, in seconds and nanoseconds.
ghost use Rattle.std.specs.Prelude.{◌<◌, pos, ◌+ℤ◌, ◌-ℤ◌, unsigned_abs};
ghost use Rattle.std.specs.Duration.{as_nanos};
ghost use Rattle.calendar_values.specs.Clock.{nanos_per_second};
ghost use Rattle.calendar_values.specs.WallClock.{SomeInRange};
ghost use Rattle.plain_times.specs.Sums.{IsSaturatingSum, IsSaturatingDifference};
ghost use Rattle.stamp_times.specs.Instants.{instant_of_parts};

use super::{FIRST_SECOND, LAST_SECOND};
use crate::Timestamp;
use calendar_values::SignedDuration;
use calendar_values::units::NANOS_PER_SECOND;
use std::time::Duration;

impl Timestamp {
    /// The instant later by the duration, or earlier for a negative duration. None out of range.
    ///
    /// ```
    /// assert_eq!(rt;
    ///     Timestamp::UNIX_EPOCH.checked_add(SignedDuration::hours(30)),
    ///     Some(Timestamp::from_seconds(108_000)?)
    /// );
    /// assert_eq!(rt; Timestamp::MAX.checked_add(SignedDuration::NANOSECOND), None);
    /// ```
    pub fn checked_add(self, duration: SignedDuration) -> Option<Timestamp>
        ensures { SomeInRange result (self +ℤ duration) }
    {
        match self.as_seconds().checked_add(duration.whole_seconds()) {
            Some(seconds) => carry(seconds, self.nanosecond(), duration.subsec_nanoseconds()),
            None => None,
        }
    }

    /// The instant earlier by the duration, or later for a negative duration. None out of range.
    ///
    /// ```
    /// assert_eq!(rt;
    ///     Timestamp::UNIX_EPOCH.checked_sub(SignedDuration::hours(30)),
    ///     Some(Timestamp::from_seconds(-108_000)?)
    /// );
    /// assert_eq!(rt; Timestamp::MIN.checked_sub(SignedDuration::NANOSECOND), None);
    /// ```
    pub fn checked_sub(self, duration: SignedDuration) -> Option<Timestamp>
        ensures { SomeInRange result (self -ℤ duration) }
    {
        match self.as_seconds().checked_sub(duration.whole_seconds()) {
            Some(seconds) => carry(seconds, self.nanosecond(), -duration.subsec_nanoseconds()),
            None => None,
        }
    }

    /// The instant later by the duration. None out of range.
    ///
    /// ```
    /// let day = std::time::Duration::from_secs(86_400);
    /// assert_eq!(rt;
    ///     Timestamp::UNIX_EPOCH.checked_add_std(day),
    ///     Some(Timestamp::from_seconds(86_400)?)
    /// );
    /// assert_eq!(rt; Timestamp::MAX.checked_add_std(day), None);
    /// ```
    pub fn checked_add_std(self, duration: Duration) -> Option<Timestamp>
        ensures { SomeInRange result (self +ℤ pos (as_nanos duration)) }
    {
        match self.as_seconds().checked_add_unsigned(duration.as_secs()) {
            Some(seconds) => carry(seconds, self.nanosecond(), duration.subsec_nanos() as i32),
            None => None,
        }
    }

    /// The instant earlier by the duration. None out of range.
    ///
    /// ```
    /// let day = std::time::Duration::from_secs(86_400);
    /// assert_eq!(rt;
    ///     Timestamp::UNIX_EPOCH.checked_sub_std(day),
    ///     Some(Timestamp::from_seconds(-86_400)?)
    /// );
    /// assert_eq!(rt; Timestamp::MIN.checked_sub_std(day), None);
    /// ```
    pub fn checked_sub_std(self, duration: Duration) -> Option<Timestamp>
        ensures { SomeInRange result (self -ℤ pos (as_nanos duration)) }
    {
        match self.as_seconds().checked_sub_unsigned(duration.as_secs()) {
            Some(seconds) => carry(
                seconds,
                self.nanosecond(),
                -(duration.subsec_nanos() as i32),
            ),
            None => None,
        }
    }

    /// The instant later by the duration, or earlier for a negative duration. If that is out of
    /// range, the nearest end of the range.
    ///
    /// ```
    /// assert_eq!(rt;
    ///     Timestamp::UNIX_EPOCH.saturating_add(SignedDuration::hours(30)),
    ///     Timestamp::from_seconds(108_000)?
    /// );
    /// assert_eq!(rt; Timestamp::MAX.saturating_add(SignedDuration::DAY), Timestamp::MAX);
    /// ```
    pub fn saturating_add(self, duration: SignedDuration) -> Timestamp
        ensures { IsSaturatingSum self duration result }
    {
        // For the proof alone: what is read lies in its range.
        let _in_range = self.as_seconds();
        match self.checked_add(duration) {
            Some(sum) => sum,
            None if duration.is_negative() => Timestamp::MIN,
            None => Timestamp::MAX,
        }
    }

    /// The instant earlier by the duration, or later for a negative duration. If that is out of
    /// range, the nearest end of the range.
    ///
    /// ```
    /// assert_eq!(rt;
    ///     Timestamp::UNIX_EPOCH.saturating_sub(SignedDuration::hours(30)),
    ///     Timestamp::from_seconds(-108_000)?
    /// );
    /// assert_eq!(rt; Timestamp::MIN.saturating_sub(SignedDuration::DAY), Timestamp::MIN);
    /// ```
    pub fn saturating_sub(self, duration: SignedDuration) -> Timestamp
        ensures { IsSaturatingDifference self duration result }
    {
        // For the proof alone: what is read lies in its range.
        let _in_range = self.as_seconds();
        match self.checked_sub(duration) {
            Some(difference) => difference,
            None if duration.is_negative() => Timestamp::MAX,
            None => Timestamp::MIN,
        }
    }
}

// The instant of a second and a nanosecond of that second, less than a second later or earlier, if the
// range has it.
fn carry(seconds: i64, nanosecond: u32, change: i32) -> Option<Timestamp>
    requires nanosecond { nanosecond < nanos_per_second }
    requires change { unsigned_abs change < nanos_per_second }
    ensures { SomeInRange result (instant_of_parts seconds nanosecond +ℤ change) }
{
    let nanoseconds = nanosecond as i32 + change;
    if nanoseconds < 0 {
        match seconds.checked_sub(1) {
            Some(seconds) => from_parts(seconds, (nanoseconds + NANOS_PER_SECOND) as u32),
            None => None,
        }
    } else if nanoseconds < NANOS_PER_SECOND {
        from_parts(seconds, nanoseconds as u32)
    } else {
        match seconds.checked_add(1) {
            Some(seconds) => from_parts(seconds, (nanoseconds - NANOS_PER_SECOND) as u32),
            None => None,
        }
    }
}

// The instant of a second and a nanosecond of that second, if the range has it.
fn from_parts(seconds: i64, nanosecond: u32) -> Option<Timestamp>
    requires { nanosecond < nanos_per_second }
    ensures { SomeInRange result (instant_of_parts seconds nanosecond) }
{
    if seconds < FIRST_SECOND || seconds > LAST_SECOND {
        return None;
    }
    Some(Timestamp {
        seconds,
        nanosecond,
    })
}
