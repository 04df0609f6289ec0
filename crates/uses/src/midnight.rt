//! The next midnight in UTC, and windows of a day that go over midnight.

ghost use Rattle.std.specs.Prelude.{◌≡◌, ◌≤◌, ◌<◌, ◌+ℤ◌, ◌-ℤ◌, ◌≤ℤ◌, ◌<ℤ◌, pos, IfSome, IfNone};
ghost use Rattle.calendar_values.specs.Clock.{nanos_per_day};
ghost use Rattle.calendar_values.specs.Range.{last_day};
ghost use Rattle.calendar_values.specs.WallClock.{wall_day, wall_time};

use calendar_values::{SignedDuration, Time};
use utc_times::UtcDateTime;

/// The first instant of the next day, or None on the last day of the range.
pub fn next_midnight(at: UtcDateTime) -> Option<UtcDateTime>
    ensures later { IfSome result (λ next. at <ℤ next) }
    ensures soon { IfSome result (λ next. next ≤ℤ (at +ℤ pos nanos_per_day)) }
    ensures whole_day { IfSome result (λ next. wall_time next ≡ 0) }
    ensures before_the_last_day { IfSome result (λ _. wall_day at <ℤ last_day) }
    ensures on_the_last_day { IfNone result (wall_day at ≡ last_day) }
{
    at.truncate_to_day().checked_add(SignedDuration::days(1))
}

/// How long a window of a day lasts, such as 8 hours from 22:00 to 6:00.
pub fn window_length(from: Time, until: Time) -> SignedDuration
    ensures same_day { from ≤ until → result ≡ pos until -ℤ pos from }
    ensures over_midnight { until < from → result ≡ (pos until -ℤ pos from) +ℤ pos nanos_per_day }
{
    let length = until - from;
    if from <= until {
        length
    } else {
        length + SignedDuration::DAY
    }
}

/// How long the day has lasted at a time of day.
pub fn since_midnight(time: Time) -> SignedDuration
    ensures value { result ≡ pos time }
    ensures not_negative { pos 0 ≤ℤ result }
    ensures less { result <ℤ pos nanos_per_day }
{
    time - Time::MIDNIGHT
}

/// How long it is from a time of day to the end of the day: a day at midnight.
pub fn left_of_day(time: Time) -> SignedDuration
    ensures some { pos 0 <ℤ result }
    ensures at_most { result ≤ℤ pos nanos_per_day }
    ensures value { result ≡ pos nanos_per_day -ℤ pos time }
{
    SignedDuration::DAY - since_midnight(time)
}
