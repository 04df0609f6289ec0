//! Whole counts of durations: weeks, hours and minutes that were given, and those that are left.
ghost use Rattle.std.specs.Prelude.{◌≡◌, ◌≤◌, ◌*ℤ◌, ◌+ℤ◌, ◌-ℤ◌, ◌≤ℤ◌, pos, unsigned_abs, IsTrue};
ghost use Rattle.calendar_values.specs.Durations.{whole_days_of, whole_hours_of, whole_minutes_of};

use calendar_values::SignedDuration;
use stamp_times::Timestamp;

/// The weeks of a duration that was made of weeks: the same number.
pub fn weeks_back(weeks: i64) -> i64
    requires { unsigned_abs weeks ≤ 15_250_284_452_471 }
    ensures { result ≡ weeks }
{
    SignedDuration::weeks(weeks).whole_weeks()
}

/// The minutes that the whole hours leave.
pub fn minutes_beside_hours(left: SignedDuration) -> i64
    ensures value { whole_minutes_of left ≡ (whole_hours_of left *ℤ pos 60) +ℤ result }
{
    left.whole_minutes() % 60
}

/// The whole days that a task took: not below 0.
pub fn days_taken(begin: Timestamp, end: Timestamp) -> i64
    requires { begin ≤ℤ end }
    ensures value { result ≡ whole_days_of (end -ℤ begin) }
    ensures sign { pos 0 ≤ℤ result }
{
    (end - begin).whole_days()
}

/// The whole hours of two durations, the shorter first: the longer has no fewer.
pub fn hours_of_both(shorter: SignedDuration, longer: SignedDuration) -> (i64, i64)
    requires { shorter ≤ℤ longer }
    ensures { result.0 ≤ℤ result.1 }
{
    (shorter.whole_hours(), longer.whole_hours())
}

/// The milliseconds of a number of seconds, which a timer takes.
pub fn milliseconds_of_seconds(seconds: i64) -> i128
    ensures { result ≡ seconds *ℤ pos 1_000 }
{
    SignedDuration::seconds(seconds).whole_milliseconds()
}

/// Whether the whole hours have the whole days: they always do.
pub fn days_agree(work: SignedDuration) -> bool
    ensures { IsTrue result }
{
    work.whole_hours() / 24 == work.whole_days()
}
