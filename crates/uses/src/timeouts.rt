//! Work that may take so long, and no longer.
ghost use Rattle.std.specs.Prelude.{◌≡◌, ◌↔◌, ◌≤◌, ◌+ℤ◌, ◌-ℤ◌, ◌≤ℤ◌, ◌<ℤ◌, pos, unsigned_abs, IfSome, IsTrue, SomeIff};
ghost use Rattle.std.specs.Duration.{as_nanos};
ghost use Rattle.std.specs.Ordering.{int_cmp};
ghost use Rattle.calendar_values.specs.Clock.{nanos_per_day};
ghost use Rattle.calendar_values.specs.Durations.{whole_milliseconds_of, whole_microseconds_of};
ghost use Rattle.calendar_values.specs.Durations.{subsec_milliseconds_of, subsec_microseconds_of, whole_seconds_of};
ghost use Rattle.calendar_values.specs.WallClock.{IsWallClock};
ghost use Rattle.offset_times.specs.Local.{instant_of, at_offset_of, wall_at};

use calendar_values::SignedDuration;
use offset_times::OffsetDateTime;
use stamp_times::Timestamp;
use std::time::Duration;

/// Whether the work has taken as long as it may.
pub fn has_timed_out(started: OffsetDateTime, limit: SignedDuration, now: OffsetDateTime) -> bool
    ensures { IsTrue result ↔ (limit ≤ℤ (instant_of now -ℤ instant_of started)) }
{
    now - started >= limit
}

/// The time left until the deadline, and zero after it.
pub fn remaining(now: OffsetDateTime, deadline: OffsetDateTime) -> SignedDuration
    ensures before { instant_of now <ℤ instant_of deadline →
        result ≡ instant_of deadline -ℤ instant_of now }
    ensures after { instant_of deadline ≤ℤ instant_of now → result ≡ pos 0 }
{
    if now < deadline {
        deadline - now
    } else {
        SignedDuration::ZERO
    }
}

/// How long the work took, for a log in milliseconds.
pub fn took_milliseconds(started: OffsetDateTime, ended: OffsetDateTime) -> i128
    ensures { result ≡ whole_milliseconds_of (instant_of ended -ℤ instant_of started) }
{
    (ended - started).whole_milliseconds()
}

/// The same in microseconds, and in nanoseconds.
pub fn took(started: OffsetDateTime, ended: OffsetDateTime) -> (i128, i128)
    ensures microseconds { result.0 ≡
        whole_microseconds_of (instant_of ended -ℤ instant_of started) }
    ensures nanoseconds { result.1 ≡ instant_of ended -ℤ instant_of started }
{
    let work = ended - started;
    (work.whole_microseconds(), work.whole_nanoseconds())
}

/// Whole seconds and the milliseconds that they leave, as a progress line prints them.
pub fn seconds_and_milliseconds(work: SignedDuration) -> (i64, i16)
    ensures seconds { result.0 ≡ whole_seconds_of work }
    ensures milliseconds { result.1 ≡ subsec_milliseconds_of work }
    ensures in_range { unsigned_abs result.1 ≤ 999 }
{
    (work.whole_seconds(), work.subsec_milliseconds())
}

/// The same with microseconds.
pub fn seconds_and_microseconds(work: SignedDuration) -> (i64, i32)
    ensures seconds { result.0 ≡ whole_seconds_of work }
    ensures microseconds { result.1 ≡ subsec_microseconds_of work }
    ensures in_range { unsigned_abs result.1 ≤ 999_999 }
{
    (work.whole_seconds(), work.subsec_microseconds())
}

/// How far two events are apart, whichever was first, as std's duration.
pub fn apart_either_way(first: OffsetDateTime, second: OffsetDateTime) -> Duration
    ensures { as_nanos result ≡ unsigned_abs (instant_of second -ℤ instant_of first) }
{
    (second - first).unsigned_abs()
}

/// The size of the error of a clock, fast or slow.
pub fn drift(clock: OffsetDateTime, reference: OffsetDateTime) -> SignedDuration
    ensures not_negative { pos 0 ≤ℤ result }
    ensures size { unsigned_abs result ≤ unsigned_abs (instant_of clock -ℤ instant_of reference) }
{
    (clock - reference).abs()
}

/// The size of a lag of at most a day, fast or slow.
pub fn size_of_lag(lag: SignedDuration) -> SignedDuration
    requires { unsigned_abs lag ≤ nanos_per_day }
    ensures { result ≡ pos (unsigned_abs lag) }
{
    lag.abs()
}

/// The deadline, later by the extension. None out of range.
pub fn extend_deadline(deadline: OffsetDateTime, by: SignedDuration) -> Option<OffsetDateTime>
    ensures value { let wall = deadline.wall +ℤ by in
        SomeIff result (IsWallClock wall) (wall_at wall deadline.offset) }
    ensures instant { IfSome result (λ later. instant_of later ≡ instant_of deadline +ℤ by) }
{
    deadline.checked_add(by)
}

/// Two deadlines, each later by the extension, in the order of before. None if one is out of range.
pub fn both_extended(
    first: OffsetDateTime,
    second: OffsetDateTime,
    by: SignedDuration,
) -> Option<(OffsetDateTime, OffsetDateTime)>
    ensures value { let one = at_offset_of first (first.wall +ℤ by) in
        let other = at_offset_of second (second.wall +ℤ by) in
        SomeIff result (IsWallClock one.wall × IsWallClock other.wall) (one, other) }
    ensures order { IfSome result (λ both. int_cmp (instant_of both.0) (instant_of both.1) ≡
        int_cmp (instant_of first) (instant_of second)) }
{
    offset_times::laws::sums_keep_the_order();
    Some((first.checked_add(by)?, second.checked_add(by)?))
}

/// Two deadlines of one place, each later by the extension or at the end of the range: the first is
/// not after the second.
pub fn both_put_off(
    first: OffsetDateTime,
    second: OffsetDateTime,
    by: SignedDuration,
) -> (OffsetDateTime, OffsetDateTime)
    requires place { first.offset ≡ second.offset }
    requires order { instant_of first ≤ℤ instant_of second }
    ensures { instant_of result.0 ≤ℤ instant_of result.1 }
{
    offset_times::laws::sums_keep_the_order();
    (first.saturating_add(by), second.saturating_add(by))
}

/// The same as [`remaining`], by the greater of two durations.
pub fn left_until(now: OffsetDateTime, deadline: OffsetDateTime) -> SignedDuration
    ensures before { instant_of now <ℤ instant_of deadline →
        result ≡ instant_of deadline -ℤ instant_of now }
    ensures after { instant_of deadline ≤ℤ instant_of now → result ≡ pos 0 }
    ensures not_negative { pos 0 ≤ℤ result }
{
    (deadline - now).max(SignedDuration::ZERO)
}

/// The time left of a limit: none once the work has taken it all.
pub fn left_of(started: Timestamp, limit: SignedDuration, now: Timestamp) -> SignedDuration
    ensures not_negative { pos 0 ≤ℤ result }
    ensures after { limit ≤ℤ (now -ℤ started) → result ≡ pos 0 }
{
    limit
        .saturating_sub(now - started)
        .max(SignedDuration::ZERO)
}
