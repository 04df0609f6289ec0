//! A pause that grows with each attempt.
ghost use Rattle.std.specs.Prelude.{◌≡◌, ◌*◌, ◌+ℤ◌, ◌≤ℤ◌, pos, SomeIff};
ghost use Rattle.calendar_values.specs.Clock.{nanos_per_hour, nanos_per_second};
ghost use Rattle.calendar_values.specs.WallClock.{IsWallClock};

use calendar_values::SignedDuration;
use stamp_times::Timestamp;
use utc_times::UtcDateTime;

/// When to try again: 1, 2, 4 seconds later, and so on up to some 18 hours, or at the end of the
/// range.
pub fn retry_at(at: UtcDateTime, attempt: u32) -> UtcDateTime
    ensures never_before { at ≤ℤ result }
{
    let seconds = 1_u32 << attempt.min(16);
    at.saturating_add(SignedDuration::seconds(i64::from(seconds)))
}

/// When to try again after a failure: a second later for each attempt before, and never more than a
/// minute.
pub fn next_attempt(failed: Timestamp, attempts: u32) -> Timestamp
    ensures never_before { failed ≤ℤ result }
    ensures within_a_minute { result ≤ℤ (failed +ℤ pos (60 * nanos_per_second)) }
{
    let seconds = attempts.min(60);
    failed.saturating_add(SignedDuration::seconds(i64::from(seconds)))
}

/// Two that failed try again after one pause, the first before the second, or both at the end of
/// the range.
pub fn in_turn(first: Timestamp, second: Timestamp, pause: SignedDuration) -> (Timestamp, Timestamp)
    requires { first ≤ℤ second }
    ensures { result.0 ≤ℤ result.1 }
{
    stamp_times::laws::saturating_sums_keep_the_order();
    (first.saturating_add(pause), second.saturating_add(pause))
}

/// After one pause and then another: as after both.
pub fn after_both(at: Timestamp, first: SignedDuration, second: SignedDuration) -> Option<Timestamp>
    ensures { let end = at +ℤ (first +ℤ second) in
        SomeIff result (IsWallClock (at +ℤ first) × IsWallClock end) end }
{
    at.checked_add(first)?.checked_add(second)
}

/// The pause after a number of attempts: 1, 2, 4 seconds, and so on, and never more than an hour.
pub fn pause(attempts: u32) -> SignedDuration
    ensures some { pos 0 ≤ℤ result }
    ensures few { result ≤ℤ pos nanos_per_hour }
{
    SignedDuration::seconds(i64::from((1_u32 << attempts.min(31)).min(3_600)))
}

/// When to try again: 1, 2, 4 seconds later, and so on, and never more than an hour.
pub fn next_try(failed: Timestamp, attempts: u32) -> Timestamp
    ensures never_before { failed ≤ℤ result }
    ensures within_an_hour { result ≤ℤ (failed +ℤ pos nanos_per_hour) }
{
    let seconds = (1_u32 << attempts.min(12)).min(3_600);
    failed.saturating_add(SignedDuration::seconds(i64::from(seconds)))
}

/// When to try again, after a pause that has its bound from a function of its own.
pub fn after_pause(failed: UtcDateTime, attempts: u32) -> UtcDateTime
    ensures never_before { failed ≤ℤ result }
    ensures within_an_hour { result ≤ℤ (failed +ℤ pos nanos_per_hour) }
{
    failed.saturating_add(pause(attempts))
}
