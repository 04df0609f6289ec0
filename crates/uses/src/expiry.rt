//! Rules of expiry: when something expires, and whether it has.
ghost use Rattle.std.specs.Prelude.{◌≡◌, ◌↔◌, ◌*◌, ◌+ℤ◌, ◌*ℤ◌, ◌≤ℤ◌, ◌<ℤ◌, pos, IfSome, IsTrue, SomeIff};
ghost use Rattle.calendar_values.specs.Clock.{nanos_per_minute, nanos_per_day};
ghost use Rattle.calendar_values.specs.WallClock.{first_wall_clock, last_wall_clock, IsWallClock, SomeInRange};

use calendar_values::SignedDuration;
use utc_times::UtcDateTime;

// The most days that a duration has.
const MOST_DAYS: u64 = 106_751_991_167_300;

/// The instant a number of days after the issue, or None if it is out of range.
#[tactic(auto, using(calendar_values::specs::Constants::constants))]
pub fn expires_at(issued: UtcDateTime, days: i64) -> Option<UtcDateTime>
    ensures { let at = issued +ℤ (days *ℤ pos nanos_per_day) in SomeIff result (IsWallClock at) at }
{
    if days.unsigned_abs() > MOST_DAYS {
        return None;
    }
    issued.checked_add(SignedDuration::days(days))
}

/// Whether it has expired now.
pub fn is_expired(now: UtcDateTime, expires: UtcDateTime) -> bool
    ensures { IsTrue result ↔ (expires ≤ℤ now) }
{
    now >= expires
}

/// The same time tomorrow: a checked call is the test of an operator.
pub fn tomorrow(at: UtcDateTime) -> Option<UtcDateTime>
    ensures { SomeIff result (IsWallClock (at +ℤ pos nanos_per_day)) (at +ℤ pos nanos_per_day) }
{
    let day = SignedDuration::days(1);
    at.checked_add(day)?;
    Some(at + day)
}

/// The end of a lease: exactly later by its term, if that is in range.
pub fn lease_end(from: UtcDateTime, lasts: SignedDuration) -> UtcDateTime
    ensures exact { IsWallClock (from +ℤ lasts) → result ≡ from +ℤ lasts }
    ensures at_the_end { last_wall_clock <ℤ (from +ℤ lasts) → result ≡ last_wall_clock }
{
    from.saturating_add(lasts)
}

/// The end of what never ends: the last instant that there is.
pub fn without_end(from: UtcDateTime) -> UtcDateTime
    ensures { result ≡ last_wall_clock }
{
    from.saturating_add(SignedDuration::MAX)
}

/// The beginning of what was always: the first instant that there is.
pub fn since_ever(until: UtcDateTime) -> UtcDateTime
    ensures { result ≡ first_wall_clock }
{
    until.saturating_sub(SignedDuration::MAX)
}

/// The instant a number of minutes later, or None past the range.
pub fn minutes_later(at: UtcDateTime, minutes: u16) -> Option<UtcDateTime>
    ensures { SomeInRange result (at +ℤ pos (minutes * nanos_per_minute)) }
{
    at.checked_add(SignedDuration::minutes(i64::from(minutes)))
}
