//! Instants as a browser counts them: Unix milliseconds.
ghost use Rattle.std.specs.Prelude.{◌≡◌, ◌≤ℤ◌, ◌<ℤ◌, ◌+ℤ◌, pos, IfSome, SomeIff};
ghost use Rattle.calendar_values.specs.WallClock.{SomeInRange, unix_seconds_of, IsInstant};
ghost use Rattle.offset_times.specs.Local.{instant_of};
ghost use Rattle.stamp_times.specs.Instants.{instant_of_milliseconds, unix_milliseconds_of};

use calendar_values::UtcOffset;
use offset_times::OffsetDateTime;
use stamp_times::{Timestamp, ToTimestamp};
use utc_times::UtcDateTime;

/// The instant of Unix milliseconds. None where the range has no such instant.
pub fn stamp_of(milliseconds: i64) -> Option<Timestamp>
    ensures { SomeInRange result (instant_of_milliseconds milliseconds) }
{
    Some(Timestamp::from_milliseconds(milliseconds).ok()?)
}

/// The instant, as clocks at the offset show it. None where the range has no such instant, or they
/// show no date of it.
pub fn at_offset(milliseconds: i64, offset: UtcOffset) -> Option<OffsetDateTime>
    ensures instant { IfSome result (λ at. instant_of at ≡ instant_of_milliseconds milliseconds) }
    ensures offset { IfSome result (λ at. at.offset ≡ offset) }
{
    Some(stamp_of(milliseconds)?.checked_to_offset(offset)?)
}

/// The Unix milliseconds, rounded down. None where the instant lies outside the range.
pub fn milliseconds_of(at: OffsetDateTime) -> Option<i64>
    ensures { SomeIff result (IsInstant (instant_of at)) (unix_milliseconds_of (instant_of at)) }
{
    Some(at.checked_to_timestamp()?.as_milliseconds())
}

/// The Unix milliseconds of the hour of an instant: at most an hour of them before its own.
pub fn hour_in_milliseconds(at: UtcDateTime) -> i64
    ensures not_above { result ≤ℤ unix_milliseconds_of at }
    ensures within { unix_milliseconds_of at <ℤ (result +ℤ pos 3_600_000) }
{
    Timestamp::from(at.truncate_to_hour()).as_milliseconds()
}

/// The Unix seconds of the day of an instant.
pub fn day_in_seconds(at: UtcDateTime) -> i64
    ensures not_above { result ≤ℤ unix_seconds_of at }
    ensures within { unix_seconds_of at <ℤ (result +ℤ pos 86_400) }
{
    at.truncate_to_day().unix_timestamp()
}
