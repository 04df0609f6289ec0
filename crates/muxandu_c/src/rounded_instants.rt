//! Instants rounded down to a unit of time, by a remainder of the seconds or of the nanoseconds.
ghost use Rattle.std.specs.Prelude.{◌≡◌, ◌-◌, ◌%◌, ◌<◌, ◌-ℤ◌, ◌≤ℤ◌, pos};
ghost use Rattle.std.specs.Int.{int_rem_euclid};
ghost use Rattle.calendar_values.specs.WallClock.{IsInstant};
ghost use Rattle.plain_times.specs.Truncations.{wall_multiple_below};
ghost use Rattle.utc_times.specs.UnixTime.{instant_of_second};
ghost use Rattle.muxandu_c.specs.Values.{timestamp_parts, unit_nanos};

use crate::unit::Unit;
use crate::values::MuxanduTimestamp;
use stamp_times::Timestamp;

// The parts of an instant rounded down to a unit.
#[inline(always)]
pub(crate) fn parts_in_unit(at: Timestamp, unit: Unit) -> MuxanduTimestamp
    ensures { result ≡ timestamp_parts (wall_multiple_below (unit_nanos unit) at) }
{
    let second = at.as_seconds();
    let nanosecond = at.nanosecond();
    match unit {
        Unit::Day => parts(second_below(second, 86_400), 0),
        Unit::Hour => parts(second_below(second, 3_600), 0),
        Unit::Minute => parts(second_below(second, 60), 0),
        Unit::Second => parts(second, 0),
        Unit::Millisecond => parts(second, nanosecond - nanosecond % 1_000_000),
        Unit::Microsecond => parts(second, nanosecond - nanosecond % 1_000),
        Unit::Nanosecond => parts(second, nanosecond),
    }
}

// A timestamp of its parts.
#[inline(always)]
fn parts(seconds: i64, nanoseconds: u32) -> MuxanduTimestamp
    ensures { result ≡ record { seconds = seconds; nanoseconds = nanoseconds } }
{
    MuxanduTimestamp {
        seconds,
        nanoseconds,
    }
}

// A second rounded down to a number of seconds, at most a day.
#[inline(always)]
fn second_below(second: i64, size: i64) -> i64
    requires range { IsInstant (instant_of_second second) }
    requires least { pos 1 ≤ℤ size }
    requires most { size ≤ℤ pos 86_400 }
    ensures { result ≡ second -ℤ int_rem_euclid second size }
{
    second - second.rem_euclid(size)
}
