//! Offsets and wall clocks at Unix seconds.
ghost use Rattle.std.specs.Prelude.{◌≡◌};
ghost use Rattle.calendar_values.specs.Offsets.{IsOffset};
ghost use Rattle.calendar_values.specs.WallClock.{SomeInRange};
ghost use Rattle.offset_times.specs.Local.{shown_at};
ghost use Rattle.utc_times.specs.UnixTime.{instant_of_second};
ghost use Rattle.zones.specs.Ranges.{IsTailSecond};
ghost use Rattle.zones.specs.Seconds.{IsSecond};
ghost use Rattle.zones.specs.Zones.{IsZoneOffset};

use calendar_values::UtcOffset;
use plain_times::PlainDateTime;
use utc_times::UtcDateTime;
use zones::Zone;

// The offset of a number of seconds.
pub(crate) fn offset_of(seconds: i32) -> UtcOffset
    requires { IsOffset seconds }
    ensures { result ≡ seconds }
{
    UtcOffset::from_whole_seconds(seconds).unwrap()
}

// The offset of the zone at a Unix second.
pub(crate) fn offset_at(zone: &Zone, second: i64) -> UtcOffset
    requires { IsSecond second }
    ensures { IsZoneOffset zone.now second result }
{
    zone.utc_offset_at(second)
}

// The wall clock of a Unix second at an offset, if it is in range.
pub(crate) fn wall_clock_at(second: i64, offset: UtcOffset) -> Option<PlainDateTime>
    requires { IsTailSecond second }
    ensures { SomeInRange result (shown_at (instant_of_second second) offset) }
{
    match UtcDateTime::from_unix_timestamp(second + offset.whole_seconds() as i64) {
        Ok(shown) => Some(shown.as_plain()),
        Err(_) => None,
    }
}
