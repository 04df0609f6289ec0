//! Wall clocks in a zone.
ghost use Rattle.std.specs.Prelude.{◌≡◌, ◌-ℤ◌, ℤ};
ghost use Rattle.calendar_values.specs.Offsets.{IsOffset};
ghost use Rattle.calendar_values.specs.WallClock.{unix_seconds_of, IsWallClock};
ghost use Rattle.offset_times.specs.Local.{wall_at};
ghost use Rattle.zones.specs.Seconds.{IsSecond};
ghost use Rattle.zoned_times.specs.Zoned.{AreTimesOf};

use crate::seconds::offset_of;
use crate::{Gap, LocalTimes, ToZone};
use calendar_values::UtcOffset;
use offset_times::{Assume, OffsetDateTime};
use plain_times::PlainDateTime;
use utc_times::AsUtc;
use zones::{LocalInstants, Zone};

/// A type with a wall clock, which the clocks of a zone show at some instants.
pub trait AtZone {
    /// Its wall clock.
    ghost wall_clock_zoned: { Self → ℤ };

    /// The date-times of the zone with this wall clock: all of them.
    fn at_zone(self, zone: &Zone) -> LocalTimes
        ensures { AreTimesOf zone.now (wall_clock_zoned self) result };
}

impl AtZone for PlainDateTime {
    ghost wall_clock_zoned = { λ wall. wall };

    fn at_zone(self, zone: &Zone) -> LocalTimes {
        match zone.instants_of(second_shown(self)) {
            LocalInstants::Single(second) => LocalTimes::Single(time_at(self, second)),
            LocalInstants::Fold(earlier, later) => {
                LocalTimes::Fold(time_at(self, earlier), time_at(self, later))
            }
            LocalInstants::Gap(earlier, later, second) => {
                let after = time_at(self, earlier);
                let before = time_at(self, later);
                let gap = Gap {
                    second,
                    before: before.offset(),
                    after: after.offset(),
                };
                LocalTimes::Gap(gap, after.to_zone(zone), before.to_zone(zone))
            }
        }
    }
}

// The date-time of the wall clock at a Unix second at which clocks may show it.
fn time_at(wall: PlainDateTime, second: i64) -> OffsetDateTime
    requires { IsOffset (unix_seconds_of wall -ℤ second) }
    ensures { result ≡ wall_at wall (unix_seconds_of wall -ℤ second) }
{
    wall.assume_offset(offset_from(second, wall))
}

// The Unix second at which clocks in UTC show the second of the wall clock.
fn second_shown(wall: PlainDateTime) -> i64
    ensures value { result ≡ unix_seconds_of wall }
    ensures in_range { IsSecond result }
    ensures wall_in_range { IsWallClock wall }
{
    wall.as_utc().unix_timestamp()
}

// The offset at which clocks show the second of the wall clock at a Unix second.
fn offset_from(second: i64, wall: PlainDateTime) -> UtcOffset
    requires { IsOffset (unix_seconds_of wall -ℤ second) }
    ensures { result ≡ unix_seconds_of wall -ℤ second }
{
    offset_of((second_shown(wall) - second) as i32)
}
