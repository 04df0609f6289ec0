//! Days and months on the clocks of a zone.
ghost use Rattle.std.specs.Prelude.{pos, ◌+ℤ◌, ◌*ℤ◌};
ghost use Rattle.calendar_values.specs.Clock.{nanos_per_day};
ghost use Rattle.zoned_times.specs.Zoned.{AreIfAny, wall_months_later};

use crate::{AtZone, LocalTimes};
use plain_times::PlainDateTime;
use zones::Zone;

// The date-times of the zone at the time of day of a wall clock, a number of days later.
pub(crate) fn days_later(now: PlainDateTime, days: i64, zone: &Zone) -> Option<LocalTimes>
    ensures { AreIfAny zone.now now (now +ℤ days *ℤ pos nanos_per_day) result }
{
    match now.date().checked_add_days(days) {
        Some(date) => Some(PlainDateTime::new(date, now.time()).at_zone(zone)),
        None => None,
    }
}

// The date-times of the zone at the time of day of a wall clock, a number of months later.
pub(crate) fn months_later(now: PlainDateTime, months: i32, zone: &Zone) -> Option<LocalTimes>
    ensures { AreIfAny zone.now now (wall_months_later now months) result }
{
    match now.date().checked_add_months(months) {
        Some(date) => Some(PlainDateTime::new(date, now.time()).at_zone(zone)),
        None => None,
    }
}
