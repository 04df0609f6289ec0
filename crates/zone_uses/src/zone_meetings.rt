//! Meetings and runs at a time of day in a zone, whose clocks may change in between.
ghost use Rattle.std.specs.Prelude.{◌*◌, pos, ◌+ℤ◌, IfSome};
ghost use Rattle.calendar_values.specs.Clock.{nanos_per_hour};
ghost use Rattle.calendar_values.specs.WallClock.{wall_clock};
ghost use Rattle.offset_times.specs.Local.{instant_of};
ghost use Rattle.zone_uses.specs.Meetings.{IsAt, IsDayAfter, IsBetween};

use calendar_values::{Date, SignedDuration, Time};
use offset_times::OffsetDateTime;
use plain_times::PlainDateTime;
use zoned_times::{AtZone, ToZone};
use zones::Zone;

/// The date-time of the zone with the wall clock: the first of two, and in a gap the one after it.
/// None if it is out of range.
pub fn at(wall: PlainDateTime, zone: &Zone) -> Option<OffsetDateTime>
    ensures { IfSome result (λ at. IsAt zone.now wall at) }
{
    wall.at_zone(zone).compatible().ok()
}

/// The meeting at 9:00 in the zone, on a day such as a Monday. None out of range.
pub fn meeting(day: Date, zone: &Zone) -> Option<OffsetDateTime>
    ensures { IfSome result (λ meeting. IsAt zone.now
        (wall_clock day (9 * nanos_per_hour)) meeting) }
{
    let nine = Time::from_hms(9, 0, 0).ok()?;
    Some(at(PlainDateTime::new(day, nine), zone)?)
}

/// The meeting a week after one on that day. None out of range.
pub fn meeting_after(day: Date, zone: &Zone) -> Option<OffsetDateTime>
    ensures { IfSome result (λ meeting. IsAt zone.now
        (wall_clock (day +ℤ pos 7) (9 * nanos_per_hour)) meeting) }
{
    Some(meeting(day.checked_add_days(7)?, zone)?)
}

/// The run a day after a run, at the same time by the clocks of the zone. None out of range.
pub fn run_after(run: OffsetDateTime, zone: &Zone) -> Option<OffsetDateTime>
    ensures { IfSome result (λ next. IsDayAfter zone.now (instant_of run) next) }
{
    match run.checked_add_days_in_zone(1, zone) {
        Some(times) => times.compatible().ok(),
        None => None,
    }
}

/// How long it is in the zone from one wall clock to another. None if one of them is out of range.
pub fn between(from: PlainDateTime, until: PlainDateTime, zone: &Zone) -> Option<SignedDuration>
    ensures { IfSome result (λ duration. IsBetween zone.now from until duration) }
{
    let begin = at(from, zone)?;
    let end = at(until, zone)?;
    Some(end - begin)
}
