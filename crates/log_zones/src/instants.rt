//! The instant of a wall clock in a zone.
ghost use Rattle.std.specs.Prelude.{◌≡◌, ◌+ℤ◌, ◌*ℤ◌, pos};
ghost use Rattle.calendar_values.specs.Clock.{nanos_per_second};
ghost use Rattle.calendar_values.specs.WallClock.{unix_seconds_of};
ghost use Rattle.log_zones.specs.Instants.{in_range, instant_by, zone_instant};
ghost use Rattle.plain_times.specs.Sums.{wall_clock_if_any};
ghost use Rattle.zones.specs.Seconds.{IsSecond};

use crate::earliest::earliest_second;
use calendar_values::SignedDuration;
use utc_times::UtcDateTime;
use zones::OwnedZone;

/// Why a wall clock has no instant in a zone.
#[derive(Clone, Copy, Debug, PartialEq, Eq)]
pub enum NoInstant {
    /// The clocks of the zone jump past it.
    Skipped,
    /// Its instant is out of range.
    OutOfRange,
}

/// Returns the instant at which the clocks of the zone show a wall clock. You pass the wall clock
/// as the instant at which clocks in UTC show it. Where the clocks go back over it, the instant is
/// the earlier one of two. Fails with `Skipped` if the clocks jump past it. Fails with `OutOfRange`
/// if the instant is not in the years from -999999 to 999999.
#[tactic(auto, unfolding(crate::specs::Instants::zone_instant))]
pub fn instant_in(zone: &OwnedZone, wall: UtcDateTime) -> Result<UtcDateTime, NoInstant>
    ensures { result ≡ zone_instant zone.now wall }
{
    let local = second_of(wall);
    match earliest_second(zone, local) {
        Some(second) => later_by(wall, second - local),
        None => Err(NoInstant::Skipped),
    }
}

// The Unix second of an instant.
pub(crate) fn second_of(instant: UtcDateTime) -> i64
    ensures value { result ≡ unix_seconds_of instant }
    ensures in_range { IsSecond result }
{
    instant.unix_timestamp()
}

// The instant some seconds later, if it is in range.
fn later_by(instant: UtcDateTime, seconds: i64) -> Result<UtcDateTime, NoInstant>
    ensures { result ≡ in_range (wall_clock_if_any (instant +ℤ seconds *ℤ pos nanos_per_second)) }
{
    match instant.checked_add(SignedDuration::seconds(seconds)) {
        Some(instant) => Ok(instant),
        None => Err(NoInstant::OutOfRange),
    }
}
