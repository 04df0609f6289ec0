//! The earliest second of a wall clock.
ghost use Rattle.std.specs.Prelude.{◌≡◌, IfSome};
ghost use Rattle.log_zones.specs.Earliest.{earliest_second};
ghost use Rattle.zones.specs.Ranges.{IsNear};
ghost use Rattle.zones.specs.Seconds.{IsSecond};

use zones::{LocalInstants, OwnedZone};

/// Returns the earliest Unix second at which the clocks of the zone show a wall clock: the first
/// of two where they go back over it. Returns `None` if they jump past it. The wall clock is the
/// second at which clocks in UTC show it, at most 400,000,000 days from 1970.
pub fn earliest_second(zone: &OwnedZone, local: i64) -> Option<i64>
    requires { IsSecond local }
    ensures value { result ≡ earliest_second zone.now local }
    ensures near { IfSome result (λ second. IsNear local second) }
{
    let zone = zone.zone();
    // A zone tells with its first kind of local time that its transitions run forward.
    let _ = zone.first_type();
    match zone.instants_of(local) {
        LocalInstants::Single(second) => Some(second),
        LocalInstants::Fold(earlier, _) => Some(earlier),
        LocalInstants::Gap(_, _, _) => None,
    }
}
