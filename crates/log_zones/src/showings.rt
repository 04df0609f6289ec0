//! How often the clocks of a zone show a wall clock.
ghost use Rattle.std.specs.Prelude.{◌≡◌};
ghost use Rattle.calendar_values.specs.WallClock.{unix_seconds_of};
ghost use Rattle.log_zones.specs.Showings.{IsShowing};
ghost use Rattle.zones.specs.Seconds.{IsSecond};

use crate::instants::second_of;
use utc_times::UtcDateTime;
use zones::{LocalInstants, OwnedZone};

/// How often the clocks of a zone show a wall clock.
#[derive(Clone, Copy, Debug, PartialEq, Eq)]
pub enum Showing {
    /// Once.
    Once,
    /// Twice, since they go back over it.
    Twice,
    /// Never, since they jump past it: from the first wall clock to the second one. Each is the
    /// Unix second at which clocks in UTC show it.
    Never(i64, i64),
}

/// Returns how often the clocks of the zone show a wall clock. You pass the wall clock as the
/// instant at which clocks in UTC show it.
pub fn showing_in(zone: &OwnedZone, wall: UtcDateTime) -> Showing
    ensures { IsShowing zone.now (unix_seconds_of wall) result }
{
    showing_at(zone, second_of(wall))
}

// How often the clocks of the zone show the wall clock of a second.
fn showing_at(zone: &OwnedZone, local: i64) -> Showing
    requires { IsSecond local }
    ensures { IsShowing zone.now local result }
{
    let zone = zone.zone();
    match zone.instants_of(local) {
        LocalInstants::Single(_) => Showing::Once,
        LocalInstants::Fold(_, _) => Showing::Twice,
        LocalInstants::Gap(earlier, later, second) => {
            Showing::Never(second + (local - later), second + (local - earlier))
        }
    }
}
