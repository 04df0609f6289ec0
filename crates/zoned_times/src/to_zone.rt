//! Instants on the clocks of a zone.
ghost use Rattle.std.specs.Prelude.{◌≡◌, IfSome, ℤ, pos, ◌+ℤ◌, ◌-ℤ◌};
ghost use Rattle.calendar_values.specs.WallClock.{unix_seconds_of};
ghost use Rattle.offset_times.specs.Local.{instant_of};
ghost use Rattle.zones.specs.Seconds.{IsSecond};
ghost use Rattle.zoned_times.specs.Zoned.{ShownIn, AreDaysLater, AreMonthsLater, IsNextAfter, IsLastBefore};

use crate::LocalTimes;
use crate::seconds::offset_at;
use crate::shifts::{days_later, months_later};
use offset_times::{OffsetDateTime, ToOffset};
use stamp_times::Timestamp;
use utc_times::UtcDateTime;
use zones::{Transition, Zone};

/// A type with an instant that the clocks of a zone show.
pub trait ToZone: Sized {
    /// Its instant.
    ghost instant_zoned: { Self → ℤ };

    /// The same instant at the offset that the zone has then. None if its date there is out of
    /// range.
    fn to_zone(self, zone: &Zone) -> Option<OffsetDateTime>
        ensures value { ShownIn zone.now (instant_zoned self) result }
        ensures instant { IfSome result (λ at. instant_of at ≡ instant_zoned self) };

    /// The first transition of the zone after the instant, or None if there is none.
    fn next_transition_in_zone(self, zone: &Zone) -> Option<Transition>
        ensures { IsNextAfter zone.now (instant_zoned self) result };

    /// The last transition of the zone before the instant, or None if there is none.
    fn previous_transition_in_zone(self, zone: &Zone) -> Option<Transition>
        ensures { IsLastBefore zone.now (instant_zoned self) result };

    /// The date-times of the zone at the same time of day a number of days later, or earlier for a
    /// negative number. The days are those of the zone's clocks: one may have 23 or 25 hours. None
    /// if the date in the zone is out of range, now or then.
    fn checked_add_days_in_zone(self, days: i64, zone: &Zone) -> Option<LocalTimes>
        ensures { AreDaysLater zone.now (instant_zoned self) days result }
    {
        match self.to_zone(zone) {
            Some(shown) => days_later(shown.date_time(), days, zone),
            None => None,
        }
    }

    /// The date-times of the zone at the same time of day a number of months later, or earlier for
    /// a negative number: on the last day of a month that is shorter. None if the date in the zone
    /// is out of range, now or then.
    fn checked_add_months_in_zone(self, months: i32, zone: &Zone) -> Option<LocalTimes>
        ensures { AreMonthsLater zone.now (instant_zoned self) months result }
    {
        match self.to_zone(zone) {
            Some(shown) => months_later(shown.date_time(), months, zone),
            None => None,
        }
    }
}

impl ToZone for UtcDateTime {
    ghost instant_zoned = { λ instant. instant };

    fn to_zone(self, zone: &Zone) -> Option<OffsetDateTime> {
        self.checked_to_offset(offset_at(zone, self.unix_timestamp()))
    }

    fn next_transition_in_zone(self, zone: &Zone) -> Option<Transition> {
        OffsetDateTime::from(self).next_transition_in_zone(zone)
    }

    fn previous_transition_in_zone(self, zone: &Zone) -> Option<Transition> {
        OffsetDateTime::from(self).previous_transition_in_zone(zone)
    }
}

impl ToZone for OffsetDateTime {
    ghost instant_zoned = { λ at. instant_of at };

    fn to_zone(self, zone: &Zone) -> Option<OffsetDateTime> {
        // For the proof alone: what is read lies in its range.
        let _in_range = self.offset();
        self.checked_to_offset(offset_at(zone, self.unix_timestamp()))
    }

    fn next_transition_in_zone(self, zone: &Zone) -> Option<Transition> {
        let _in_range = self.offset();
        zone.next_transition(self.unix_timestamp())
    }

    fn previous_transition_in_zone(self, zone: &Zone) -> Option<Transition> {
        let _in_range = self.offset();
        zone.previous_transition(second_from(self))
    }
}

impl ToZone for Timestamp {
    ghost instant_zoned = { λ instant. instant };

    fn to_zone(self, zone: &Zone) -> Option<OffsetDateTime> {
        self.to_utc().to_zone(zone)
    }

    fn next_transition_in_zone(self, zone: &Zone) -> Option<Transition> {
        self.to_utc().next_transition_in_zone(zone)
    }

    fn previous_transition_in_zone(self, zone: &Zone) -> Option<Transition> {
        self.to_utc().previous_transition_in_zone(zone)
    }
}

// The first Unix second that does not begin before the instant.
fn second_from(at: OffsetDateTime) -> i64
    ensures value { result ≡ unix_seconds_of (instant_of at -ℤ pos 1) +ℤ pos 1 }
    ensures in_range { IsSecond result }
{
    // For the proof alone: what is read lies in its range.
    let _in_range = at.offset();
    let second = at.unix_timestamp();
    if at.nanosecond() == 0 {
        second
    } else {
        second + 1
    }
}
