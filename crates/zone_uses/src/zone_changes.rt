//! Changes of the clocks of a zone, and days and months on them.
ghost use Rattle.std.specs.Prelude.{IfSome};
ghost use Rattle.offset_times.specs.Local.{instant_of};
ghost use Rattle.zone_uses.specs.Changes.{IsEarlier, IsLater, IsMonthAfter, IsOnly};
ghost use Rattle.zoned_times.specs.Zoned.{IsLastBefore, IsLengthOfDay, IsNextAfter, IsStartOfDay};

use calendar_values::{Date, SignedDuration};
use offset_times::OffsetDateTime;
use plain_times::PlainDateTime;
use stamp_times::Timestamp;
use zoned_times::{AtZone, ToZone, ZoneDays};
use zones::{Transition, Zone};

/// The next change of the clocks of the zone. None if they never change again.
pub fn change_after(at: Timestamp, zone: &Zone) -> Option<Transition>
    ensures { IsNextAfter zone.now at result }
{
    at.next_transition_in_zone(zone)
}

/// The last change of the clocks of the zone. None if they had none before.
pub fn change_before(at: Timestamp, zone: &Zone) -> Option<Transition>
    ensures { IsLastBefore zone.now at result }
{
    at.previous_transition_in_zone(zone)
}

/// The payment a month after one, at the same time by the clocks of the zone. None out of range.
pub fn payment_after(payment: OffsetDateTime, zone: &Zone) -> Option<OffsetDateTime>
    ensures { IfSome result (λ next. IsMonthAfter zone.now (instant_of payment) next) }
{
    match payment.checked_add_months_in_zone(1, zone) {
        Some(times) => times.compatible().ok(),
        None => None,
    }
}

/// The start of a day of the zone, which is no midnight if its clocks skip that. None out of range.
pub fn day_start(day: Date, zone: &Zone) -> Option<OffsetDateTime>
    ensures { IsStartOfDay zone.now day result }
{
    day.start_of_day_in_zone(zone)
}

/// How long a day of the zone lasts: 23 or 25 hours if its clocks change by one.
pub fn day_length(day: Date, zone: &Zone) -> SignedDuration
    ensures { IsLengthOfDay zone.now day result }
{
    day.length_of_day_in_zone(zone)
}

/// The date-time of the zone with the wall clock. None unless there is one alone.
pub fn only(wall: PlainDateTime, zone: &Zone) -> Option<OffsetDateTime>
    ensures { IfSome result (λ at. IsOnly zone.now wall at) }
{
    wall.at_zone(zone).reject().ok()
}

/// The earlier date-time of the zone with the wall clock, in a gap the one before it. None out of
/// range.
pub fn earlier(wall: PlainDateTime, zone: &Zone) -> Option<OffsetDateTime>
    ensures { IfSome result (λ at. IsEarlier zone.now wall at) }
{
    wall.at_zone(zone).earlier().ok()
}

/// The later date-time of the zone with the wall clock, in a gap the one after it. None out of
/// range.
pub fn later(wall: PlainDateTime, zone: &Zone) -> Option<OffsetDateTime>
    ensures { IfSome result (λ at. IsLater zone.now wall at) }
{
    wall.at_zone(zone).later().ok()
}
