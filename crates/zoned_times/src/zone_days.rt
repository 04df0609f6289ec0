//! Days on the clocks of a zone.
ghost use Rattle.std.specs.Prelude.{ℤ};
ghost use Rattle.zoned_times.specs.Zoned.{IsStartOfDay, IsLengthOfDay};

use crate::seconds::{offset_at, wall_clock_at};
use calendar_values::{Date, SignedDuration};
use offset_times::{Assume, OffsetDateTime};
use zones::Zone;

/// A type with a day, which begins and ends on the clocks of a zone.
pub trait ZoneDays {
    /// Its day.
    ghost day_zoned: { Self → ℤ };

    /// The first date-time of the day in the zone. It is no midnight if clocks are put forward past
    /// that. Of a day that the clocks skip, it is that of the next day. None if its date is out of
    /// range.
    fn start_of_day_in_zone(self, zone: &Zone) -> Option<OffsetDateTime>
        ensures { IsStartOfDay zone.now (day_zoned self) result };

    /// How long the day lasts in the zone, up to the start of the next one: 24 hours on most days,
    /// 23 or 25 where clocks are put forward or back by an hour, and none on a day that they skip.
    fn length_of_day_in_zone(self, zone: &Zone) -> SignedDuration
        ensures { IsLengthOfDay zone.now (day_zoned self) result };
}

impl ZoneDays for Date {
    ghost day_zoned = { λ day. day };

    fn start_of_day_in_zone(self, zone: &Zone) -> Option<OffsetDateTime> {
        let second = zone.start_of_day(self.days_since_epoch() as i64);
        let offset = offset_at(zone, second);
        match wall_clock_at(second, offset) {
            Some(wall) => Some(wall.assume_offset(offset)),
            None => None,
        }
    }

    fn length_of_day_in_zone(self, zone: &Zone) -> SignedDuration {
        SignedDuration::seconds(zone.length_of_day(self.days_since_epoch() as i64))
    }
}
