//! Offsets from UTC.
ghost use Rattle.std.specs.Prelude.{◌≡◌, ℤ, unsigned_abs, ◌<◌, ◌≤◌};
ghost use Rattle.calendar_values.specs.Offsets.{AreSignedOffsetParts, seconds_of_parts, offset_hours_of, offset_minutes_of, offset_seconds_of, with_sign_of};
ghost use Rattle.calendar_values.specs.Offsets.{offset_outcome, offset_seconds_outcome};
ghost use Rattle.calendar_values.specs.Outcomes.{Gives};

use crate::component_range::{ComponentRange, Part};
use crate::units::SECONDS_PER_HOUR;
use std::marker::Model;

mod comparisons;
mod reads;
mod texts;

/// An offset from UTC, -25:59:59 to 25:59:59, as in the `time` crate. It is positive east of
/// Greenwich, where clocks show more. A contract sees the number of its seconds, -93,599 to 93,599.
///
/// ```
/// let newfoundland = UtcOffset::from_hms(-3, -30, 0)?;
/// assert_eq!(rt; newfoundland.whole_seconds(), -12_600);
/// assert_eq!(rt; newfoundland.minutes_past_hour(), -30);
/// ```
#[derive(Clone, Copy)]
pub struct UtcOffset {
    hours: i8,
    minutes: i8,
    seconds: i8,
}

impl Model for UtcOffset {
    ghost use Rattle.std.specs.Prelude.{ℤ};

    ghost Value = { ℤ };

    ghost use Rattle.calendar_values.specs.Offsets.{AreSignedOffsetParts, seconds_of_parts, offset_hours_of, offset_minutes_of, offset_seconds_of};
    ghost use Rattle.calendar_values.specs.OffsetPartLemmas.{offset_hours_of-parts, offset_minutes_of-parts, offset_seconds_of-parts};

    ghost view = { λ a. seconds_of_parts a.hours a.minutes a.seconds };

    ghost invariant = { λ a. AreSignedOffsetParts a.hours a.minutes a.seconds };

    ghost inverse = { λ o. record {
      hours = offset_hours_of o;
      minutes = offset_minutes_of o;
      seconds = offset_seconds_of o;
    } };

    ghost inverse_ok = { λ a h i. record {
      hours = offset_hours_of-parts a.hours a.minutes a.seconds h i;
      minutes = offset_minutes_of-parts a.hours a.minutes a.seconds h i;
      seconds = offset_seconds_of-parts a.hours a.minutes a.seconds h i;
    } };
}

impl UtcOffset {
    /// UTC itself, the offset 0.
    pub const UTC: UtcOffset = UtcOffset {
        hours: 0,
        minutes: 0,
        seconds: 0,
    };

    /// The offset of hours, -25 to 25, and of minutes and seconds, -59 to 59. The smaller parts
    /// take the sign of the hours, or of the minutes if the hours are 0, as the `time` crate
    /// documents: `from_hms(1, -2, -3)` is 1:02:03. Fails with the first part out of range:
    /// `hours`, `minutes` or `seconds`, unconditionally.
    ///
    /// ```
    /// assert_eq!(rt; UtcOffset::from_hms(5, 45, 0)?.whole_seconds(), 20_700);
    /// assert_eq!(rt; UtcOffset::from_hms(26, 0, 0), Err(ComponentRange::new("hours", false)));
    /// ```
    pub fn from_hms(hours: i8, minutes: i8, seconds: i8) -> Result<UtcOffset, ComponentRange>
        ensures { Gives result (offset_outcome hours minutes seconds) }
    {
        if hours.unsigned_abs() > 25 {
            return Err(ComponentRange::of_part(Part::Hours, false));
        }
        if minutes.unsigned_abs() > 59 {
            return Err(ComponentRange::of_part(Part::Minutes, false));
        }
        if seconds.unsigned_abs() > 59 {
            return Err(ComponentRange::of_part(Part::Seconds, false));
        }
        Ok(UtcOffset {
            hours,
            minutes: with_sign_of(hours, minutes),
            seconds: with_sign_of(hours, with_sign_of(minutes, seconds)),
        })
    }

    /// The offset of a number of seconds. Fails with `offset_seconds`, unconditionally, outside
    /// -93,599 to 93,599.
    ///
    /// ```
    /// assert_eq!(rt; UtcOffset::from_whole_seconds(-34_200)?, UtcOffset::from_hms(-9, -30, 0)?);
    /// assert_eq!(rt;
    ///     UtcOffset::from_whole_seconds(93_600),
    ///     Err(ComponentRange::new("offset_seconds", false))
    /// );
    /// ```
    #[tactic(auto, unfolding(crate::specs::Offsets::offset_of_seconds))]
    pub fn from_whole_seconds(seconds: i32) -> Result<UtcOffset, ComponentRange>
        ensures { Gives result (offset_seconds_outcome seconds) }
    {
        if seconds < -93_599 || seconds > 93_599 {
            return Err(ComponentRange::of_part(Part::OffsetSeconds, false));
        }
        Ok(UtcOffset {
            hours: (seconds / SECONDS_PER_HOUR) as i8,
            minutes: (seconds / 60 % 60) as i8,
            seconds: (seconds % 60) as i8,
        })
    }
}

// A part, with the sign of a greater part; it keeps its own where that one is 0.
fn with_sign_of(greater: i8, part: i8) -> i8
    requires { unsigned_abs part ≤ 59 }
    ensures { result ≡ with_sign_of greater part }
{
    if greater < 0 && part > 0 || greater > 0 && part < 0 {
        -part
    } else {
        part
    }
}
