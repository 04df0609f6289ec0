//! Instants as texts for a reader.
ghost use Rattle.std.specs.Prelude.{◌≡◌, IfSome, ◌↔◌, IsSome, SomeIff};
ghost use Rattle.calendar_values.specs.Calendar.{month_of};
ghost use Rattle.calendar_values.specs.Month.{month_number};
ghost use Rattle.calendar_values.specs.WallClock.{wall_day, IsWallClock};
ghost use Rattle.offset_times.specs.Local.{local_at, shown_at};
ghost use Rattle.offset_times.specs.Texts.{offset_date_time_text};
ghost use Rattle.stamp_times.specs.Instants.{instant_of_milliseconds};

use crate::milliseconds::stamp_of;
use calendar_values::{Date, Month, Text, UtcOffset};
use offset_times::ToOffset;
use utc_times::UtcDateTime;

/// The text of Unix milliseconds at an offset. None where the range has no such instant, or clocks
/// there show no date of it.
pub fn text_at(milliseconds: i64, offset: UtcOffset) -> Option<Text>
    ensures { IfSome result (λ text.
        text ≡ offset_date_time_text (local_at (instant_of_milliseconds milliseconds) offset)) }
{
    Some(stamp_of(milliseconds)?.checked_to_offset(offset)?.text())
}

/// The date of an instant where the reader is. None where clocks there show no date of the range.
pub fn date_at(at: UtcDateTime, offset: UtcOffset) -> Option<Date>
    ensures { let wall = shown_at at offset in SomeIff result (IsWallClock wall) (wall_day wall) }
{
    Some(at.checked_to_offset(offset)?.date())
}

/// The month of an instant where the reader is. None where clocks there show no date of the range.
pub fn month_at(at: UtcDateTime, offset: UtcOffset) -> Option<Month>
    ensures some { IsSome result ↔ IsWallClock (shown_at at offset) }
    ensures value { IfSome result (λ month.
        month_number month ≡ month_of (wall_day (shown_at at offset))) }
{
    Some(at.checked_to_offset(offset)?.month())
}
