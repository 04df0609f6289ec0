//! Texts of 20 bytes in UTC, as `1985-04-12T23:20:50Z`.
ghost use Rattle.std.specs.Prelude.{◌≡◌, Ok, Some, IfSome};
ghost use Rattle.calendar_values.specs.WallClock.{IsInstant};
ghost use Rattle.offset_times.specs.Local.{instant_of};
ghost use Rattle.rfc3339.specs.Meaning.{meaning};
ghost use Rattle.rfc3339.specs.Reading.{parts_at, reading_of};
ghost use Rattle.muxandu_c.specs.UtcTexts.{IsUtc};

use crate::wall_texts::wall_numbers;
use calendar_values::{Date, Month, Time};
use offset_times::OffsetDateTime;
use rfc3339::Parts;

// The date-time of such a text, if its parts are in their ranges. None says nothing of a text.
#[inline(always)]
pub(crate) fn read_utc_text(text: &[u8]) -> Option<OffsetDateTime>
    ensures reading { IfSome result (λ at. reading_of text.now ≡ Ok at) }
    ensures instant { IfSome result (λ at. IsInstant (instant_of at)) }
{
    match utc_parts(text) {
        Some(parts) => utc_value(parts),
        None => None,
    }
}

// The numbers of such a text. None says nothing of a text.
#[inline(always)]
fn utc_parts(text: &[u8]) -> Option<Parts>
    ensures value { IfSome result (λ p. parts_at text.now ≡ Some p) }
    ensures utc { IfSome result IsUtc }
{
    if text.len() != 20 || text[19] != b'Z' {
        return None;
    }
    wall_numbers(text)
}

// What numbers in UTC mean, if they are in their ranges.
#[inline(always)]
fn utc_value(parts: Parts) -> Option<OffsetDateTime>
    requires { IsUtc parts }
    ensures { IfSome result (λ at. meaning parts ≡ Ok at) }
{
    let Ok(month) = Month::from_number(parts.month) else {
        return None;
    };
    let Ok(date) = Date::from_calendar_date(parts.year as i32, month, parts.day) else {
        return None;
    };
    if parts.hour > 23 || parts.minute > 59 || parts.second > 59 {
        return None;
    }
    let Ok(time) = Time::from_hms_nano(parts.hour, parts.minute, parts.second, 0) else {
        return None;
    };
    Some(OffsetDateTime::new_utc(date, time))
}
