//! Texts read.
ghost use Rattle.std.specs.Prelude.{◌≡◌, ◌≤◌, ◌⊎◌, IfOk, OkIff, IfSome, Err, Ok, Some, ℤ, pos};
ghost use Rattle.calendar_values.specs.WallClock.{IsInstant};
ghost use Rattle.offset_times.specs.Local.{Local, local_in_utc, instant_of};
ghost use Rattle.rfc3339.specs.Form.{IsDateTime};
ghost use Rattle.rfc3339.specs.Meaning.{meaning, offset_of, value_of, AreInRange};
ghost use Rattle.rfc3339.specs.Reading.{reading_of};
ghost use Rattle.rfc3339.specs.Texts.{HasText, rfc3339_text, HasFixedText, fixed_text};
ghost use Rattle.rfc3339.specs.Walls.{parts_on, IsAfterSecond};
ghost use Rattle.rfc3339.specs.declared.parts.Parts.{Parts};
ghost use Rattle.rfc3339.specs.declared.refusal.TextRefusal.TheVariants.{Syntax};

use crate::reading::{after_second, parts};
use crate::{Component, Parts, TextRefusal};
use calendar_values::{Date, Month, Time, UtcOffset};
use offset_times::OffsetDateTime;

/// Reads a `date-time` of RFC 3339, section 5.6, with nothing before or after it, as
/// `1985-04-12T23:20:50.52Z` or `1996-12-19T16:39:57-08:00`. A `t` or a space can replace the `T`,
/// and `z` the `Z`. Digits of the fraction past the ninth drop out, which rounds down. `-00:00` is
/// the offset 0. Fails with `Syntax` if the text has another form, else with the first part from
/// the left that is out of range. A second of 60 is out of range.
///
/// ```
/// let at = parse_rfc3339(b"1937-01-01T12:00:27.87+00:20")?;
/// assert_eq!(rt; at.offset().whole_seconds(), 1_200);
/// assert_eq!(rt; at.unix_timestamp_nanos(), -1_041_337_172_130_000_000);
/// assert_eq!(rt; parse_rfc3339(b"1937-01-01"), Err(TextRefusal::Syntax));
/// ```
#[inline(always)]
pub fn parse_rfc3339(text: &[u8]) -> Result<OffsetDateTime, TextRefusal>
    // The whole answer, as a word that computes.
    ensures reading { result ≡ reading_of text.now }

    // The same by the form of the text: one that spells parts is accepted exactly where they are in their ranges, and
    // refused by the first that is not; any other is refused for its form.
    ensures value { (p : Parts) → IsDateTime text.now p → OkIff result (AreInRange p) (value_of p) }
    ensures equation { (p : Parts) → IsDateTime text.now p → result ≡ meaning p }
    ensures syntax { (result ≡ Err Syntax) ⊎ ((p : Parts) × IsDateTime text.now p) }

    // What is accepted spells parts in their ranges, can be written, and has an instant in the range, so that it
    // converts to UTC.
    ensures accepted { IfOk result (λ at.
        (p : Parts) × IsDateTime text.now p × AreInRange p × (at ≡ value_of p)) }
    ensures has_text { IfOk result HasText }
    ensures instant { IfOk result (λ at. IsInstant (instant_of at)) }

    // What `to_rfc3339` wrote is read back, offset included, and what `to_rfc3339_nanos` wrote, in UTC.
    ensures written { (at : Local) → HasText at → text.now ≡ rfc3339_text at → result ≡ Ok at }
    ensures written_fixed { (i : ℤ) → HasFixedText i → text.now ≡ fixed_text i →
        result ≡ Ok (local_in_utc i) }
{
    match parts(text) {
        Some(parts) => date_time(parts),
        None => Err(TextRefusal::Syntax),
    }
}

/// The numbers of a text whose date and time of day to the second were read already: those of
/// `parts`, and those of a fraction and an offset in `text`, which follows the second. `None` if
/// `text` has another form, or more bytes.
#[inline(always)]
pub fn parts_after_second(parts: Parts, text: &[u8]) -> Option<Parts>
    requires { parts.year ≤ 9_999 }
    // The whole answer, as a word that computes.
    ensures value { result ≡ parts_on parts text.now }

    // The same by the form of the text.
    ensures equation { (p : Parts) → IsAfterSecond parts text.now p → result ≡ Some p }
    ensures spelled { IfSome result (IsAfterSecond parts text.now) }
{
    let (parts, rest) = after_second(parts, text)?;
    if rest.is_empty() { Some(parts) } else { None }
}

// What the numbers of a text mean.
#[tactic(auto, unfolding(crate::specs::Meaning::meaning))]
#[inline(always)]
pub(crate) fn date_time(parts: Parts) -> Result<OffsetDateTime, TextRefusal>
    requires nanosecond { parts.nanosecond ≤ 999_999_999 }
    requires year { parts.year ≤ 9_999 }
    ensures value { result ≡ meaning parts }
{
    let Ok(month) = Month::from_number(parts.month) else {
        return Err(TextRefusal::OutOfRange(Component::Month));
    };
    let Ok(date) = Date::from_calendar_date(parts.year as i32, month, parts.day) else {
        return Err(TextRefusal::OutOfRange(Component::Day));
    };
    if parts.hour > 23 {
        return Err(TextRefusal::OutOfRange(Component::Hour));
    }
    if parts.minute > 59 {
        return Err(TextRefusal::OutOfRange(Component::Minute));
    }
    let Ok(time) = Time::from_hms_nano(parts.hour, parts.minute, parts.second, parts.nanosecond)
    else {
        return Err(TextRefusal::OutOfRange(Component::Second));
    };
    if parts.offset_hour > 23 {
        return Err(TextRefusal::OutOfRange(Component::OffsetHour));
    }
    if parts.offset_minute > 59 {
        return Err(TextRefusal::OutOfRange(Component::OffsetMinute));
    }
    let offset = offset(parts.is_west, parts.offset_hour, parts.offset_minute);
    Ok(OffsetDateTime::new_in_offset(date, time, offset))
}

// The offset of a sign, hours and minutes. Most texts are in UTC.
#[inline(always)]
pub(crate) fn offset(is_west: bool, hour: u8, minute: u8) -> UtcOffset
    requires hour { hour ≤ 23 }
    requires minute { minute ≤ 59 }
    ensures { result ≡ offset_of is_west hour minute }
{
    if (hour == 0) & (minute == 0) {
        return UtcOffset::UTC;
    }
    offset_by_parts(is_west, hour, minute)
}

// The same of any hours and minutes.
#[inline(always)]
fn offset_by_parts(is_west: bool, hour: u8, minute: u8) -> UtcOffset
    requires hour { hour ≤ 23 }
    requires minute { minute ≤ 59 }
    ensures { result ≡ offset_of is_west hour minute }
{
    let (hours, minutes) = (hour as i8, minute as i8);
    if is_west {
        UtcOffset::from_hms(-hours, -minutes, 0).unwrap()
    } else {
        UtcOffset::from_hms(hours, minutes, 0).unwrap()
    }
}
