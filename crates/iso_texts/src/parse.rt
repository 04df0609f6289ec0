//! Texts read.
ghost use Rattle.std.specs.Prelude.{◌≡◌, ◌≤◌, ◌⊎◌, IfSome, OkIff, Err, Ok, Some};
ghost use Rattle.offset_times.specs.Local.{Local, IsLocal};
ghost use Rattle.rfc3339.specs.declared.refusal.TextRefusal.TheVariants.{Syntax};
ghost use Rattle.iso_texts.specs.IsoForms.{IsIsoDateTime};
ghost use Rattle.iso_texts.specs.IsoMeaning.{with_sign, iso_offset_of, iso_value_of, iso_meaning, AreInIsoRange};
ghost use Rattle.iso_texts.specs.IsoReading.{iso_reading_of};
ghost use Rattle.iso_texts.specs.IsoTexts.{iso_text};
ghost use Rattle.iso_texts.specs.declared.parts.IsoParts.{IsoParts};

use crate::IsoParts;
use crate::reading::parts;
use calendar_values::{Date, Month, Time, UtcOffset};
use offset_times::OffsetDateTime;
use rfc3339::{Component, TextRefusal};

/// Reads a date-time of ISO 8601, with nothing before or after it: one of RFC 3339, as
/// `rfc3339::parse_rfc3339` reads it, or with a sign and six digits of the year, as
/// `-004712-01-01T00:00:00Z`. An offset has hours from 0 to 25, and can have seconds from 00 to 59,
/// as `+01:19:32`. A year of `-000000` is the year 0, as `-00:00` is the offset 0. Digits of the
/// fraction past the ninth drop out. Fails with `Syntax` if the text has another form, else with
/// the first part from the left that is out of range.
///
/// ```
/// let at = iso_texts::date_time_from_iso(b"+294276-12-31T23:59:59.999999Z")?;
/// assert_eq!(rt; at.year(), 294_276);
/// let short = iso_texts::date_time_from_iso(b"-4712-01-01T00:00:00Z");
/// assert_eq!(rt; short, Err(TextRefusal::Syntax));
/// ```
pub fn date_time_from_iso(text: &[u8]) -> Result<OffsetDateTime, TextRefusal>
    // The whole answer, as a word that computes.
    ensures reading { result ≡ iso_reading_of text.now }

    // The same by the grammar: a text that it derives is accepted exactly where its numbers are in their ranges, and
    // refused by the first that is not; any other is refused for its form.
    ensures value { (p : IsoParts) → IsIsoDateTime text.now p →
        OkIff result (AreInIsoRange p) (iso_value_of p) }
    ensures equation { (p : IsoParts) → IsIsoDateTime text.now p → result ≡ iso_meaning p }
    ensures syntax { (result ≡ Err Syntax) ⊎ ((p : IsoParts) × IsIsoDateTime text.now p) }

    // What `date_time_to_iso` wrote is read back, offset included.
    ensures written { (at : Local) → IsLocal at → text.now ≡ iso_text at → result ≡ Ok at }
{
    match parts(text) {
        Some(parts) => date_time(parts),
        None => Err(TextRefusal::Syntax),
    }
}

/// The numbers that a text of ISO 8601 spells, not tested for their ranges. None if the text has
/// another form.
///
/// ```
/// let parts = iso_texts::iso_parts(b"-000001-02-31T00:00:00Z");
/// assert_eq!(rt; parts.map(|parts| parts.day), Some(31));
/// ```
pub fn iso_parts(text: &[u8]) -> Option<IsoParts>
    ensures equation { (p : IsoParts) → IsIsoDateTime text.now p → result ≡ Some p }
    ensures spelled { IfSome result (IsIsoDateTime text.now) }
{
    parts(text)
}

// What the numbers of a text mean.
#[tactic(auto, unfolding(crate::specs::IsoMeaning::iso_meaning))]
fn date_time(parts: IsoParts) -> Result<OffsetDateTime, TextRefusal>
    requires nanosecond { parts.nanosecond ≤ 999_999_999 }
    requires year { parts.year ≤ 999_999 }
    requires offset_second { parts.offset_second ≤ 59 }
    ensures value { result ≡ iso_meaning parts }
{
    let Ok(month) = Month::from_number(parts.month) else {
        return Err(TextRefusal::OutOfRange(Component::Month));
    };
    let year = with_sign(parts.is_before, parts.year);
    let Ok(date) = Date::from_calendar_date(year, month, parts.day) else {
        return Err(TextRefusal::OutOfRange(Component::Day));
    };
    if parts.hour > 23 {
        return Err(TextRefusal::OutOfRange(Component::Hour));
    }
    if parts.minute > 59 {
        return Err(TextRefusal::OutOfRange(Component::Minute));
    }
    let Ok(time) = Time::from_hms_nano(parts.hour, parts.minute, parts.second, parts.nanosecond)
    else {
        return Err(TextRefusal::OutOfRange(Component::Second));
    };
    if parts.offset_hour > 25 {
        return Err(TextRefusal::OutOfRange(Component::OffsetHour));
    }
    if parts.offset_minute > 59 {
        return Err(TextRefusal::OutOfRange(Component::OffsetMinute));
    }
    let offset = offset(
        parts.is_west,
        parts.offset_hour,
        parts.offset_minute,
        parts.offset_second,
    );
    Ok(OffsetDateTime::new_in_offset(date, time, offset))
}

// A number with its sign.
fn with_sign(is_below: bool, number: u32) -> i32
    requires { number ≤ 999_999 }
    ensures { result ≡ with_sign is_below number }
{
    if is_below {
        -(number as i32)
    } else {
        number as i32
    }
}

// The offset of a sign, hours, minutes and seconds.
#[tactic(auto, using(crate::proofs::IsoRangeLemmas::signed_offsets))]
fn offset(is_west: bool, hour: u8, minute: u8, second: u8) -> UtcOffset
    requires hour { hour ≤ 25 }
    requires minute { minute ≤ 59 }
    requires second { second ≤ 59 }
    ensures { result ≡ iso_offset_of is_west hour minute second }
{
    let number = hour as u32 * 3_600 + minute as u32 * 60 + second as u32;
    let seconds = with_sign(is_west, number);
    UtcOffset::from_whole_seconds(seconds).unwrap()
}
