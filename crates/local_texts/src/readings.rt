//! Texts without an offset, read.
ghost use Rattle.std.specs.Prelude.{◌≡◌, ◌≤◌, ◌++◌, ◌⊎◌, List, ℕ, codes, length, IfOk, OkIff, Err};
ghost use Rattle.calendar_values.specs.WallClock.{wall_time};
ghost use Rattle.offset_times.specs.Local.{wall_at};
ghost use Rattle.rfc3339.specs.Form.{IsDateTime};
ghost use Rattle.rfc3339.specs.Meaning.{meaning, value_of, AreInRange};
ghost use Rattle.rfc3339.specs.Reading.{reading_of, reading_as};
ghost use Rattle.rfc3339.specs.declared.parts.Parts.{Parts};
ghost use Rattle.rfc3339.specs.declared.refusal.TextRefusal.TheVariants.{Syntax};
ghost use Rattle.local_texts.specs.LocalForms.{IsLocalDateTime, IsLocalTime, date_time_in_utc, time_in_utc};
ghost use Rattle.local_texts.specs.LocalForms.{wall_of_parts, time_of_parts, value_at, reading_at, meaning_as};

use crate::in_utc::{UTC_ROOM, write_in_utc};
use calendar_values::{Time, UtcOffset};
use offset_times::{Assume, OffsetDateTime};
use plain_times::PlainDateTime;
use rfc3339::{TextRefusal, parse_rfc3339};

/// Reads a date-time without an offset, with nothing before or after it, as
/// `2024-02-29T12:34:56.5`: a `date-time` of RFC 3339, section 5.6, without its `time-offset`. A
/// `t` or a space can replace the `T`. Digits of the fraction past the ninth drop out. Fails as
/// `rfc3339::parse_rfc3339` does.
///
/// ```
/// let shown = local_texts::parse_date_time(b"2024-02-29 12:34:56.5")?;
/// assert_eq!(rt; shown.as_hms_nano(), (12, 34, 56, 500_000_000));
/// assert_eq!(rt; local_texts::parse_date_time(b"2024-02-29T12:34:56Z"), Err(TextRefusal::Syntax));
/// ```
pub fn parse_date_time(text: &[u8]) -> Result<PlainDateTime, TextRefusal>
    // The whole answer: the wall clock of the text with `Z` at its end.
    ensures reading { result ≡ reading_as (λ at. at.wall) (date_time_in_utc text.now) }

    // The same by the form of the text.
    ensures value { (p : Parts) → IsLocalDateTime text.now p →
        OkIff result (AreInRange p) (wall_of_parts p) }
    ensures equation { (p : Parts) → IsLocalDateTime text.now p →
        result ≡ meaning_as (λ at. at.wall) p }
    ensures syntax { (result ≡ Err Syntax) ⊎ ((p : Parts) × IsLocalDateTime text.now p) }
    ensures accepted { IfOk result (λ shown.
        (p : Parts) × IsLocalDateTime text.now p × AreInRange p × (shown ≡ wall_of_parts p)) }
{
    read_date_time(text)
}

// The same by the text in UTC.
fn read_date_time(text: &[u8]) -> Result<PlainDateTime, TextRefusal>
    ensures { result ≡ reading_as (λ at. at.wall) (date_time_in_utc text.now) }
{
    match read_in_utc(b"", text) {
        Ok(at) => Ok(at.date_time()),
        Err(refusal) => Err(refusal),
    }
}

/// Reads a time of day, with nothing before or after it, as `12:34:56.5`: a `partial-time` of RFC
/// 3339, section 5.6. Digits of the fraction past the ninth drop out. Fails as
/// `rfc3339::parse_rfc3339` does.
///
/// ```
/// assert_eq!(rt; local_texts::parse_time(b"23:20:50.52")?.nanosecond(), 520_000_000);
/// assert_eq!(rt;
///     local_texts::parse_time(b"24:00:00"),
///     Err(TextRefusal::OutOfRange(Component::Hour))
/// );
/// ```
pub fn parse_time(text: &[u8]) -> Result<Time, TextRefusal>
    // The whole answer: the time of day of the text as one of 1970-01-01.
    ensures reading { result ≡ reading_as (λ at. wall_time at.wall) (time_in_utc text.now) }

    // The same by the form of the text.
    ensures value { (p : Parts) → IsLocalTime text.now p →
        OkIff result (AreInRange p) (time_of_parts p) }
    ensures equation { (p : Parts) → IsLocalTime text.now p →
        result ≡ meaning_as (λ at. wall_time at.wall) p }
    ensures syntax { (result ≡ Err Syntax) ⊎ ((p : Parts) × IsLocalTime text.now p) }
    ensures accepted { IfOk result (λ shown.
        (p : Parts) × IsLocalTime text.now p × AreInRange p × (shown ≡ time_of_parts p)) }
{
    read_time(text)
}

// The same by the text in UTC.
fn read_time(text: &[u8]) -> Result<Time, TextRefusal>
    ensures { result ≡ reading_as (λ at. wall_time at.wall) (time_in_utc text.now) }
{
    match read_in_utc(b"1970-01-01T", text) {
        Ok(at) => Ok(at.time()),
        Err(refusal) => Err(refusal),
    }
}

/// Reads a date-time with or without an offset. It reads a text with an offset as
/// `rfc3339::parse_rfc3339` does. It reads a text without one as [`parse_date_time`] does, and
/// takes the offset `assumed`. Fails as these two do.
///
/// ```
/// let assumed = UtcOffset::from_hms(1, 0, 0)?;
/// let at = local_texts::parse_date_time_at(b"1970-01-01T01:00:00", assumed)?;
/// assert_eq!(rt; at.unix_timestamp(), 0);
/// let at = local_texts::parse_date_time_at(b"1970-01-01T01:00:00Z", assumed)?;
/// assert_eq!(rt; at.unix_timestamp(), 3_600);
/// ```
pub fn parse_date_time_at(text: &[u8], assumed: UtcOffset) -> Result<OffsetDateTime, TextRefusal>
    // The whole answer, as a word that computes.
    ensures reading { result ≡ reading_at assumed text.now }

    // A text with an offset keeps it, and one without has the offset that is assumed. Each fails by its first part that
    // is out of range.
    ensures own { (p : Parts) → IsDateTime text.now p → OkIff result (AreInRange p) (value_of p) }
    ensures own_equation { (p : Parts) → IsDateTime text.now p → result ≡ meaning p }
    ensures assumed { (p : Parts) → IsLocalDateTime text.now p →
        OkIff result (AreInRange p) (value_at assumed p) }
    ensures assumed_equation { (p : Parts) → IsLocalDateTime text.now p →
        result ≡ meaning_as (λ at. wall_at at.wall assumed) p }
    ensures syntax { (result ≡ Err Syntax)
        ⊎ (((p : Parts) × IsDateTime text.now p) ⊎ ((p : Parts) × IsLocalDateTime text.now p)) }
    ensures accepted { IfOk result (λ at.
        ((p : Parts) × IsDateTime text.now p × AreInRange p × (at ≡ value_of p)) ⊎
        ((p : Parts) × IsLocalDateTime text.now p × AreInRange p × (at ≡ value_at assumed p))) }
{
    read_date_time_at(text, assumed)
}

// The same by the readings of the text and of the text in UTC.
fn read_date_time_at(text: &[u8], assumed: UtcOffset) -> Result<OffsetDateTime, TextRefusal>
    ensures { result ≡ reading_at assumed text.now }
{
    match parse_rfc3339(text) {
        Ok(at) => Ok(at),
        Err(refusal) => match refusal {
            TextRefusal::Syntax => at_offset(text, assumed),
            TextRefusal::OutOfRange(component) => Err(TextRefusal::OutOfRange(component)),
        },
    }
}

// The date-time of a text without an offset, at this one.
fn at_offset(text: &[u8], assumed: UtcOffset) -> Result<OffsetDateTime, TextRefusal>
    ensures { result ≡ reading_as (λ at. wall_at at.wall assumed) (date_time_in_utc text.now) }
{
    match read_date_time(text) {
        Ok(shown) => Ok(shown.assume_offset(assumed)),
        Err(refusal) => Err(refusal),
    }
}

// The reading of a text in UTC after a date, or after nothing.
fn read_in_utc(date: &[u8], text: &[u8]) -> Result<OffsetDateTime, TextRefusal>
    requires { length date.now ≤ 11 }
    ensures { result ≡ reading_of (date.now ++ text.now ++ codes "Z") }
{
    let mut room = [0; UTC_ROOM];
    match write_in_utc(date, text, &mut room) {
        Some(length) => parse_rfc3339(&room[..length]),
        None => Err(TextRefusal::Syntax),
    }
}
