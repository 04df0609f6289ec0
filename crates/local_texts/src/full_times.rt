//! Times of day with an offset, read.
ghost use Rattle.std.specs.Prelude.{◌≡◌, ◌⊎◌, IfOk, OkIff, Err};
ghost use Rattle.rfc3339.specs.Front.{offset_reading_of};
ghost use Rattle.rfc3339.specs.Meaning.{offset_of, AreInRange};
ghost use Rattle.rfc3339.specs.Reading.{reading_as};
ghost use Rattle.rfc3339.specs.declared.parts.Parts.{Parts};
ghost use Rattle.rfc3339.specs.declared.refusal.TextRefusal.TheVariants.{Syntax};
ghost use Rattle.calendar_values.specs.WallClock.{wall_time};
ghost use Rattle.local_texts.specs.LocalForms.{IsFullTime, time_on_date, time_in_utc};
ghost use Rattle.local_texts.specs.LocalForms.{time_and_offset, time_of_parts, both_readings, meaning_as};

use crate::faults::valid_bytes;
use crate::readings::parse_time;
use calendar_values::{Time, UtcOffset};
use rfc3339::{TextRefusal, parse_rfc3339_offset};

/// Reads a time of day and its offset, with nothing before or after them, as `12:34:56.5+01:00`: a
/// `full-time` of RFC 3339, section 5.6. Digits of the fraction past the ninth drop out. Fails as
/// `rfc3339::parse_rfc3339` does. [`time_with_offset_fault`](crate::time_with_offset_fault) returns
/// the index of a fault.
///
/// ```
/// let (time, offset) = local_texts::parse_time_with_offset(b"16:39:57-08:00")?;
/// assert_eq!(rt; time.as_hms(), (16, 39, 57));
/// assert_eq!(rt; offset.whole_hours(), -8);
/// assert_eq!(rt; local_texts::parse_time_with_offset(b"16:39:57"), Err(TextRefusal::Syntax));
/// ```
pub fn parse_time_with_offset(text: &[u8]) -> Result<(Time, UtcOffset), TextRefusal>
    // The whole answer: the time of day and the offset of the text as one of 1970-01-01.
    ensures reading { result ≡ reading_as time_and_offset (time_on_date text.now) }

    // The same by the form of the text.
    ensures value { (p : Parts) → IsFullTime text.now p → OkIff result (AreInRange p)
        (time_of_parts p, offset_of p.is_west p.offset_hour p.offset_minute) }
    ensures equation { (p : Parts) → IsFullTime text.now p → result ≡ meaning_as time_and_offset p }
    ensures syntax { (result ≡ Err Syntax) ⊎ ((p : Parts) × IsFullTime text.now p) }
    ensures accepted { IfOk result (λ read.
        (p : Parts) × IsFullTime text.now p × AreInRange p × (read ≡
        (time_of_parts p, offset_of p.is_west p.offset_hour p.offset_minute))) }
{
    read_time_with_offset(text)
}

// The same by the time of day and the offset. The offset begins with the first byte that no time of
// day has there.
fn read_time_with_offset(text: &[u8]) -> Result<(Time, UtcOffset), TextRefusal>
    ensures { result ≡ reading_as time_and_offset (time_on_date text.now) }
{
    let (time, offset) = text.split_at(valid_bytes(11, text));
    read_both(time, offset)
}

// The readings of a time of day and of an offset, together.
fn read_both(time: &[u8], offset: &[u8]) -> Result<(Time, UtcOffset), TextRefusal>
    ensures { result ≡ both_readings
        (reading_as (λ at. wall_time at.wall) (time_in_utc time.now))
        (offset_reading_of offset.now) }
{
    let time = parse_time(time);
    match parse_rfc3339_offset(offset) {
        Ok(offset) => match time {
            Ok(time) => Ok((time, offset)),
            Err(refusal) => Err(refusal),
        },
        Err(TextRefusal::Syntax) => Err(TextRefusal::Syntax),
        Err(TextRefusal::OutOfRange(component)) => match time {
            Ok(_) => Err(TextRefusal::OutOfRange(component)),
            Err(refusal) => Err(refusal),
        },
    }
}
