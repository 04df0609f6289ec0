//! Texts for other systems, and of them: columns of milliseconds, lines that begin with a
//! date-time, leap seconds, and where a text is wrong.
ghost use Rattle.std.specs.Prelude.{◌≡◌, ◌≤◌, ◌==◌, ◌++◌, ℕ, List, SomeIff, OkIff, IfOk, IfSome, IsTrue, Ok, Some};
ghost use Rattle.std.specs.Prelude.{true, false, length, Err, IfErr, is_ok, IsSome, ◌↔◌};
ghost use Rattle.calendar_values.specs.WallClock.{IsInstant, IsWallClock};
ghost use Rattle.offset_times.specs.Local.{Local, instant_of, local_at};
ghost use Rattle.rfc3339.specs.Form.{IsDateTime};
ghost use Rattle.rfc3339.specs.Front.{front_reading_of};
ghost use Rattle.rfc3339.specs.LeapSeconds.{stand_in, AreInLeapRange, IsLastOfMonth, leap_reading_of};
ghost use Rattle.rfc3339.specs.Meaning.{value_of, AreInRange};
ghost use Rattle.rfc3339.specs.Reading.{reading_of};
ghost use Rattle.rfc3339.specs.Texts.{HasText, digits_text};
ghost use Rattle.rfc3339.specs.declared.parts.Parts.{Parts};

use calendar_values::{Text, UtcOffset};
use offset_times::OffsetDateTime;
use rfc3339::{
    TextRefusal, parse_rfc3339_front, parse_rfc3339_leap, syntax_fault, to_rfc3339_digits,
};
use stamp_times::{Timestamp, ToTimestamp};

/// The text for a column of milliseconds.
pub fn column_of_milliseconds(at: OffsetDateTime) -> Option<Text>
    ensures { SomeIff result (HasText at) (digits_text 3 at) }
{
    to_rfc3339_digits(at, 3)
}

/// The part of a text that may begin a date-time: a message marks the rest.
pub fn before_the_fault(text: &[u8]) -> &[u8]
    ensures { (rest : List ℕ) × (p : Parts) × IsDateTime (result.now ++ rest) p }
{
    &text[..syntax_fault(text)]
}

/// The date-time that a line begins with and how long its text is, exactly where its parts are in
/// their ranges.
pub fn stamp_of(line: &[u8]) -> Result<(OffsetDateTime, usize), TextRefusal>
    ensures value { (stamp rest : List ℕ) (p : Parts) → line.now ≡ stamp ++ rest
        → IsDateTime stamp p → OkIff result (AreInRange p) (value_of p, length stamp) }
    ensures has_text { IfOk result (λ read. HasText read.0) }
{
    parse_rfc3339_front(line)
}

/// The part of a line after its date-time: all of it if it begins with none.
pub fn after_the_stamp(line: &[u8]) -> &[u8]
    ensures { length result.now ≤ length line.now }
{
    match parse_rfc3339_front(line) {
        Ok((_, count)) => &line[count..],
        Err(_) => line,
    }
}

/// The date-time of a text of another system whose second may be 60, and whether it is.
pub fn with_leap_second(text: &[u8]) -> Option<(OffsetDateTime, bool)>
    ensures value { (p : Parts) → IsDateTime text.now p → SomeIff result
        (AreInLeapRange p) (value_of (stand_in p), p.second == 60) }
    ensures same { (at : Local) → reading_of text.now ≡ Ok at → result ≡ Some (at, false) }
{
    parse_rfc3339_leap(text).ok()
}

/// An entry of a log that keeps whether its second was a leap second.
#[derive(Clone, Copy)]
pub struct Entry {
    /// The date-time.
    pub at: OffsetDateTime,
    /// Whether it is the last nanosecond of a month in place of a leap second.
    pub is_leap: bool,
}

/// The entry of a text of a log.
pub fn entry_of(text: &[u8]) -> Result<Entry, TextRefusal>
    ensures value { (p : Parts) → IsDateTime text.now p → OkIff result (AreInLeapRange p)
        (record { at = value_of (stand_in p); is_leap = p.second == 60 }) }
    ensures refused { IfErr result (λ refusal. leap_reading_of text.now ≡ Err refusal) }
    ensures leap { IfOk result (λ entry.
        entry.is_leap ≡ true → IsLastOfMonth (instant_of entry.at)) }
    ensures other { IfOk result (λ entry.
        entry.is_leap ≡ false → reading_of text.now ≡ Ok entry.at) }
    ensures instant { IfOk result (λ entry. IsInstant (instant_of entry.at)) }
{
    let (at, is_leap) = parse_rfc3339_leap(text)?;
    Ok(Entry { at, is_leap })
}

/// The part of a line after its date-time. None if it begins with none.
pub fn words_of(line: &[u8]) -> Option<&[u8]>
    ensures some { IsSome result ↔ IsTrue (is_ok (front_reading_of line.now)) }
    ensures words { IfSome result (λ words.
        (stamp : List ℕ) × (p : Parts) × IsDateTime stamp p × (line.now ≡ stamp ++ words.now)) }
{
    let Ok((_, count)) = parse_rfc3339_front(line) else {
        return None;
    };
    Some(&line[count..])
}

/// The date-time that a line begins with. None if it begins with none.
pub fn date_time_of(line: &[u8]) -> Option<OffsetDateTime>
    ensures some { IsSome result ↔ IsTrue (is_ok (front_reading_of line.now)) }
    ensures begins { IfSome result (λ at. (stamp : List ℕ) × (rest : List ℕ) × (p : Parts) ×
        (line.now ≡ stamp ++ rest) × IsDateTime stamp p × (at ≡ value_of p)) }
{
    let Ok((at, _)) = parse_rfc3339_front(line) else {
        return None;
    };
    Some(at)
}

/// The instant of a text whose second may be 60.
pub fn instant_of_leap(text: &[u8]) -> Option<OffsetDateTime>
    ensures value { (p : Parts) → IsDateTime text.now p →
        SomeIff result (AreInLeapRange p) (value_of (stand_in p)) }
    ensures form { IfSome result (λ at.
        (p : Parts) × IsDateTime text.now p × (at ≡ value_of (stand_in p))) }
{
    let Ok((at, _)) = parse_rfc3339_leap(text) else {
        return None;
    };
    Some(at)
}

/// The date-time that a line begins with, and the part of the line after it. None if it begins with
/// none.
pub fn stamp_and_words(line: &[u8]) -> Option<(OffsetDateTime, &[u8])>
    ensures some { IsSome result ↔ IsTrue (is_ok (front_reading_of line.now)) }
    ensures begins { IfSome result (λ both. (stamp : List ℕ) × (p : Parts) ×
        (line.now ≡ stamp ++ both.1.now) × IsDateTime stamp p × (both.0 ≡ value_of p)) }
{
    let Ok((at, count)) = parse_rfc3339_front(line) else {
        return None;
    };
    Some((at, &line[count..]))
}

/// Whether a text has a leap second.
pub fn has_leap_second(text: &[u8]) -> bool
    ensures { IsTrue result → (p : Parts) × IsDateTime text.now p × (p.second ≡ 60) }
{
    match parse_rfc3339_leap(text) {
        Ok((_, is_leap)) => is_leap,
        Err(_) => false,
    }
}

/// The timestamp of a text whose second may be 60. None if it is no date-time.
pub fn timestamp_of_leap(text: &[u8]) -> Option<Timestamp>
    ensures { IfSome result (λ at.
        (p : Parts) × IsDateTime text.now p × (at ≡ instant_of (value_of (stand_in p)))) }
{
    let (at, _) = parse_rfc3339_leap(text).ok()?;
    at.checked_to_timestamp()
}

/// The instant of a text whose second may be 60, as clocks at an offset have it, and whether the
/// second was 60. None if the text is no date-time, or the date there is out of range.
pub fn leap_date_time_at(text: &[u8], offset: UtcOffset) -> Option<(OffsetDateTime, bool)>
    ensures value { (p : Parts) → IsDateTime text.now p →
        (let there = local_at (instant_of (value_of (stand_in p))) offset in
        SomeIff result (AreInLeapRange p × IsWallClock there.wall) (there, p.second == 60)) }
    ensures instant { IfSome result (λ both. (p : Parts) × IsDateTime text.now p ×
        (instant_of both.0 ≡ instant_of (value_of (stand_in p)))) }
    ensures leap { IfSome result (λ both. both.1 ≡ true → IsLastOfMonth (instant_of both.0)) }
{
    let Ok((at, is_leap)) = parse_rfc3339_leap(text) else {
        return None;
    };
    Some((at.checked_to_offset(offset)?, is_leap))
}
