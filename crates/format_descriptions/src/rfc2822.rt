//! Texts of RFC 2822, written and read.
ghost use Rattle.std.specs.Prelude.{◌≡◌, ◌-◌, ◌≤◌, ◌<◌, ℕ, false, Some, None, Ok, Err, length, option_map, IfOk, IfErr, IfSome, IsTrue, SomeIff};
ghost use Rattle.std.specs.Result.{result_map_both};
ghost use Rattle.format_descriptions.specs.Read.{no_parts};
ghost use Rattle.format_descriptions.specs.WellKnown.{rfc2822_items, is_mail_year, has_rfc2822_text};
ghost use Rattle.format_descriptions.specs.Written.{described_text, Fits};
ghost use Rattle.format_descriptions.specs.Rfc2822.{Fault, mail_refusal, or_fault, part_read, past_blanks, blanks_at, mark_between};
ghost use Rattle.format_descriptions.specs.Rfc2822.{are_comments, past_comments};
ghost use Rattle.format_descriptions.specs.Rfc2822.{starts_letter, mail_year_at, year_read, zones, whole_word_at, named_zone_at, letter_zone_at};
ghost use Rattle.format_descriptions.specs.Rfc2822.{mail_zone_at, offset_read, weekday_read, date_read, clock_read, then_blanks, mail_front, mail_parts};

use crate::read::parse_component_into;
use crate::reading::{after_mark, after_word, digit, two_digits};
use crate::write::format_date_time;
use crate::{
    Component, Field, Item, NameForm, Padding, Parts, ReadCase, Sign, UtcWord, YearBase, YearRange,
};
use calendar_values::Text;
use offset_times::OffsetDateTime;

// The items of a text of RFC 2822 that is written.
const RFC_2822: [Item; 17] = [
    Item::Part(Component::WeekdayName(NameForm::Short, ReadCase::Any)),
    Item::Byte(b','),
    Item::Byte(b' '),
    Item::Part(Component::Day(Padding::Zero)),
    Item::Byte(b' '),
    Item::Part(Component::MonthName(NameForm::Short, ReadCase::Any)),
    Item::Byte(b' '),
    Item::Part(Component::Year(
        YearBase::Calendar,
        Sign::Automatic,
        Padding::Zero,
        YearRange::Standard,
    )),
    Item::Byte(b' '),
    Item::Part(Component::Hour(Padding::Zero)),
    Item::Byte(b':'),
    Item::Part(Component::Minute(Padding::Zero)),
    Item::Byte(b':'),
    Item::Part(Component::Second(Padding::Zero)),
    Item::Byte(b' '),
    Item::Part(Component::OffsetHour(Sign::Mandatory, Padding::Zero)),
    Item::Part(Component::OffsetMinute(Padding::Zero)),
];

/// The text of a date-time in the form of RFC 2822, as `Sun, 06 Nov 1994 08:49:37 +0000`, by its
/// own wall clock and offset. None of a year before 1900 or after 9999, and of an offset that is
/// not of whole minutes.
///
/// ```
/// let at = OffsetDateTime::from_unix_timestamp(784_111_777)?;
/// let text = format_descriptions::format_rfc2822(at);
/// let is_so = text.map(|text| text.as_bytes() == b"Sun, 06 Nov 1994 08:49:37 +0000".as_slice());
/// assert_eq!(rt; is_so, Some(true));
/// ```
pub fn format_rfc2822(at: OffsetDateTime) -> Option<Text>
    ensures text { SomeIff result
        (IsTrue (has_rfc2822_text at) × Fits (described_text rfc2822_items at))
        (described_text rfc2822_items at) }
{
    if !has_rfc2822_text(at) {
        return None;
    }
    format_date_time(&RFC_2822, at)
}

// Whether the date-time has a text of RFC 2822.
fn has_rfc2822_text(at: OffsetDateTime) -> bool
    ensures { result ≡ has_rfc2822_text at }
{
    let (date, _, offset) = at.parts();
    is_mail_year(date.year()) & (offset.whole_seconds().unsigned_abs() % 60 == 0)
}

// Whether a year is one from 1900 to 9999.
fn is_mail_year(year: i32) -> bool
    ensures { result ≡ is_mail_year year }
{
    (year >= 1_900) & (year < 10_000)
}

/// A text that is not of RFC 2822.
#[derive(Clone, Copy, Debug, PartialEq, Eq)]
pub struct MailRefusal {
    /// The place of the first byte that does not fit, counted from 0.
    pub place: usize,
    /// The part that cannot be read there, or None where white space or a mark is missing.
    pub part: Option<Field>,
}

/// The parts of a date-time in the form of RFC 2822, as `Sun, 06 Nov 1994 08:49:37 +0000`. The day
/// of the week and the second can be absent. The day can have one digit. The year is from 1900 on,
/// without a sign, or has two digits: 50 to 99 are of 1950 to 1999. The offset can be `GMT`, `UT`,
/// `UTC`, a zone of North America such as `EST`, or one letter, which is UTC. Letters are read in
/// any case. White space may be of any length, and comments in brackets may follow. Else returns
/// the place of the fault.
///
/// ```
/// let parts = format_descriptions::parse_rfc2822(b"Sun, 06 Nov 1994 08:49:37 +0000");
/// assert_eq!(rt; parts.map(|parts| parts.day), Ok(Some(6)));
/// let parts = format_descriptions::parse_rfc2822(b"6 Nov 94 08:49 EST (New York)");
/// assert_eq!(rt; parts.map(|parts| parts.year), Ok(Some(1994)));
/// assert_eq!(rt; format_descriptions::parse_rfc2822(b"Sun, 06 Nov 1894").err(), Some(12));
/// ```
pub fn parse_rfc2822(text: &[u8]) -> Result<Parts, usize>
    ensures reading { result
        ≡ result_map_both (λ p. p) (λ fault. length text.now - fault.1) (mail_parts text.now) }
    // What the text says, by the result.
    ensures accepted { IfOk result (λ parts. mail_parts text.now ≡ Ok parts) }
    ensures refused { IfErr result (λ place. (fault : Fault) ×
        (mail_parts text.now ≡ Err fault) × (place ≡ length text.now - fault.1)) }
{
    match parts_of(text) {
        Ok(parts) => Ok(parts),
        Err((_, left)) => Err(text.len() - left),
    }
}

/// Reads a date-time in the form of RFC 2822 at the front of a text into the parts, with the
/// comments after it if nothing else follows, and returns the bytes after them. Else returns the
/// place and the part at fault: then no part is known.
///
/// ```
/// use format_descriptions::{Field, MailRefusal, Parts, parse_rfc2822_front_into};
/// let mut parts = Parts::none();
/// let rest = parse_rfc2822_front_into(b"6 Nov 94 08:49 -0500 (EST)", &mut parts);
/// assert_eq!(rt; (parts.year, rest.map(|rest| rest.len())), (Some(1994), Ok(0)));
/// let rest = parse_rfc2822_front_into(b"6 Nov +1994", &mut parts);
/// let refusal = MailRefusal { place: 6, part: Some(Field::Year) };
/// assert_eq!(rt; rest.err(), Some(refusal));
/// ```
pub fn parse_rfc2822_front_into<'a>(
    text: &'a [u8],
    parts: &mut Parts,
) -> Result<&'a [u8], MailRefusal>
    ensures reading { result_map_both (λ rest. (parts.new, rest.now)) (λ refusal. refusal) result
        ≡ result_map_both (λ read. read) (λ fault. mail_refusal text.now fault)
        (mail_front text.now parts.old) }
    ensures refused { IfErr result (λ refusal. parts.new ≡ no_parts) }
    ensures shorter { IfOk result (λ rest. length rest.now ≤ length text.now) }
{
    match front_of(text, parts) {
        Ok(rest) => Ok(rest),
        Err((part, left)) => {
            *parts = Parts::none();
            Err(MailRefusal {
                place: text.len() - left,
                part,
            })
        }
    }
}

// The parts of a text. Else the part at fault, and how many bytes are left.
fn parts_of(text: &[u8]) -> Result<Parts, (Option<Field>, usize)>
    ensures value { result ≡ mail_parts text.now }
    ensures left { IfErr result (λ fault. fault.1 ≤ length text.now) }
{
    let mut parts = Parts::none();
    let rest = front_of(text, &mut parts)?;
    if rest.is_empty() {
        Ok(parts)
    } else {
        Err((None, rest.len()))
    }
}

// Reads a date-time at the front of a text into the parts, and returns what follows it and its comments. Else the part at fault,
// and how many bytes are left.
#[tactic(auto, unfolding(crate::specs::Rfc2822::mail_front))]
fn front_of<'a>(text: &'a [u8], parts: &mut Parts) -> Result<&'a [u8], (Option<Field>, usize)>
    ensures value { result_map_both (λ rest. (parts.new, rest.now)) (λ fault. fault) result
        ≡ mail_front text.now parts.old }
    ensures shorter { IfOk result (λ rest. length rest.now ≤ length text.now) }
    ensures left { IfErr result (λ fault. fault.1 ≤ length text.now) }
{
    let rest = weekday_into(after_blanks(text), parts)?;
    let rest = date_into(rest, parts)?;
    let rest = blanks(clock_into(rest, parts)?)?;
    let rest = offset_into(rest, parts)?;
    Ok(after_comments(rest))
}

// Reads a component into the parts, and returns what follows it. Else the part, and how many bytes are left.
fn part_into<'a>(
    component: Component,
    part: Field,
    text: &'a [u8],
    parts: &mut Parts,
) -> Result<&'a [u8], (Option<Field>, usize)>
    ensures value { result_map_both (λ rest. (parts.new, rest.now)) (λ fault. fault) result
        ≡ part_read component part text.now parts.old }
    ensures shorter { IfOk result (λ rest. length rest.now ≤ length text.now) }
    ensures left { IfErr result (λ fault. fault.1 ≤ length text.now) }
{
    match parse_component_into(component, text, parts) {
        Some(rest) => Ok(rest),
        None => Err((Some(part), text.len())),
    }
}

// Reads the day of the week and a comma into the parts, where the text begins with a letter.
fn weekday_into<'a>(text: &'a [u8], parts: &mut Parts) -> Result<&'a [u8], (Option<Field>, usize)>
    ensures value { result_map_both (λ rest. (parts.new, rest.now)) (λ fault. fault) result
        ≡ weekday_read text.now parts.old }
    ensures shorter { IfOk result (λ rest. length rest.now ≤ length text.now) }
    ensures left { IfErr result (λ fault. fault.1 ≤ length text.now) }
{
    if !starts_letter(text) {
        return Ok(text);
    }
    let weekday = Component::WeekdayName(NameForm::Short, ReadCase::Any);
    mark(b',', part_into(weekday, Field::Weekday, text, parts)?)
}

// Reads the day, the month and the year into the parts.
fn date_into<'a>(text: &'a [u8], parts: &mut Parts) -> Result<&'a [u8], (Option<Field>, usize)>
    ensures value { result_map_both (λ rest. (parts.new, rest.now)) (λ fault. fault) result
        ≡ date_read text.now parts.old }
    ensures shorter { IfOk result (λ rest. length rest.now ≤ length text.now) }
    ensures left { IfErr result (λ fault. fault.1 ≤ length text.now) }
{
    let day = Component::Day(Padding::Bare);
    let month = Component::MonthName(NameForm::Short, ReadCase::Any);
    let rest = blanks(part_into(day, Field::Day, text, parts)?)?;
    let rest = blanks(part_into(month, Field::Month, rest, parts)?)?;
    blanks(year_into(rest, parts)?)
}

// Reads the hour, the minute and perhaps the second into the parts.
fn clock_into<'a>(text: &'a [u8], parts: &mut Parts) -> Result<&'a [u8], (Option<Field>, usize)>
    ensures value { result_map_both (λ rest. (parts.new, rest.now)) (λ fault. fault) result
        ≡ clock_read text.now parts.old }
    ensures shorter { IfOk result (λ rest. length rest.now ≤ length text.now) }
    ensures left { IfErr result (λ fault. fault.1 ≤ length text.now) }
{
    let hour = Component::Hour(Padding::Zero);
    let minute = Component::Minute(Padding::Zero);
    let second = Component::Second(Padding::Zero);
    let rest = mark(b':', part_into(hour, Field::Hour, text, parts)?)?;
    let rest = part_into(minute, Field::Minute, rest, parts)?;
    match between(b':', rest) {
        Some(more) => part_into(second, Field::Second, more, parts),
        None => Ok(rest),
    }
}

// Reads an offset into the parts, by the name of its zone or by its hours and minutes.
fn offset_into<'a>(text: &'a [u8], parts: &mut Parts) -> Result<&'a [u8], (Option<Field>, usize)>
    ensures value { result_map_both (λ rest. (parts.new, rest.now)) (λ fault. fault) result
        ≡ offset_read text.now parts.old (mail_zone_at text.now) }
    ensures shorter { IfOk result (λ rest. length rest.now ≤ length text.now) }
    ensures left { IfErr result (λ fault. fault.1 ≤ length text.now) }
{
    let word = Component::OffsetWord(UtcWord::Gmt, ReadCase::Any);
    let hour = Component::OffsetHour(Sign::Mandatory, Padding::Zero);
    let minute = Component::OffsetMinute(Padding::Zero);
    match zone(text) {
        Some((seconds, rest)) => {
            if !parts.agrees(word, seconds) {
                return Err((Some(Field::OffsetHour), text.len()));
            }
            parts.set(word, seconds);
            Ok(rest)
        }
        None => {
            let rest = part_into(hour, Field::OffsetHour, text, parts)?;
            part_into(minute, Field::OffsetMinute, rest, parts)
        }
    }
}

// Reads the year into the parts.
fn year_into<'a>(text: &'a [u8], parts: &mut Parts) -> Result<&'a [u8], (Option<Field>, usize)>
    ensures value { result_map_both (λ rest. (parts.new, rest.now)) (λ fault. fault) result
        ≡ year_read text.now parts.old }
    ensures shorter { IfOk result (λ rest. length rest.now ≤ length text.now) }
    ensures left { IfErr result (λ fault. fault.1 ≤ length text.now) }
{
    let component = Component::YearSince(1_950);
    match year(text) {
        Some((number, rest)) if parts.agrees(component, (false, number)) => {
            parts.set(component, (false, number));
            Ok(rest)
        }
        _ => Err((Some(Field::Year), text.len())),
    }
}

// The year from 1900 on, of four digits or of two, that no digit follows.
#[tactic(auto, unfolding(crate::specs::Rfc2822::mail_year_at))]
fn year(text: &[u8]) -> Option<(u32, &[u8])>
    ensures value { option_map (λ read. (read.0, read.1.now)) result ≡ mail_year_at text.now }
    ensures below { IfSome result (λ read. read.0 < 10_000) }
    ensures shorter { IfSome result (λ read. length read.1.now ≤ length text.now) }
{
    let (first, rest) = two_digits(text)?;
    let (number, rest) = match two_digits(rest) {
        Some((last, rest)) => (first * 100 + last, rest),
        None => (1_950 + (first + 50) % 100, rest),
    };
    if number < 1_900 || digit(rest).is_some() {
        return None;
    }
    Some((number, rest))
}

// The seconds of a zone by its name or its letter, with true for one that is west of Greenwich.
#[tactic(auto, unfolding(crate::specs::Rfc2822::mail_zone_at))]
fn zone(text: &[u8]) -> Option<((bool, u32), &[u8])>
    ensures value { option_map (λ read. (read.0, read.1.now)) result ≡ mail_zone_at text.now }
    ensures below { IfSome result (λ read. read.0.1 ≤ 28_800) }
    ensures shorter { IfSome result (λ read. length read.1.now ≤ length text.now) }
{
    let (hours, rest) = match named_zone(text) {
        Some(read) => read,
        None => letter_zone(text)?,
    };
    Some(((hours > 0, hours * 3_600), rest))
}

// The hours of a zone of UTC or of North America, west of Greenwich.
#[tactic(auto, unfolding(crate::specs::Rfc2822::named_zone_at))]
fn named_zone(text: &[u8]) -> Option<(u32, &[u8])>
    ensures value { option_map (λ read. (read.0, read.1.now)) result
        ≡ named_zone_at zones text.now }
    ensures below { IfSome result (λ read. read.0 ≤ 8) }
    ensures shorter { IfSome result (λ read. length read.1.now ≤ length text.now) }
{
    if let Some(rest) = whole_word(b"GMT", text) {
        return Some((0, rest));
    }
    if let Some(rest) = whole_word(b"UTC", text) {
        return Some((0, rest));
    }
    if let Some(rest) = whole_word(b"UT", text) {
        return Some((0, rest));
    }
    if let Some(rest) = whole_word(b"EST", text) {
        return Some((5, rest));
    }
    if let Some(rest) = whole_word(b"EDT", text) {
        return Some((4, rest));
    }
    if let Some(rest) = whole_word(b"CST", text) {
        return Some((6, rest));
    }
    if let Some(rest) = whole_word(b"CDT", text) {
        return Some((5, rest));
    }
    if let Some(rest) = whole_word(b"MST", text) {
        return Some((7, rest));
    }
    if let Some(rest) = whole_word(b"MDT", text) {
        return Some((6, rest));
    }
    if let Some(rest) = whole_word(b"PST", text) {
        return Some((8, rest));
    }
    let rest = whole_word(b"PDT", text)?;
    Some((7, rest))
}

// The zone of a letter but J that no letter follows: UTC.
fn letter_zone(text: &[u8]) -> Option<(u32, &[u8])>
    ensures value { option_map (λ read. (read.0, read.1.now)) result ≡ letter_zone_at text.now }
    ensures below { IfSome result (λ read. read.0 ≤ 8) }
    ensures shorter { IfSome result (λ read. length read.1.now ≤ length text.now) }
{
    let (first, rest) = text.split_first()?;
    if first.is_ascii_alphabetic() && first.to_ascii_lowercase() != b'j' && !starts_letter(rest) {
        Some((0, rest))
    } else {
        None
    }
}

// What follows a word in any case that no letter follows.
fn whole_word<'a>(word: &[u8], text: &'a [u8]) -> Option<&'a [u8]>
    ensures value { option_map (λ rest. rest.now) result ≡ whole_word_at word.now text.now }
    ensures shorter { IfSome result (λ read. length read.now ≤ length text.now) }
{
    let rest = after_word(ReadCase::Any, word, text)?;
    if starts_letter(rest) {
        None
    } else {
        Some(rest)
    }
}

// Whether a text begins with a letter.
fn starts_letter(text: &[u8]) -> bool
    ensures { result ≡ starts_letter text.now }
{
    match text.split_first() {
        Some((first, _)) => first.is_ascii_alphabetic(),
        None => false,
    }
}

// What follows white space, of which there is some.
fn blanks(text: &[u8]) -> Result<&[u8], (Option<Field>, usize)>
    ensures value { result_map_both (λ rest. rest.now) (λ fault. fault) result
        ≡ blanks_at text.now }
    ensures shorter { IfOk result (λ rest. length rest.now ≤ length text.now) }
    ensures left { IfErr result (λ fault. fault.1 ≤ length text.now) }
{
    let rest = after_blanks(text);
    if rest.len() == text.len() {
        Err((None, text.len()))
    } else {
        Ok(rest)
    }
}

// What follows a mark and the white space on both sides of it.
fn mark(mark: u8, text: &[u8]) -> Result<&[u8], (Option<Field>, usize)>
    ensures value { result_map_both (λ rest. rest.now) (λ fault. fault) result
        ≡ or_fault None text.now (mark_between mark text.now) }
    ensures shorter { IfOk result (λ rest. length rest.now ≤ length text.now) }
    ensures left { IfErr result (λ fault. fault.1 ≤ length text.now) }
{
    match between(mark, text) {
        Some(rest) => Ok(rest),
        None => Err((None, text.len())),
    }
}

// The same, or None.
fn between(mark: u8, text: &[u8]) -> Option<&[u8]>
    ensures value { option_map (λ rest. rest.now) result ≡ mark_between mark text.now }
    ensures shorter { IfSome result (λ rest. length rest.now ≤ length text.now) }
{
    let rest = after_mark(mark, after_blanks(text))?;
    Some(after_blanks(rest))
}

// What follows white space, of which there may be none.
#[tactic(auto, unfolding(crate::specs::Rfc2822::past_blanks))]
fn after_blanks(text: &[u8]) -> &[u8]
    ensures value { result.now ≡ past_blanks text.now }
    ensures shorter { length result.now ≤ length text.now }
{
    let mut rest = text;
    while let Some((first, more)) = rest.split_first() {
        if !first.is_ascii_whitespace() {
            return rest;
        }
        rest = more;
    }
    rest
}

// What follows comments, if nothing else follows. Else the whole text.
fn after_comments(text: &[u8]) -> &[u8]
    ensures value { result.now ≡ past_comments text.now }
    ensures shorter { length result.now ≤ length text.now }
{
    if are_comments(text) { &[] } else { text }
}

// Whether a text is white space and comments in brackets alone.
#[tactic(auto, unfolding(crate::specs::Rfc2822::are_comments))]
fn are_comments(text: &[u8]) -> bool
    ensures { result ≡ are_comments false 0 text.now }
{
    let mut is_quoted = false;
    let mut depth = 0usize;
    let mut rest = text;
    while let Some((first, more)) = rest.split_first() {
        rest = more;
        if is_quoted {
            is_quoted = false;
        } else if *first == b'(' {
            depth += 1;
        } else if depth > 0 {
            is_quoted = *first == b'\\';
            if *first == b')' {
                depth -= 1;
            }
        } else if !first.is_ascii_whitespace() {
            return false;
        }
    }
    !is_quoted && depth == 0
}
