//! Texts of RFC 3339, written and read.
ghost use Rattle.std.specs.Prelude.{◌≡◌, ◌≤◌, ◌<◌, ◌⊎◌, ◌+◌, ◌/◌, ◌%◌, ◌==◌, ◌||◌, ◌++◌, ℕ, List, not, nat_lt, length, Err, IfOk};
ghost use Rattle.calendar_values.specs.WallClock.{IsInstant};
ghost use Rattle.offset_times.specs.Local.{instant_of, local_in_utc};
ghost use Rattle.rfc3339.specs.Form.{IsDateTime};
ghost use Rattle.rfc3339.specs.FullDates.{IsFullDate};
ghost use Rattle.rfc3339.specs.declared.parts.Parts.{Parts};
ghost use Rattle.rfc3339.specs.declared.refusal.TextRefusal.TheVariants.{Syntax};
ghost use Rattle.muxandu_c.specs.Answers.{status_of, status_number, value_or, refused_day, refused_text};
ghost use Rattle.muxandu_c.specs.Answers.{written_over, text_if_room, length_of_answer};
ghost use Rattle.muxandu_c.specs.Exchange.{rfc3339_of, fixed_rfc3339_of};
ghost use Rattle.muxandu_c.specs.Exchange.{date_time_to_rfc3339, timestamp_to_rfc3339, timestamp_to_rfc3339_nanos};
ghost use Rattle.muxandu_c.specs.Exchange.{read_parts, date_time_spelled, timestamp_spelled};
ghost use Rattle.muxandu_c.specs.declared.refused.Refused.TheVariants as refused;

use crate::parts::{
    date_time_of, instant_in_range, instant_in_range_at, read_date_time, read_timestamp,
    timestamp_of,
};
use crate::refused::{MuxanduStatus, Refused, answer};
use crate::texts::put_text;
use crate::utc_texts::read_utc_text;
use crate::values::{MuxanduDateTime, MuxanduTimestamp};
use crate::wall_texts::read_wall_text;
use crate::written_texts::{write_date_time, write_timestamp};
use calendar_values::Text;
use offset_times::OffsetDateTime;
use rfc3339::length_laws::texts_in_utc_have_thirty_bytes;
use rfc3339::{Component, Rfc3339, TEXT_ROOM, TextRefusal, parse_rfc3339, to_rfc3339_nanos};
use stamp_times::Timestamp;

#[inline(always)]
fn rfc3339_of(at: OffsetDateTime) -> Result<Text, Refused>
    ensures value { result ≡ rfc3339_of at }
    ensures room { IfOk result (λ text. length text ≤ 35) }
{
    match at.to_rfc3339() {
        Some(text) => Ok(text),
        None => Err(Refused::NoText),
    }
}

fn fixed_rfc3339_of(at: Timestamp) -> Result<Text, Refused>
    ensures value { result ≡ fixed_rfc3339_of at }
    ensures room { IfOk result (λ text. length text ≡ 30) }
{
    match to_rfc3339_nanos(at) {
        Some(text) => Ok(text),
        None => Err(Refused::NoText),
    }
}

pub(crate) fn date_time_to_rfc3339(date_time: MuxanduDateTime) -> Result<Text, Refused>
    ensures value { result ≡ date_time_to_rfc3339 date_time }
    ensures room { IfOk result (λ text. length text ≤ 35) }
{
    rfc3339_of(read_date_time(date_time)?)
}

/// Writes the shortest RFC 3339 text of a date-time, in at most 35 bytes, as muxandu_date_time_text
/// does. Examples are `1985-04-12T23:20:50.52Z` and `1996-12-19T16:39:57-08:00`. Errors, in this
/// order: those of the date-time, NO_TEXT, BUFFER.
#[unsafe(no_mangle)]
pub extern "C" fn muxandu_date_time_to_rfc3339(
    date_time: MuxanduDateTime,
    buffer: &mut [u8],
    size: &mut usize,
) -> MuxanduStatus
    ensures status { result ≡ status_of (text_if_room (date_time_to_rfc3339 date_time) buffer.old) }
    ensures written { buffer.new ≡
        written_over (text_if_room (date_time_to_rfc3339 date_time) buffer.old) buffer.old }
    ensures size { size.new ≡
        value_or (length_of_answer (date_time_to_rfc3339 date_time)) size.old }
    ensures room { IfOk (date_time_to_rfc3339 date_time) (λ text. length text ≤ 35) }
{
    if buffer.len() < TEXT_ROOM {
        return put_text(date_time_to_rfc3339(date_time), buffer, size);
    }
    answer(write_date_time(date_time, buffer), size)
}

fn timestamp_to_rfc3339(at: MuxanduTimestamp) -> Result<Text, Refused>
    ensures value { result ≡ timestamp_to_rfc3339 at }
    ensures room { IfOk result (λ text. length text ≤ 30) }
{
    utc_rfc3339_of(read_timestamp(at)?)
}

// The shortest text of an instant, in UTC.
#[inline(always)]
fn utc_rfc3339_of(at: Timestamp) -> Result<Text, Refused>
    ensures value { result ≡ rfc3339_of (local_in_utc at) }
    ensures room { IfOk result (λ text. length text ≤ 30) }
{
    texts_in_utc_have_thirty_bytes();
    rfc3339_of(OffsetDateTime::from(at))
}

/// Writes the shortest RFC 3339 text of an instant in UTC, such as `1985-04-12T23:20:50.52Z`, in at
/// most 30 bytes, as muxandu_date_time_text does. Errors, in this order: those of the timestamp,
/// NO_TEXT, BUFFER.
#[unsafe(no_mangle)]
pub extern "C" fn muxandu_timestamp_to_rfc3339(
    at: MuxanduTimestamp,
    buffer: &mut [u8],
    size: &mut usize,
) -> MuxanduStatus
    ensures status { result ≡ status_of (text_if_room (timestamp_to_rfc3339 at) buffer.old) }
    ensures written { buffer.new ≡
        written_over (text_if_room (timestamp_to_rfc3339 at) buffer.old) buffer.old }
    ensures size { size.new ≡ value_or (length_of_answer (timestamp_to_rfc3339 at)) size.old }
    ensures room { IfOk (timestamp_to_rfc3339 at) (λ text. length text ≤ 30) }
{
    if buffer.len() < TEXT_ROOM {
        return put_text(timestamp_to_rfc3339(at), buffer, size);
    }
    answer(write_timestamp(at, buffer), size)
}

fn timestamp_to_rfc3339_nanos(at: MuxanduTimestamp) -> Result<Text, Refused>
    ensures value { result ≡ timestamp_to_rfc3339_nanos at }
    ensures room { IfOk result (λ text. length text ≡ 30) }
{
    fixed_rfc3339_of(read_timestamp(at)?)
}

/// Writes the RFC 3339 text of an instant in UTC with nine digits of the fraction, such as
/// `1985-04-12T23:20:50.520000000Z`, in 30 bytes, as muxandu_date_time_text does. Such texts
/// compare byte by byte as their instants do. Errors, in this order: those of the timestamp,
/// NO_TEXT, BUFFER.
#[unsafe(no_mangle)]
pub extern "C" fn muxandu_timestamp_to_rfc3339_nanos(
    at: MuxanduTimestamp,
    buffer: &mut [u8],
    size: &mut usize,
) -> MuxanduStatus
    ensures status { result ≡ status_of (text_if_room (timestamp_to_rfc3339_nanos at) buffer.old) }
    ensures written { buffer.new ≡
        written_over (text_if_room (timestamp_to_rfc3339_nanos at) buffer.old) buffer.old }
    ensures size { size.new ≡ value_or (length_of_answer (timestamp_to_rfc3339_nanos at)) size.old }
    ensures room { IfOk (timestamp_to_rfc3339_nanos at) (λ text. length text ≡ 30) }
{
    put_text(timestamp_to_rfc3339_nanos(at), buffer, size)
}

// The date-time of a text of any form, byte by byte. It is not in line, since vector lanes read most texts.
#[inline(never)]
fn read_any_text(text: &[u8]) -> Result<OffsetDateTime, Refused>
    ensures spelled { (p : Parts) → IsDateTime text.now p → result ≡ read_parts p }
    ensures syntax { ((p : Parts) × IsDateTime text.now p) ⊎ (result ≡ Err refused.Syntax) }
    ensures instant { IfOk result (λ at. IsInstant (instant_of at)) }
{
    match parse_rfc3339(text) {
        Ok(at) => Ok(at),
        Err(refusal) => Err(refused_text(refusal, text)),
    }
}

// A refusal of a text, as a caller sees it.
pub(crate) fn refused_text(refusal: TextRefusal, text: &[u8]) -> Refused
    ensures spelled { (p : Parts) → IsDateTime text.now p → result ≡ refused_text p.day refusal }
    ensures front { (stamp rest : List ℕ) (p : Parts) → text.now ≡ stamp ++ rest
        → IsDateTime stamp p → result ≡ refused_text p.day refusal }
    ensures date { (year month day : ℕ) → IsFullDate text.now year month day →
        result ≡ refused_text day refusal }
    ensures syntax { refusal ≡ Syntax → result ≡ refused.Syntax }
{
    match refusal {
        TextRefusal::Syntax => Refused::Syntax,
        TextRefusal::OutOfRange(Component::Month) => Refused::Month,
        TextRefusal::OutOfRange(Component::Day) => refused_day(text),
        TextRefusal::OutOfRange(Component::Hour) => Refused::Hour,
        TextRefusal::OutOfRange(Component::Minute) => Refused::Minute,
        TextRefusal::OutOfRange(Component::Second) => Refused::Second,
        TextRefusal::OutOfRange(Component::OffsetHour) => Refused::OffsetHour,
        TextRefusal::OutOfRange(Component::OffsetMinute) => Refused::OffsetMinute,
    }
}

// Why the day of a text is refused, by its two digits, of which eight bytes come before: it is none of any month, or
// none of its month.
fn refused_day(text: &[u8]) -> Refused
    ensures spelled { (p : Parts) → IsDateTime text.now p → result ≡ refused_day p.day }
    ensures front { (stamp rest : List ℕ) (p : Parts) → text.now ≡ stamp ++ rest
        → IsDateTime stamp p → result ≡ refused_day p.day }
    ensures date { (year month day : ℕ) → IsFullDate text.now year month day →
        result ≡ refused_day day }
{
    let [_, _, _, _, _, _, _, _, tens, units, ..] = text else {
        return Refused::Day;
    };
    if is_some_day(*tens, *units) {
        Refused::DayOfMonth
    } else {
        Refused::Day
    }
}

// Whether two digits are a day of some month, 01 to 31.
fn is_some_day(tens: u8, units: u8) -> bool
    ensures { (day : ℕ) → day < 100 → tens ≡ 48 + day / 10 % 10 → units ≡ 48 + day % 10
        → result ≡ not (day == 0 || nat_lt 31 day) }
{
    match tens {
        b'0' => units != b'0',
        b'1' | b'2' => true,
        b'3' => units < b'2',
        _ => false,
    }
}

#[inline(always)]
pub(crate) fn date_time_from_rfc3339(text: &[u8]) -> Result<MuxanduDateTime, Refused>
    ensures spelled { (p : Parts) → IsDateTime text.now p → result ≡ date_time_spelled p }
    ensures syntax { ((p : Parts) × IsDateTime text.now p) ⊎ (result ≡ Err refused.Syntax) }
{
    match read_wall_text(text) {
        Some((_, parts)) => Ok(parts),
        None => Ok(date_time_of(read_any_text(text)?)),
    }
}

/// The date-time and the offset in an RFC 3339 text, with nothing before or after it. Examples are
/// `1985-04-12T23:20:50.52Z` and `1996-12-19T16:39:57-08:00`. `t` or a space may replace the `T`,
/// and `z` the `Z`. The call drops digits past the ninth of the fraction, and reads `-00:00` as the
/// offset 0. Errors: SYNTAX if the text has another form, else that of the first part out of range:
/// MONTH, DAY or DAY_OF_MONTH, HOUR, MINUTE, SECOND, OFFSET_HOUR, OFFSET_MINUTE.
#[unsafe(no_mangle)]
pub extern "C" fn muxandu_date_time_from_rfc3339(
    text: &[u8],
    out: &mut MuxanduDateTime,
) -> MuxanduStatus
    ensures status { (p : Parts) → IsDateTime text.now p →
        result ≡ status_of (date_time_spelled p) }
    ensures written { (p : Parts) → IsDateTime text.now p →
        out.new ≡ value_or (date_time_spelled p) out.old }
    ensures syntax { ((p : Parts) × IsDateTime text.now p)
        ⊎ ((result ≡ status_number refused.Syntax) × (out.new ≡ out.old)) }
{
    answer(date_time_from_rfc3339(text), out)
}

#[inline(always)]
pub(crate) fn timestamp_from_rfc3339(text: &[u8]) -> Result<MuxanduTimestamp, Refused>
    ensures spelled { (p : Parts) → IsDateTime text.now p → result ≡ timestamp_spelled p }
    ensures syntax { ((p : Parts) × IsDateTime text.now p) ⊎ (result ≡ Err refused.Syntax) }
{
    // Those of 20 bytes in UTC are read without a test for a fraction or an offset.
    if let Some(at) = read_utc_text(text) {
        return Ok(timestamp_of(instant_in_range(at)));
    }
    if let Some((at, parts)) = read_wall_text(text) {
        return Ok(timestamp_of(instant_in_range_at(at, parts.offset_seconds)));
    }
    Ok(timestamp_of(instant_in_range(read_any_text(text)?)))
}

/// The instant of an RFC 3339 text, as muxandu_date_time_from_rfc3339 reads it. Errors: those of
/// that call.
#[unsafe(no_mangle)]
pub extern "C" fn muxandu_timestamp_from_rfc3339(
    text: &[u8],
    out: &mut MuxanduTimestamp,
) -> MuxanduStatus
    ensures status { (p : Parts) → IsDateTime text.now p →
        result ≡ status_of (timestamp_spelled p) }
    ensures written { (p : Parts) → IsDateTime text.now p →
        out.new ≡ value_or (timestamp_spelled p) out.old }
    ensures syntax { ((p : Parts) × IsDateTime text.now p)
        ⊎ ((result ≡ status_number refused.Syntax) × (out.new ≡ out.old)) }
{
    answer(timestamp_from_rfc3339(text), out)
}
