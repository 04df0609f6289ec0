//! Texts of RFC 3339, written into bytes of the caller's.
ghost use Rattle.std.specs.Prelude.{◌≡◌, ◌≤◌, length, IfOk};
ghost use Rattle.std.specs.Option.{ForSome};
ghost use Rattle.muxandu_c.specs.Answers.{written_over, length_of_answer};
ghost use Rattle.muxandu_c.specs.Exchange.{date_time_to_rfc3339, timestamp_to_rfc3339};
ghost use Rattle.muxandu_c.specs.WrittenTexts.{has_text, numbers_of, text_of_numbers, AreWritable};

use crate::parts::{read_date_time, read_timestamp, wall_parts};
use crate::refused::Refused;
use crate::values::{MuxanduDateTime, MuxanduTimestamp};
use rfc3339::length_laws::texts_in_utc_have_thirty_bytes;
use rfc3339::{Parts, write_rfc3339_parts};

// Writes the text of a date-time where there is room for any, and says how long it is.
#[inline(always)]
pub(crate) fn write_date_time(
    date_time: MuxanduDateTime,
    bytes: &mut [u8],
) -> Result<usize, Refused>
    requires room { 35 ≤ length bytes.old }
    ensures length { result ≡ length_of_answer (date_time_to_rfc3339 date_time) }
    ensures written { bytes.new ≡ written_over (date_time_to_rfc3339 date_time) bytes.old }
    ensures at_most { IfOk (date_time_to_rfc3339 date_time) (λ text. length text ≤ 35) }
{
    read_date_time(date_time)?;
    write_numbers(numbers_of(date_time), bytes)
}

// The same of an instant, in UTC.
#[inline(always)]
pub(crate) fn write_timestamp(at: MuxanduTimestamp, bytes: &mut [u8]) -> Result<usize, Refused>
    requires room { 35 ≤ length bytes.old }
    ensures length { result ≡ length_of_answer (timestamp_to_rfc3339 at) }
    ensures written { bytes.new ≡ written_over (timestamp_to_rfc3339 at) bytes.old }
    ensures at_most { IfOk (timestamp_to_rfc3339 at) (λ text. length text ≤ 30) }
{
    texts_in_utc_have_thirty_bytes();
    let at = read_timestamp(at)?;
    write_numbers(numbers_of(wall_parts(at, 0)), bytes)
}

// The numbers that the text of a date-time spells, if it has one.
#[inline(always)]
fn numbers_of(date_time: MuxanduDateTime) -> Option<Parts>
    ensures { result ≡ numbers_of date_time }
{
    if !has_text(date_time) {
        return None;
    }
    let minutes = date_time.offset_seconds.unsigned_abs() / 60;
    Some(Parts {
        year: date_time.year as u16,
        month: date_time.month,
        day: date_time.day,
        hour: date_time.hour,
        minute: date_time.minute,
        second: date_time.second,
        nanosecond: date_time.nanosecond,
        is_west: date_time.offset_seconds < 0,
        offset_hour: (minutes / 60) as u8,
        offset_minute: (minutes % 60) as u8,
    })
}

// Whether a date-time has a text: its year has four digits, and its offset is of whole minutes, less than a day.
#[inline(always)]
fn has_text(date_time: MuxanduDateTime) -> bool
    ensures { result ≡ has_text date_time.year date_time.offset_seconds }
{
    let size = date_time.offset_seconds.unsigned_abs();
    (date_time.year >= 0) & (date_time.year <= 9_999) & (size % 60 == 0) & (size < 86_400)
}

// Writes the text of these numbers where there is room for any, and says how long it is.
#[inline(always)]
fn write_numbers(numbers: Option<Parts>, bytes: &mut [u8]) -> Result<usize, Refused>
    requires numbers { ForSome numbers AreWritable }
    requires room { 35 ≤ length bytes.old }
    ensures length { result ≡ length_of_answer (text_of_numbers numbers) }
    ensures written { bytes.new ≡ written_over (text_of_numbers numbers) bytes.old }
    ensures at_most { IfOk (text_of_numbers numbers) (λ text. length text ≤ 35) }
{
    match numbers {
        Some(parts) => Ok(write_rfc3339_parts(parts, bytes)),
        None => Err(Refused::NoText),
    }
}
