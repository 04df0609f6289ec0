//! Texts of RFC 3339 with a `T`, at any offset. Vector lanes read their first sixteen bytes at
//! once.
ghost use Rattle.std.specs.Prelude.{◌≡◌, ◌≤◌, ◌&&◌, ◌==◌, length, drop, Ok, Some, IfSome};
ghost use Rattle.std.specs.Char.{is_ascii_digit};
ghost use Rattle.calendar_values.specs.WallClock.{IsInstant};
ghost use Rattle.offset_times.specs.Local.{instant_of};
ghost use Rattle.rfc3339.specs.Meaning.{meaning, offset_of};
ghost use Rattle.rfc3339.specs.Reading.{front_at, parts_at, reading_of};
ghost use Rattle.rfc3339.specs.Walls.{fraction_on};
ghost use Rattle.muxandu_c.specs.UtcTexts.{IsUtc};
ghost use Rattle.muxandu_c.specs.Values.{date_time_parts};
ghost use Rattle.muxandu_c.specs.WallTexts.{spelled_parts};

use crate::parts::read_date_time;
use crate::values::MuxanduDateTime;
use lanes::minute_texts::{is_minute_text, minute_text_numbers};
use offset_times::OffsetDateTime;
use rfc3339::{Parts, parts_after_second};
use std::simd::prelude::*;

// The date-time of such a text and the parts of it, if they are in their ranges. None says nothing of a text.
#[inline(always)]
pub(crate) fn read_wall_text(text: &[u8]) -> Option<(OffsetDateTime, MuxanduDateTime)>
    ensures reading { IfSome result (λ read. reading_of text.now ≡ Ok read.0) }
    ensures instant { IfSome result (λ read. IsInstant (instant_of read.0)) }
    ensures parts { IfSome result (λ read. read.1 ≡ date_time_parts read.0) }
{
    match text_numbers(text) {
        Some(numbers) => value_in_range(numbers),
        None => None,
    }
}

// The numbers of such a text. None says nothing of a text.
#[inline(always)]
fn text_numbers(text: &[u8]) -> Option<Parts>
    ensures value { IfSome result (λ p. parts_at text.now ≡ Some p) }
    ensures year { IfSome result (λ p. p.year ≤ 9_999) }
{
    if text.len() < 20 {
        return None;
    }
    match wall_numbers(text) {
        Some(numbers) => parts_after_second(numbers, &text[19..]),
        None => None,
    }
}

// The numbers of its first 19 bytes. None says nothing of a text.
#[inline(always)]
pub(crate) fn wall_numbers(text: &[u8]) -> Option<Parts>
    requires { 20 ≤ length text.now }
    ensures value { IfSome result (λ p. front_at text.now ≡ fraction_on p (drop 19 text.now)) }
    ensures utc { IfSome result IsUtc }
{
    let bytes = u8x16::from_slice(text);
    if is_minute_text(bytes) && is_second(text[16], text[17], text[18]) {
        let numbers = minute_text_numbers(bytes).to_array();
        return Some(Parts {
            year: u16::from(numbers[0]) * 100 + u16::from(numbers[1]),
            month: numbers[2],
            day: numbers[3],
            hour: numbers[4],
            minute: numbers[5],
            second: (text[17] - b'0') * 10 + (text[18] - b'0'),
            nanosecond: 0,
            is_west: false,
            offset_hour: 0,
            offset_minute: 0,
        });
    }
    None
}

// Whether three bytes are `:` and two digits.
#[inline(always)]
fn is_second(mark: u8, tens: u8, units: u8) -> bool
    ensures { result ≡ (mark == 58 && (is_ascii_digit tens && is_ascii_digit units)) }
{
    (mark == b':') & (tens.is_ascii_digit() & units.is_ascii_digit())
}

// What numbers mean and the parts of it, if they are in their ranges.
#[inline(always)]
fn value_in_range(numbers: Parts) -> Option<(OffsetDateTime, MuxanduDateTime)>
    requires { numbers.year ≤ 9_999 }
    ensures value { IfSome result (λ read. meaning numbers ≡ Ok read.0) }
    ensures parts { IfSome result (λ read. read.1 ≡ date_time_parts read.0) }
{
    if numbers.offset_hour > 23 || numbers.offset_minute > 59 {
        return None;
    }
    let parts = spelled_parts(numbers);
    match read_date_time(parts) {
        Ok(at) => Some((at, parts)),
        Err(_) => None,
    }
}

// Numbers as the parts of a date-time.
#[inline(always)]
fn spelled_parts(numbers: Parts) -> MuxanduDateTime
    requires year { numbers.year ≤ 9_999 }
    requires offset_hour { numbers.offset_hour ≤ 23 }
    requires offset_minute { numbers.offset_minute ≤ 59 }
    ensures { result ≡ spelled_parts numbers }
{
    MuxanduDateTime {
        year: numbers.year as i32,
        month: numbers.month,
        day: numbers.day,
        hour: numbers.hour,
        minute: numbers.minute,
        second: numbers.second,
        nanosecond: numbers.nanosecond,
        offset_seconds: offset_seconds(numbers.is_west, numbers.offset_hour, numbers.offset_minute),
    }
}

// The seconds of the offset of a sign, hours and minutes.
#[inline(always)]
fn offset_seconds(is_west: bool, hour: u8, minute: u8) -> i32
    requires hour { hour ≤ 23 }
    requires minute { minute ≤ 59 }
    ensures { result ≡ offset_of is_west hour minute }
{
    let seconds = hour as i32 * 3_600 + minute as i32 * 60;
    if is_west { -seconds } else { seconds }
}
