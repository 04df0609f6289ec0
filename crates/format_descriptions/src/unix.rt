//! Unix timestamps, written and read.
ghost use Rattle.std.specs.Prelude.{◌≡◌, ◌≤◌, ◌<◌, ◌+◌, ◌*◌, ◌/◌, ◌%◌, ◌^◌, ◌++◌, length, option_map, IfSome};
ghost use Rattle.std.specs.Prelude.{decimal, unsigned_abs};
ghost use Rattle.calendar_values.specs.Clock.{nanos_per_second};
ghost use Rattle.calendar_values.specs.WallClock.{wall_clock, unix_seconds_of};
ghost use Rattle.offset_times.specs.Local.{instant_of, wall_at};
ghost use Rattle.stamp_times.specs.Instants.{unix_nanosecond_of, unix_milliseconds_of, unix_microseconds_of};
ghost use Rattle.format_descriptions.specs.Reading.{digits_on, decimal_at, unix_at};
ghost use Rattle.format_descriptions.specs.Written.{unix_rounded, unix_count, unix_text};

use crate::reading::{digit, sign};
use crate::{Sign, UnixPrecision};
use calendar_values::{Date, Text, Time, UtcOffset};
use offset_times::OffsetDateTime;

// What a Unix timestamp counts, rounded down.
#[tactic(auto, unfolding(crate::specs::Written::unix_count))]
#[inline(never)]
pub(crate) fn unix_count(
    precision: UnixPrecision,
    date: Date,
    time: Time,
    offset: UtcOffset,
) -> i128
    ensures value { result ≡ unix_count precision date time offset }
    ensures below { unsigned_abs result < 10 ^ 23 }
{
    unix_rounded(precision, nanoseconds(date, time, offset))
}

// The nanoseconds of the instant of a date and a time of day at an offset.
fn nanoseconds(date: Date, time: Time, offset: UtcOffset) -> i128
    ensures value { result ≡ instant_of (wall_at (wall_clock date time) offset) }
    ensures below { unsigned_abs result < 10 ^ 23 }
{
    let at = OffsetDateTime::new_in_offset(date, time, offset);
    // For the proof alone: the wall clock and the offset lie in their ranges.
    let _in_range = at.date_time();
    at.unix_timestamp_nanos()
}

// What a Unix timestamp counts of an instant.
fn unix_rounded(precision: UnixPrecision, instant: i128) -> i128
    requires { unsigned_abs instant < 10 ^ 23 }
    ensures value { result ≡ unix_rounded precision instant }
    ensures below { unsigned_abs result < 10 ^ 23 }
{
    match precision {
        UnixPrecision::Seconds => split_seconds(instant).0,
        UnixPrecision::Milliseconds => milliseconds(instant),
        UnixPrecision::Microseconds => microseconds(instant),
        UnixPrecision::Nanoseconds => instant,
    }
}

// The whole milliseconds of a number of nanoseconds, rounded down.
fn milliseconds(nanoseconds: i128) -> i128
    requires { unsigned_abs nanoseconds < 10 ^ 23 }
    ensures value { result ≡ unix_milliseconds_of nanoseconds }
    ensures below { unsigned_abs result < 10 ^ 23 }
{
    let (second, nanosecond) = split_seconds(nanoseconds);
    second * 1_000 + (nanosecond / 1_000_000) as i128
}

// The whole microseconds of a number of nanoseconds, rounded down.
fn microseconds(nanoseconds: i128) -> i128
    requires { unsigned_abs nanoseconds < 10 ^ 23 }
    ensures value { result ≡ unix_microseconds_of nanoseconds }
    ensures below { unsigned_abs result < 10 ^ 23 }
{
    let (second, nanosecond) = split_seconds(nanoseconds);
    second * 1_000_000 + (nanosecond / 1_000) as i128
}

// The seconds of a number of nanoseconds, rounded down, and the nanoseconds past them.
pub(crate) fn split_seconds(nanoseconds: i128) -> (i128, u32)
    requires { unsigned_abs nanoseconds < 10 ^ 23 }
    ensures second { result.0 ≡ unix_seconds_of nanoseconds }
    ensures nanosecond { result.1 ≡ unix_nanosecond_of nanoseconds }
    ensures near { unsigned_abs result.0 ≤ 100_000_000_000_000 }
    ensures below { result.1 < nanos_per_second }
{
    let (second, nanosecond) = by_a_billion(
        (nanoseconds + 100_000_000_000_000_000_000_000) as u128,
    );
    (second as i128 - 100_000_000_000_000, nanosecond)
}

// A number by 1,000,000,000, and what is left, by divisions of 64 bits: for one of 128 bits a program calls a library.
fn by_a_billion(number: u128) -> (u64, u32)
    requires { number < 2 * 10 ^ 23 }
    ensures quotient { result.0 ≡ number / 1_000_000_000 }
    ensures rest { result.1 ≡ number % 1_000_000_000 }
{
    let high = (number / 18_446_744_073_709_551_616) as u64;
    let low = (number % 18_446_744_073_709_551_616) as u64;
    let left = high * 709_551_616 + low % 1_000_000_000;
    let quotient = high * 18_446_744_073 + low / 1_000_000_000 + left / 1_000_000_000;
    (quotient, (left % 1_000_000_000) as u32)
}

// A number by 10,000, and what is left.
fn by_ten_thousand(number: u128) -> (u64, u32)
    requires { number < 10 ^ 23 }
    ensures quotient { result.0 ≡ number / 10_000 }
    ensures rest { result.1 ≡ number % 10_000 }
{
    let high = (number / 18_446_744_073_709_551_616) as u64;
    let low = (number % 18_446_744_073_709_551_616) as u64;
    let left = high * 1_616 + low % 10_000;
    let quotient = high * 1_844_674_407_370_955 + low / 10_000 + left / 10_000;
    (quotient, (left % 10_000) as u32)
}

// Adds the sign and the digits of a Unix timestamp.
#[tactic(auto, unfolding(crate::specs::Written::unix_text))]
#[inline(never)]
pub(crate) fn put_unix(sign: Sign, count: i128, text: &mut Text)
    requires count { unsigned_abs count < 10 ^ 23 }
    requires room { length text.old ≤ 32 }
    ensures { text.new ≡ text.old ++ unix_text sign count }
{
    if count < 0 {
        text.push(b'-');
    } else if sign.is_mandatory() {
        text.push(b'+');
    }
    push_long_decimal(text, count.unsigned_abs());
}

// Adds a number of up to 23 digits.
#[tactic(auto, using(crate::proofs::DigitLemmas::pushed_decimal))]
fn push_long_decimal(text: &mut Text, number: u128)
    requires room { length text.old ≤ 40 }
    requires below { number < 10 ^ 23 }
    ensures { text.new ≡ text.old ++ decimal number }
{
    if number < 10_000_000_000_000_000_000 {
        text.push_decimal(number as u64);
    } else {
        let (first, last) = by_ten_thousand(number);
        text.push_decimal(first);
        text.push_four_digits(last);
    }
}

// The sign and the digits of a Unix timestamp, read from the front of a text.
#[tactic(auto, unfolding(crate::specs::Reading::unix_at))]
pub(crate) fn unix_at(sign_given: Sign, most: u8, text: &[u8]) -> Option<((bool, u128), &[u8])>
    requires { (1 ≤ most) × (most ≤ 23) }
    ensures value { option_map (λ read. (read.0, read.1.now)) result
        ≡ unix_at sign_given most text.now }
    ensures below { IfSome result (λ read. read.0.1 < 10 ^ 23) }
    ensures shorter { IfSome result (λ read. length read.1.now ≤ length text.now) }
{
    match sign(text) {
        Some((is_negative, digits)) => {
            let (number, rest) = decimal_at(most, digits)?;
            Some(((is_negative, number), rest))
        }
        None => match sign_given {
            Sign::Automatic => {
                let (number, rest) = decimal_at(most, text)?;
                Some(((false, number), rest))
            }
            Sign::Mandatory => None,
        },
    }
}

// A number of at least one digit, and of this number of digits at most.
#[tactic(auto, unfolding(crate::specs::Reading::decimal_at), using(crate::proofs::DigitLemmas::first_room))]
fn decimal_at(most: u8, text: &[u8]) -> Option<(u128, &[u8])>
    requires { (1 ≤ most) × (most ≤ 23) }
    ensures value { option_map (λ read. (read.0, read.1.now)) result ≡ decimal_at most text.now }
    ensures below { IfSome result (λ read. read.0 < 10 ^ 23) }
    ensures shorter { IfSome result (λ read. length read.1.now ≤ length text.now) }
{
    let (first, rest) = digit(text)?;
    Some(digits_on(most - 1, first as u128, rest))
}

// Up to this number of digits after those of a number.
#[tactic(auto, unfolding(crate::specs::Reading::digits_on), using(crate::proofs::DigitLemmas::room_next, crate::proofs::DigitLemmas::room_below, crate::proofs::DigitLemmas::no_more_digits))]
fn digits_on(count: u8, number: u128, text: &[u8]) -> (u128, &[u8])
    requires room { (number + 1) * 10 ^ count ≤ 10 ^ 23 }
    ensures value { (result.0, result.1.now) ≡ digits_on count (number, text.now) }
    ensures below { result.0 < 10 ^ 23 }
    ensures shorter { length result.1.now ≤ length text.now }
{
    if count == 0 {
        return (number, text);
    }
    match digit(text) {
        Some((digit, rest)) => digits_on(count - 1, number * 10 + digit as u128, rest),
        None => (number, text),
    }
}
