//! Date-times at an offset, four at a time.
ghost use Rattle.std.specs.Prelude.{◌≡◌, ◌<◌, ◌^◌, ◌%◌, [], ◌∷◌};
ghost use Rattle.std.specs.Simd.Lanes.{Each1, zip2};
ghost use Rattle.calendar_values.specs.Reciprocal.{shifted_day, IsShiftedDay};
ghost use Rattle.lanes.specs.DateTimes.{IsWallSecond, day_of_second, shifted_second, second_of_low_word};
ghost use Rattle.lanes.specs.DateTimes.{date_time_of, date_time_by_steps, date_time_of_word};

use crate::calendar::{clocks, month_and_day, years_leap_ordinal};
use std::simd::prelude::*;

/// A wall clock at an offset. The fields are those of the struct that crosses to C, in the same
/// order.
#[repr(C)]
#[derive(Clone, Copy)]
pub struct DateTime {
    /// The year; year 0 comes before year 1.
    pub year: i32,
    /// The month, 1 to 12.
    pub month: u8,
    /// The day of the month, counted from 1.
    pub day: u8,
    /// The hour, 0 to 23.
    pub hour: u8,
    /// The minute, 0 to 59.
    pub minute: u8,
    /// The second, 0 to 59.
    pub second: u8,
    /// The nanosecond of the second.
    pub nanosecond: u32,
    /// The seconds by which the clocks are ahead of UTC.
    pub offset_seconds: i32,
}

// From 1 January of the year -2379600 to 1970-01-01.
const DAY_SHIFT: i64 = 869_850_581;

const SECONDS_PER_DAY: u32 = 86_400;

const YEAR_SHIFT: u32 = 2_379_600;

/// The wall clocks at an offset, in seconds, of four seconds, which these clocks count from
/// 1970-01-01 0:00. The day of each must be one of the range.
#[inline(always)]
pub fn date_times(a: i64, b: i64, c: i64, d: i64, offset_seconds: i32) -> [DateTime; 4]
    requires a { IsWallSecond a }
    requires b { IsWallSecond b }
    requires c { IsWallSecond c }
    requires d { IsWallSecond d }
    ensures { result ≡ date_time_of offset_seconds a ∷ date_time_of offset_seconds b
        ∷ date_time_of offset_seconds c ∷ date_time_of offset_seconds d ∷ [] }
{
    let (day_a, low_a) = day_and_low_word(a);
    let (day_b, low_b) = day_and_low_word(b);
    let (day_c, low_c) = day_and_low_word(c);
    let (day_d, low_d) = day_and_low_word(d);
    let day = u32x4::from_array([day_a, day_b, day_c, day_d]);
    let low = u32x4::from_array([low_a, low_b, low_c, low_d]);
    date_times_of_days(day, seconds_of_day(day, low), offset_seconds)
}

// The day, counted from the year -2379600, and the low 32 bits of the second, counted from there.
#[inline(always)]
fn day_and_low_word(second: i64) -> (u32, u32)
    requires { IsWallSecond second }
    ensures day { result.0 ≡ shifted_day (day_of_second second) }
    ensures in_range { IsShiftedDay result.0 }
    ensures low { result.1 ≡ shifted_second second % 2 ^ 32 }
{
    let seconds = (second + DAY_SHIFT * 86_400) as u64;
    ((seconds / 86_400) as u32, (seconds & 0xffff_ffff) as u32)
}

// The seconds of the day: what the days before leave of the low 32 bits.
#[inline(always)]
fn seconds_of_day(day: u32x4, low: u32x4) -> u32x4
    ensures { result ≡ zip2 second_of_low_word day low }
{
    low - day * u32x4::splat(SECONDS_PER_DAY)
}

// The same of days counted from the year -2379600, and of seconds of the day.
#[inline(always)]
fn date_times_of_days(day: u32x4, second: u32x4, offset_seconds: i32) -> [DateTime; 4]
    requires days { Each1 IsShiftedDay day }
    requires seconds { Each1 (λ s. s < 86_400) second }
    ensures { result ≡ zip2 (date_time_by_steps offset_seconds) day second }
{
    let (years, leap, ordinal) = years_leap_ordinal(day);
    let (month, day) = month_and_day(leap, ordinal);
    let (hour, minute, second) = clocks(second);
    let year = (years - u32x4::splat(YEAR_SHIFT)).to_array();
    let word = (month + (day << 8) + (hour << 16) + (minute << 24)).to_array();
    let second = second.to_array();
    [
        date_time(year[0], word[0], second[0], offset_seconds),
        date_time(year[1], word[1], second[1], offset_seconds),
        date_time(year[2], word[2], second[2], offset_seconds),
        date_time(year[3], word[3], second[3], offset_seconds),
    ]
}

// The date-time whose month, day, hour and minute are the bytes of a word, so that they are stored as one.
#[inline(always)]
fn date_time(year: u32, word: u32, second: u32, offset_seconds: i32) -> DateTime
    ensures { result ≡ date_time_of_word year word second offset_seconds }
{
    DateTime {
        year: year.cast_signed(),
        month: (word % 256) as u8,
        day: (word / 256 % 256) as u8,
        hour: (word / 65_536 % 256) as u8,
        minute: (word / 16_777_216 % 256) as u8,
        second: (second % 256) as u8,
        nanosecond: 0,
        offset_seconds,
    }
}
