//! Seconds of date-times, four at a time. Years begin on 1 March, so that a leap day is the last
//! day of its year.
ghost use Rattle.std.specs.Prelude.{◌≡◌, ◌+◌, ◌-◌, ◌*◌, ◌/◌, ◌^◌, ◌%◌, ◌<◌, ◌≤◌, ◌↔◌, IsTrue, map, [], ◌∷◌, nat_lt};
ghost use Rattle.std.specs.Int.{w32, cast_unsigned};
ghost use Rattle.std.specs.Simd.Lanes.{Each1, zip2};
ghost use Rattle.lanes.specs.Seconds.{IsInside, second_of};
ghost use Rattle.lanes.specs.MarchYears.{bit_of, is_within, march_year_of, leap_day_of, month_length_of};
ghost use Rattle.lanes.specs.MarchYears.{days_to_march, days_from_march};

use crate::date_times::DateTime;
use std::simd::prelude::*;

// From the year -1000000 to the year 0.
const YEAR_SHIFT: u32 = 1_000_000;

// The greatest distance of an offset.
const OFFSET_SHIFT: u32 = 93_599;

// From 1 March of the year -1000000, less a day, to 1970-01-01, and that distance.
const SECOND_SHIFT: u64 = 365_961_969 * 86_400 + 93_599;

// The parts of four date-times. Years and offsets are the bits of signed numbers.
#[derive(Clone, Copy)]
struct Parts {
    year: u32x4,
    month: u32x4,
    day: u32x4,
    hour: u32x4,
    minute: u32x4,
    second: u32x4,
    nanosecond: u32x4,
    offset: u32x4,
}

/// Whether all parts of four date-times are in their ranges, and no year is the first or the last
/// of the range.
#[inline(always)]
pub fn are_inside(a: DateTime, b: DateTime, c: DateTime, d: DateTime) -> bool
    ensures { IsTrue result ↔ (IsInside a × IsInside b × IsInside c × IsInside d) }
{
    let parts = parts_of(a, b, c, d);
    let years = parts.year + u32x4::splat(YEAR_SHIFT);
    let lengths = month_lengths(
        leap_days(years, march_years(years, parts.month)),
        parts.month,
    );
    let passes = within(years, 2, 1_999_998)
        & within(parts.month, 1, 12)
        & days_within(parts.day, lengths)
        & within(parts.hour, 0, 23)
        & within(parts.minute, 0, 59)
        & within(parts.second, 0, 59)
        & within(parts.nanosecond, 0, 999_999_999)
        & within(parts.offset + u32x4::splat(OFFSET_SHIFT), 0, 187_198);
    passes.simd_eq(u32x4::splat(1)).to_bitmask() == 15
}

/// The Unix seconds at which clocks at their offsets show four date-times, whose parts must be in
/// their ranges. No year may be the first or the last of the range.
#[inline(always)]
pub fn seconds(a: DateTime, b: DateTime, c: DateTime, d: DateTime) -> [i64; 4]
    requires a { IsInside a }
    requires b { IsInside b }
    requires c { IsInside c }
    requires d { IsInside d }
    ensures { result ≡ second_of a ∷ second_of b ∷ second_of c ∷ second_of d ∷ [] }
{
    let parts = parts_of(a, b, c, d);
    let years = parts.year + u32x4::splat(YEAR_SHIFT);
    let march = march_days(march_years(years, parts.month));
    let day = march + month_days(parts.month) + parts.day;
    let sixty = u32x4::splat(60);
    let clock = (parts.hour * sixty + parts.minute) * sixty + parts.second;
    let second = clock + u32x4::splat(OFFSET_SHIFT) - parts.offset;
    let counts = (day.cast::<u64>() * u64x4::splat(86_400) + second.cast::<u64>()
        - u64x4::splat(SECOND_SHIFT)).to_array();
    [
        counts[0].cast_signed(),
        counts[1].cast_signed(),
        counts[2].cast_signed(),
        counts[3].cast_signed(),
    ]
}

#[inline(always)]
fn parts_of(a: DateTime, b: DateTime, c: DateTime, d: DateTime) -> Parts
    ensures year { result.year ≡ cast_unsigned w32 a.year ∷ cast_unsigned w32 b.year
        ∷ cast_unsigned w32 c.year ∷ cast_unsigned w32 d.year ∷ [] }
    ensures month { result.month ≡ a.month ∷ b.month ∷ c.month ∷ d.month ∷ [] }
    ensures day { result.day ≡ a.day ∷ b.day ∷ c.day ∷ d.day ∷ [] }
    ensures hour { result.hour ≡ a.hour ∷ b.hour ∷ c.hour ∷ d.hour ∷ [] }
    ensures minute { result.minute ≡ a.minute ∷ b.minute ∷ c.minute ∷ d.minute ∷ [] }
    ensures second { result.second ≡ a.second ∷ b.second ∷ c.second ∷ d.second ∷ [] }
    ensures nanosecond { result.nanosecond ≡
        a.nanosecond ∷ b.nanosecond ∷ c.nanosecond ∷ d.nanosecond ∷ [] }
    ensures offset { result.offset ≡
        cast_unsigned w32 a.offset_seconds ∷ cast_unsigned w32 b.offset_seconds
        ∷ cast_unsigned w32 c.offset_seconds ∷ cast_unsigned w32 d.offset_seconds ∷ [] }
{
    let word = u32x4::from_array([word(a), word(b), word(c), word(d)]);
    let byte = u32x4::splat(255);
    Parts {
        year: u32x4::from_array([
            a.year.cast_unsigned(),
            b.year.cast_unsigned(),
            c.year.cast_unsigned(),
            d.year.cast_unsigned(),
        ]),
        month: word & byte,
        day: (word >> 8) & byte,
        hour: (word >> 16) & byte,
        minute: word >> 24,
        second: u32x4::from_array([
            u32::from(a.second),
            u32::from(b.second),
            u32::from(c.second),
            u32::from(d.second),
        ]),
        nanosecond: u32x4::from_array([a.nanosecond, b.nanosecond, c.nanosecond, d.nanosecond]),
        offset: u32x4::from_array([
            a.offset_seconds.cast_unsigned(),
            b.offset_seconds.cast_unsigned(),
            c.offset_seconds.cast_unsigned(),
            d.offset_seconds.cast_unsigned(),
        ]),
    }
}

// Four parts as the bytes of a word, so that they are loaded as one.
#[inline(always)]
fn word(at: DateTime) -> u32
    ensures { result ≡ at.month + at.day * 256 + at.hour * 65_536 + at.minute * 16_777_216 }
{
    u32::from(at.month)
        + u32::from(at.day) * 256
        + u32::from(at.hour) * 65_536
        + u32::from(at.minute) * 16_777_216
}

// 1 for each number that is in a range, and 0 for another.
#[inline(always)]
fn within(numbers: u32x4, first: u32, last: u32) -> u32x4
    requires { first ≤ last }
    ensures { result ≡ map (λ n. bit_of (is_within first last n)) numbers }
{
    (numbers - u32x4::splat(first))
        .simd_le(u32x4::splat(last - first))
        .select(u32x4::splat(1), u32x4::splat(0))
}

// The same for days of months of a length.
#[inline(always)]
fn days_within(day: u32x4, length: u32x4) -> u32x4
    requires { Each1 (λ l. l < 2 ^ 31) length }
    ensures { result ≡ zip2 (λ d l. bit_of (is_within 1 l d)) day length }
{
    let one = u32x4::splat(1);
    (day - one).simd_lt(length).select(one, u32x4::splat(0))
}

// The years that begin on 1 March.
#[inline(always)]
fn march_years(years: u32x4, month: u32x4) -> u32x4
    ensures { result ≡ zip2 march_year_of years month }
{
    let is_before = month.simd_lt(u32x4::splat(3));
    years - is_before.select(u32x4::splat(1), u32x4::splat(0))
}

// 1 for a leap year and 0 for another, of years whose February is looked at.
#[inline(always)]
fn leap_days(years: u32x4, march: u32x4) -> u32x4
    ensures { result ≡ zip2 leap_day_of years march }
{
    let hundred = u32x4::splat(100);
    let is_last = (march - march / hundred * hundred).simd_eq(u32x4::splat(99));
    let bits = is_last.select(u32x4::splat(15), u32x4::splat(3));
    let zero = u32x4::splat(0);
    (years & bits).simd_eq(zero).select(u32x4::splat(1), zero)
}

// The days of the months.
#[inline(always)]
fn month_lengths(leap_day: u32x4, month: u32x4) -> u32x4
    requires leap_day { Each1 (λ l. l ≤ 1) leap_day }
    requires month { Each1 (λ m. m < 256) month }
    ensures { result ≡ zip2 month_length_of leap_day month }
{
    let other = u32x4::splat(30) + ((month + (month >> 3)) & u32x4::splat(1));
    let february = u32x4::splat(28) + leap_day;
    month.simd_eq(u32x4::splat(2)).select(february, other)
}

// The days up to 1 March of each year.
#[inline(always)]
fn march_days(march: u32x4) -> u32x4
    requires { Each1 (λ y. y < 2_000_000) march }
    ensures { result ≡ map days_to_march march }
{
    let century = march / u32x4::splat(100);
    ((march * u32x4::splat(1_461)) >> 2) - century + (century >> 2)
}

// The days from 1 March up to the first of each month.
#[inline(always)]
fn month_days(month: u32x4) -> u32x4
    requires { Each1 (λ m. (1 ≤ m) × (m ≤ 12)) month }
    ensures { result ≡ map days_from_march month }
{
    let is_before = month.simd_lt(u32x4::splat(3));
    let march_month = month + is_before.select(u32x4::splat(12), u32x4::splat(0));
    (march_month * u32x4::splat(979) - u32x4::splat(2_919)) >> 5
}
