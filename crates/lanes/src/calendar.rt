//! Years, months, days and times of day of four lanes at once, by products in place of divisions.
//! Each lane takes the steps of `stamp_times::reciprocal`, whose definitions the contracts cite.
ghost use Rattle.std.specs.Prelude.{◌≡◌, ◌<◌, ◌≤◌, ◌^◌, ◌/◌, ◌%◌, ◌==◌, map, if◌then◌else◌};
ghost use Rattle.std.specs.Simd.Lanes.{Each1, Each2, zip2};
ghost use Rattle.calendar_values.specs.Calendar.{month_of_ordinal, day_of_ordinal};
ghost use Rattle.calendar_values.specs.Reciprocal.{IsShiftedDay, century_of, century_fraction_of, julian_count, IsJulianCount};
ghost use Rattle.calendar_values.specs.Reciprocal.{julian_year_of, julian_year_fraction_of, years_of, step_leap, step_ordinal};
ghost use Rattle.lanes.specs.YearLanes.{julian_bit, leap_bit, ordinal_of_fraction, IsOrdinalLane};

use std::simd::prelude::*;

// 2^49 / 146,097, rounded down.
const CENTURY_MULTIPLIER: u64 = 3_853_261_555;

// 2^42 / 1,461, rounded up.
const YEAR_MULTIPLIER: u64 = 3_010_298_776;

// 365 * 2^32 / 36,525, rounded down: the fraction of a century up to the end of its first 365 days.
const FIRST_YEAR_CUT: u32 = 42_920_275;

/// The years from the year -2379600 to that of each day, 1 for a leap year and 0 for another, and
/// the days of the year, counted from 1 (Gregorian calendar). Days are counted from 1 January of
/// the year -2379600, and must be from 503,888,919 to 1,234,373,552.
#[inline(always)]
pub fn years_leap_ordinal(day: u32x4) -> (u32x4, u32x4, u32x4)
    requires { Each1 IsShiftedDay day }
    ensures years { result.0 ≡ map years_of day }
    ensures leap { result.1 ≡ map (λ d. if step_leap d then 1 else 0) day }
    ensures ordinal { result.2 ≡ map step_ordinal day }
{
    let (century, century_fraction) = centuries(day);
    let julian = julian_bits(century, century_fraction);
    let (years, year_fraction) = julian_years(julian_counts(day, century));
    (
        years,
        leap_bits(years, julian),
        ordinals(year_fraction, julian),
    )
}

// The whole centuries up to each day, and the fractions of a century.
#[inline(always)]
fn centuries(day: u32x4) -> (u32x4, u32x4)
    requires { Each1 IsShiftedDay day }
    ensures century { result.0 ≡ map century_of day }
    ensures fraction { result.1 ≡ map century_fraction_of day }
{
    whole_and_fraction(
        day.cast::<u64>()
            .strict_mul(u64x4::splat(CENTURY_MULTIPLIER))
            >> 15,
    )
}

// The whole years up to each day of a calendar without the rule on centuries, and the fractions of a year.
#[inline(always)]
fn julian_years(julian_day: u32x4) -> (u32x4, u32x4)
    requires { Each1 IsJulianCount julian_day }
    ensures year { result.0 ≡ map julian_year_of julian_day }
    ensures fraction { result.1 ≡ map julian_year_fraction_of julian_day }
{
    whole_and_fraction(
        julian_day
            .cast::<u64>()
            .strict_mul(u64x4::splat(YEAR_MULTIPLIER))
            >> 8,
    )
}

// The high and the low 32 bits of each lane.
#[inline(always)]
fn whole_and_fraction(scaled: u64x4) -> (u32x4, u32x4)
    ensures high { result.0 ≡ map (λ x. x / 2 ^ 32) scaled }
    ensures low { result.1 ≡ map (λ x. x % 2 ^ 32) scaled }
{
    (
        (scaled >> 32).cast::<u32>(),
        (scaled & u64x4::splat(0xffff_ffff)).cast::<u32>(),
    )
}

// 1 for a year as long as without the rule on centuries, and 0 for another.
#[inline(always)]
fn julian_bits(century: u32x4, fraction: u32x4) -> u32x4
    ensures { result ≡ zip2 julian_bit century fraction }
{
    let one = u32x4::splat(1);
    let zero = u32x4::splat(0);
    let later_year = fraction
        .simd_gt(u32x4::splat(FIRST_YEAR_CUT))
        .select(one, zero);
    (century & u32x4::splat(3))
        .simd_eq(zero)
        .select(one, later_year)
}

// The days, counted in a calendar without the rule on centuries.
#[inline(always)]
fn julian_counts(day: u32x4, century: u32x4) -> u32x4
    requires century { century ≡ map century_of day }
    requires days { Each1 IsShiftedDay day }
    ensures { result ≡ map julian_count day }
{
    day - (century >> 2) + century
}

// 1 for a leap year, and 0 for another.
#[inline(always)]
fn leap_bits(years: u32x4, julian: u32x4) -> u32x4
    ensures { result ≡ zip2 leap_bit years julian }
{
    let zero = u32x4::splat(0);
    (years & u32x4::splat(3)).simd_eq(zero).select(julian, zero)
}

// The days of the year.
#[inline(always)]
fn ordinals(fraction: u32x4, julian: u32x4) -> u32x4
    requires { Each2 (λ f b. b ≤ 1) fraction julian }
    ensures { result ≡ zip2 ordinal_of_fraction fraction julian }
{
    (fraction.cast::<u64>().strict_mul(u64x4::splat(1_461)) >> 34).cast::<u32>() + julian
}

/// The months and the days of the month of days of the year, which are counted from 1 (Gregorian
/// calendar). `leap` is 1 for a leap year and 0 for another, and each year must have the day.
#[inline(always)]
pub fn month_and_day(leap: u32x4, ordinal: u32x4) -> (u32x4, u32x4)
    requires { Each2 IsOrdinalLane leap ordinal }
    ensures month { result.0 ≡ zip2 (λ l o. month_of_ordinal (l == 1) o) leap ordinal }
    ensures day { result.1 ≡ zip2 (λ l o. day_of_ordinal (l == 1) o) leap ordinal }
{
    let zero = u32x4::splat(0);
    let until_march = leap + u32x4::splat(59);
    let is_later = ordinal.simd_gt(until_march);
    let day = ordinal - is_later.select(until_march, zero);
    let month = (day * u32x4::splat(268) + u32x4::splat(8_031)) >> 13;
    (
        month + is_later.select(u32x4::splat(2), zero),
        day - ((month * u32x4::splat(3_917) - u32x4::splat(3_866)) >> 7),
    )
}

/// The hours, the minutes of the hour and the seconds of the minute of seconds of the day, which
/// must be below 86,400. The factors are 2^19 / 15 and 2^16 / 60, rounded up.
#[inline(always)]
pub fn clocks(second: u32x4) -> (u32x4, u32x4, u32x4)
    requires { Each1 (λ s. s < 86_400) second }
    ensures hour { result.0 ≡ map (λ s. s / 60 / 60) second }
    ensures minute { result.1 ≡ map (λ s. s / 60 % 60) second }
    ensures second { result.2 ≡ map (λ s. s % 60) second }
{
    let sixty = u32x4::splat(60);
    let minutes = ((second >> 2) * u32x4::splat(34_953)) >> 19;
    let hours = (minutes * u32x4::splat(1_093)) >> 16;
    (hours, minutes - hours * sixty, second - minutes * sixty)
}
