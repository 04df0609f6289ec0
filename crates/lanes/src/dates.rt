//! Dates, four at a time.
ghost use Rattle.std.specs.Prelude.{◌≡◌, ◌↔◌, IsTrue, map, [], ◌∷◌};
ghost use Rattle.std.specs.Simd.Lanes.{Each1};
ghost use Rattle.calendar_values.specs.Range.{IsDay};
ghost use Rattle.calendar_values.specs.Reciprocal.{IsShiftedDay};
ghost use Rattle.lanes.specs.Dates.{date_of, day_in_lane, date_by_steps, date_of_word};

use crate::calendar::{month_and_day, years_leap_ordinal};
use std::simd::prelude::*;

/// A date. The fields are those of the struct that crosses to C, in the same order.
#[repr(C)]
#[derive(Clone, Copy)]
pub struct Date {
    /// The year; year 0 comes before year 1.
    pub year: i32,
    /// The month, 1 to 12.
    pub month: u8,
    /// The day of the month, counted from 1.
    pub day: u8,
}

// From 1 January of the year -2379600 to 1970-01-01.
const DAY_SHIFT: u32 = 869_850_581;

// The first day of the range, counted from there.
const FIRST_DAY: u32 = 503_888_919;

// The days of the range, less one.
const LATER_DAYS: u32 = 730_484_633;

const YEAR_SHIFT: u32 = 2_379_600;

/// Whether four days, counted from 1970-01-01, are all days of the range.
#[inline(always)]
pub fn are_days(a: i32, b: i32, c: i32, d: i32) -> bool
    ensures { IsTrue result ↔ (IsDay a × IsDay b × IsDay c × IsDay d) }
{
    let later = shifted_days(a, b, c, d) - u32x4::splat(FIRST_DAY);
    later.simd_le(u32x4::splat(LATER_DAYS)).to_bitmask() == 15
}

/// The dates of four days, which are counted from 1970-01-01. Each must be a day of the range.
#[inline(always)]
pub fn dates(a: i32, b: i32, c: i32, d: i32) -> [Date; 4]
    requires a { IsDay a }
    requires b { IsDay b }
    requires c { IsDay c }
    requires d { IsDay d }
    ensures { result ≡ date_of a ∷ date_of b ∷ date_of c ∷ date_of d ∷ [] }
{
    dates_of_shifted_days(shifted_days(a, b, c, d))
}

// Four days, counted from the year -2379600, in 32 bits.
#[inline(always)]
fn shifted_days(a: i32, b: i32, c: i32, d: i32) -> u32x4
    ensures { result ≡ day_in_lane a ∷ day_in_lane b ∷ day_in_lane c ∷ day_in_lane d ∷ [] }
{
    let day = u32x4::from_array([
        a.cast_unsigned(),
        b.cast_unsigned(),
        c.cast_unsigned(),
        d.cast_unsigned(),
    ]);
    day + u32x4::splat(DAY_SHIFT)
}

// The dates of days counted from the year -2379600.
#[inline(always)]
fn dates_of_shifted_days(day: u32x4) -> [Date; 4]
    requires { Each1 IsShiftedDay day }
    ensures { result ≡ map date_by_steps day }
{
    let (years, leap, ordinal) = years_leap_ordinal(day);
    let (month, day) = month_and_day(leap, ordinal);
    let year = (years - u32x4::splat(YEAR_SHIFT)).to_array();
    let word = (month + (day << 8)).to_array();
    [
        date_of_word(year[0], word[0]),
        date_of_word(year[1], word[1]),
        date_of_word(year[2], word[2]),
        date_of_word(year[3], word[3]),
    ]
}

// The date whose month and day are the low bytes of a word, so that they are stored as one.
#[inline(always)]
fn date_of_word(year: u32, word: u32) -> Date
    ensures { result ≡ date_of_word year word }
{
    Date {
        year: year.cast_signed(),
        month: (word % 256) as u8,
        day: (word / 256 % 256) as u8,
    }
}
