//! Columns of tables that store dates and times of day as numbers.
ghost use Rattle.std.specs.Prelude.{◌≡◌, ◌↔◌, ◌/◌, ◌%◌, ◌<◌, ◌+ℤ◌, ◌*ℤ◌, ◌≤ℤ◌, pos, IsSome, IsTrue, IfSome, SomeIff};
ghost use Rattle.std.specs.Int.{int_rem_euclid};
ghost use Rattle.calendar_values.specs.Calendar.{day_of_ordinal_date};
ghost use Rattle.calendar_values.specs.Clock.{nanos_per_day, nanos_per_second, hour_of, minute_of};
ghost use Rattle.calendar_values.specs.Parts.{part_name};
ghost use Rattle.calendar_values.specs.Range.{IsDay};
ghost use Rattle.calendar_values.specs.Weekday.{weekday_number};

use calendar_values::{ComponentRange, Date, Part, Time, Weekday, day_and_second};
use plain_times::PlainDateTime;

/// The number that a column of dates stores: the days since 1970-01-01.
pub fn stored_date(date: Date) -> i32
    ensures { result ≡ date }
{
    date.days_since_epoch()
}

/// The date that a column stores. None where the number is no day of the range.
pub fn date_of(stored: i32) -> Option<Date>
    ensures { SomeIff result (IsDay stored) stored }
{
    Date::from_days_since_epoch(stored)
}

/// A date that is stored and read.
pub fn read_again(date: Date) -> Date
    ensures { result ≡ date }
{
    Date::from_days_since_epoch(date.days_since_epoch()).unwrap()
}

/// Whether the first date comes no later than the second: their numbers tell.
pub fn in_order(first: Date, second: Date) -> bool
    ensures { IsTrue result ↔ (first ≤ℤ second) }
{
    first.days_since_epoch() <= second.days_since_epoch()
}

/// The number that a column of seconds stores for a time of day, without finer parts.
pub fn stored_second(time: Time) -> i32
    ensures { result ≡ pos (time / nanos_per_second) }
{
    time.second_of_day() as i32
}

/// The time of day that a column of seconds stores. None where the number is no second of a day.
pub fn time_of(stored: u32) -> Option<Time>
    ensures value { IfSome result (λ time. time / nanos_per_second ≡ stored) }
    ensures some { IsSome result ↔ (stored < 86_400) }
{
    Time::from_second_of_day(stored, 0)
}

/// The seconds since midnight in UTC of a column of 32-bit Unix seconds.
pub fn second_of_day_of(stored: i32) -> u32
    ensures value { pos result ≡ int_rem_euclid stored (pos 86_400) }
    ensures in_range { result < 86_400 }
{
    day_and_second(stored as i64).1
}

/// The day of the week that a column of small numbers stores, 0 for Monday. None where the number
/// is none.
pub fn weekday_of_number(stored: u8) -> Option<Weekday>
    ensures value { IfSome result (λ weekday. weekday_number weekday ≡ stored) }
    ensures some { IsSome result ↔ (stored < 7) }
{
    Weekday::from_number_days_from_monday(stored)
}

/// The day of the week of one of the seven bits of a mask, 0 for Monday.
pub fn weekday_of_bit(bit: u8) -> Weekday
    ensures { weekday_number result ≡ bit % 7 }
{
    Weekday::of_number(bit % 7)
}

/// The column that a refusal is about.
pub fn refused_column(refusal: ComponentRange) -> Part
    ensures { part_name result ≡ refusal.name }
{
    refusal.part()
}

/// The time of day that a column holds where nothing was stored: a quarter past eight.
pub fn time_by_default() -> Time
    ensures hour { hour_of result ≡ 8 }
    ensures minute { minute_of result ≡ 15 }
{
    Time::at_second_of_day(29_700, 0)
}

/// The time of day of an open end: the last whole second.
pub fn last_whole_second() -> Time
    ensures hour { hour_of result ≡ 23 }
    ensures minute { minute_of result ≡ 59 }
{
    Time::at_hms_nano(23, 59, 59, 0)
}

/// The date that a column holds where nothing was stored: 1 January 2000.
pub fn date_by_default() -> Date
    ensures { result ≡ day_of_ordinal_date (pos 2_000) 1 }
{
    Date::at_ordinal_date(2_000, 1)
}

/// The number that a column of nanoseconds stores for a time of day.
pub fn stored_nanosecond(time: Time) -> i64
    ensures { result ≡ pos time }
{
    time.nanosecond_of_day() as i64
}

/// A wall clock as two columns.
pub fn stored_wall_clock(at: PlainDateTime) -> (i32, i64)
    ensures { at ≡ result.0 *ℤ pos nanos_per_day +ℤ result.1 }
{
    (stored_date(at.date()), stored_nanosecond(at.time()))
}
