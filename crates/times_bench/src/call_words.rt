//! The words of a run.
ghost use Rattle.std.specs.Prelude.{◌≡◌, ◌≤◌, length, OnSome};
ghost use Rattle.times_bench.specs.CallWords.{entry_of, date_reads, clock_reads, read_of, call_with, shift_with, replace_with, date_part_with};
ghost use Rattle.times_bench.specs.CallWords.{clock_part_with, fraction_part_with, parse_duration, parse_time, parse_month, parse_date, call_of};
ghost use Rattle.times_bench.specs.Words.{arguments_of};

use super::numbers::{parse_i32, parse_i64, parse_u8, parse_u16, parse_u32};
use super::step_words::parse_offset;
use super::words::{cut_at, four_fields, is, one_field, three_fields, two_fields};
use calendar_values::{Date, Month, SignedDuration, Time};
use stamp_times::{Call, ClockRead, DateRead, Replace, Shift};

/// The call of a word: the name of a read, or a name, `=` and its arguments with `,` between.
#[tactic(auto, unfolding(crate::specs::CallWords::call_of_parts, crate::specs::CallWords::call_of))]
pub fn call_of(word: &[u8]) -> Option<Call>
    ensures value { result ≡ call_of word.now }
    ensures three_bytes { OnSome result (3 ≤ length word.now) }
{
    if let Some(call) = read_of(word) {
        return Some(call);
    }
    let (name, arguments) = cut_at(b'=', word);
    let (arguments, more) = cut_at(b'=', arguments?);
    if more.is_some() {
        return None;
    }
    call_with(name, arguments)
}

// The read of this name.
#[tactic(auto, unfolding(crate::specs::CallWords::read_of))]
fn read_of(name: &[u8]) -> Option<Call>
    ensures { result ≡ read_of name.now }
{
    if let Some(read) = date_read(name) {
        return Some(Call::ReadDate(read));
    }
    Some(Call::ReadClock(clock_read(name)?))
}

// What is next to a name.
macro_rules! entry_of {
    ($name:expr, $($text:literal => $value:expr,)*) => {{
        $(if is($name, $text) {
            return Some($value);
        })*
        None
    }};
}

// The read of the date that has this name.
fn date_read(name: &[u8]) -> Option<DateRead>
    ensures { result ≡ entry_of date_reads name.now }
{
    entry_of! {
        name,
        "date" => DateRead::Date,
        "year" => DateRead::Year,
        "month" => DateRead::Month,
        "day" => DateRead::Day,
        "ordinal" => DateRead::Ordinal,
        "iso_week" => DateRead::IsoWeek,
        "sunday_based_week" => DateRead::SundayWeek,
        "monday_based_week" => DateRead::MondayWeek,
        "to_calendar_date" => DateRead::CalendarDate,
        "to_ordinal_date" => DateRead::OrdinalDate,
        "to_iso_week_date" => DateRead::IsoWeekDate,
        "weekday" => DateRead::Weekday,
        "to_julian_day" => DateRead::JulianDay,
    }
}

// The read of the time of day that has this name.
fn clock_read(name: &[u8]) -> Option<ClockRead>
    ensures { result ≡ entry_of clock_reads name.now }
{
    entry_of! {
        name,
        "time" => ClockRead::Time,
        "as_hms" => ClockRead::Hms,
        "as_hms_milli" => ClockRead::HmsMilli,
        "as_hms_micro" => ClockRead::HmsMicro,
        "as_hms_nano" => ClockRead::HmsNano,
        "hour" => ClockRead::Hour,
        "minute" => ClockRead::Minute,
        "second" => ClockRead::Second,
        "millisecond" => ClockRead::Millisecond,
        "microsecond" => ClockRead::Microsecond,
        "nanosecond" => ClockRead::Nanosecond,
    }
}

// The call of this name with these arguments.
#[tactic(auto, unfolding(crate::specs::CallWords::call_with))]
fn call_with(name: &[u8], arguments: &[u8]) -> Option<Call>
    ensures { result ≡ call_with name.now (arguments_of arguments.now) }
{
    if let Some(shift) = shift_with(name, arguments) {
        return Some(Call::Shift(shift));
    }
    if let Some(replace) = replace_with(name, arguments) {
        return Some(Call::Replace(replace));
    }
    if is(name, "checked_to_offset") {
        return Some(Call::Local(parse_offset(one_field(b',', arguments)?)?));
    }
    None
}

// The sum or the difference of this name with these arguments.
#[tactic(auto, unfolding(crate::specs::CallWords::shift_with))]
fn shift_with(name: &[u8], arguments: &[u8]) -> Option<Shift>
    ensures { result ≡ shift_with name.now (arguments_of arguments.now) }
{
    if is(name, "checked_add") {
        return Some(Shift::CheckedAdd(parse_duration(arguments)?));
    }
    if is(name, "checked_sub") {
        return Some(Shift::CheckedSub(parse_duration(arguments)?));
    }
    if is(name, "saturating_add") {
        return Some(Shift::SaturatingAdd(parse_duration(arguments)?));
    }
    if is(name, "saturating_sub") {
        return Some(Shift::SaturatingSub(parse_duration(arguments)?));
    }
    None
}

// The replacement of this name with these arguments.
#[tactic(auto, unfolding(crate::specs::CallWords::replace_with))]
fn replace_with(name: &[u8], arguments: &[u8]) -> Option<Replace>
    ensures { result ≡ replace_with name.now (arguments_of arguments.now) }
{
    if is(name, "replace_time") {
        return Some(Replace::Time(parse_time(arguments)?));
    }
    if is(name, "replace_date") {
        return Some(Replace::Date(parse_date(arguments)?));
    }
    let number = one_field(b',', arguments)?;
    if let Some(replace) = date_part_with(name, number) {
        return Some(replace);
    }
    clock_part_with(name, number)
}

// The replacement of a part of the date, of this name, by a number.
#[tactic(auto, unfolding(crate::specs::CallWords::date_part_with))]
fn date_part_with(name: &[u8], number: &[u8]) -> Option<Replace>
    ensures { result ≡ date_part_with name.now number.now }
{
    if is(name, "replace_year") {
        return Some(Replace::Year(parse_i32(number)?));
    }
    if is(name, "replace_month") {
        return Some(Replace::Month(parse_month(number)?));
    }
    if is(name, "replace_day") {
        return Some(Replace::Day(parse_u8(number)?));
    }
    if is(name, "replace_ordinal") {
        return Some(Replace::Ordinal(parse_u16(number)?));
    }
    None
}

// The replacement of a part of the time of day, of this name, by a number.
#[tactic(auto, unfolding(crate::specs::CallWords::clock_part_with))]
fn clock_part_with(name: &[u8], number: &[u8]) -> Option<Replace>
    ensures { result ≡ clock_part_with name.now number.now }
{
    if is(name, "replace_hour") {
        return Some(Replace::Hour(parse_u8(number)?));
    }
    if is(name, "replace_minute") {
        return Some(Replace::Minute(parse_u8(number)?));
    }
    if is(name, "replace_second") {
        return Some(Replace::Second(parse_u8(number)?));
    }
    fraction_part_with(name, number)
}

// The replacement of a part of the fraction of a second, of this name, by a number.
#[tactic(auto, unfolding(crate::specs::CallWords::fraction_part_with))]
#[inline(always)]
fn fraction_part_with(name: &[u8], number: &[u8]) -> Option<Replace>
    ensures { result ≡ fraction_part_with name.now number.now }
{
    if is(name, "replace_millisecond") {
        return Some(Replace::Millisecond(parse_u16(number)?));
    }
    if is(name, "replace_microsecond") {
        return Some(Replace::Microsecond(parse_u32(number)?));
    }
    if is(name, "replace_nanosecond") {
        return Some(Replace::Nanosecond(parse_u32(number)?));
    }
    None
}

// The duration of seconds and nanoseconds: less than a second, of the same sign.
#[tactic(auto, unfolding(crate::specs::CallWords::parse_duration))]
fn parse_duration(arguments: &[u8]) -> Option<SignedDuration>
    ensures { result ≡ parse_duration (arguments_of arguments.now) }
{
    let (seconds, nanoseconds) = two_fields(b',', arguments)?;
    let seconds = parse_i64(seconds)?;
    let nanoseconds = parse_i32(nanoseconds)?;
    let has_two_signs = (seconds < 0) & (nanoseconds > 0) | (seconds > 0) & (nanoseconds < 0);
    if nanoseconds < -999_999_999 || nanoseconds > 999_999_999 || has_two_signs {
        return None;
    }
    Some(SignedDuration::new(seconds, nanoseconds))
}

// The time of day of an hour, a minute, a second and a nanosecond.
#[tactic(auto, unfolding(crate::specs::CallWords::parse_time))]
fn parse_time(arguments: &[u8]) -> Option<Time>
    ensures { result ≡ parse_time (arguments_of arguments.now) }
{
    let (hour, minute, second, nanosecond) = four_fields(b',', arguments)?;
    Time::from_hms_nano(
        parse_u8(hour)?,
        parse_u8(minute)?,
        parse_u8(second)?,
        parse_u32(nanosecond)?,
    )
    .ok()
}

// The date of a year, the number of a month and a day of the month.
#[tactic(auto, unfolding(crate::specs::CallWords::parse_date))]
fn parse_date(arguments: &[u8]) -> Option<Date>
    ensures { result ≡ parse_date (arguments_of arguments.now) }
{
    let (year, month, day) = three_fields(b',', arguments)?;
    Date::from_calendar_date(parse_i32(year)?, parse_month(month)?, parse_u8(day)?).ok()
}

// The month of a number, 1 for January.
#[tactic(auto, unfolding(crate::specs::CallWords::parse_month))]
fn parse_month(number: &[u8]) -> Option<Month>
    ensures { result ≡ parse_month number.now }
{
    Month::from_number(parse_u8(number)?).ok()
}
