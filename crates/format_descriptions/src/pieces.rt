//! The text of each component.
ghost use Rattle.std.specs.Prelude.{◌≡◌, ◌==◌, ◌≤◌, ◌<◌, ◌/◌, ◌%◌, ◌++◌, length, unsigned_abs, IsAscii, false};
ghost use Rattle.std.specs.Bool.{OnTrue, OnFalse};
ghost use Rattle.calendar_values.specs.Range.{IsYear};
ghost use Rattle.format_descriptions.specs.declared.modifiers.YearBase.TheVariants.{Calendar};
ghost use Rattle.format_descriptions.specs.Written.{year_by, year_sign, year_text, century_text, six_text, week_by, weekday_number_by};
ghost use Rattle.format_descriptions.specs.Modifiers.{is_partial};
ghost use Rattle.format_descriptions.specs.Written.{hour_12, offset_hour_text, component_text};
ghost use Rattle.format_descriptions.specs.Written.{offset_word_text, is_year_since, year_since_text};

use crate::clock_fractions::{hour_fraction, minute_fraction};
use crate::names::{month_word, period_word, weekday_word};
use crate::numbers::{
    put_century_digits, put_four, put_six_digits, put_subsecond, put_three, put_two,
};
use crate::unix::{put_unix, unix_count};
use crate::{Component, Padding, Sign, UtcWord, WeekRule, WeekStart, WeekdayCount, YearBase};
use calendar_values::{Date, Text, Time, UtcOffset};

// Adds the text of a component of a date, a time of day and an offset, and returns whether it did. It does not where the
// component cannot write the value.
#[tactic(auto, unfolding(crate::specs::Written::component_text))]
#[inline(always)]
pub(crate) fn put_component(
    component: Component,
    date: Date,
    time: Time,
    offset: UtcOffset,
    text: &mut Text,
) -> bool
    requires room { length text.old ≤ 32 }
    ensures text { OnTrue result
        (text.new ≡ text.old ++ component_text component date time offset) }
    ensures none { OnFalse result (¬ IsAscii (component_text component date time offset)) }
    ensures unchanged { OnFalse result (text.new ≡ text.old) }
{
    match component {
        Component::OffsetWord(word, _) => put_offset_word(word, offset, text),
        Component::YearSince(first) => put_year_since(first, date, text),
        _ => {
            put_number(component, date, time, offset, text);
            true
        }
    }
}

// Adds the text of a component of a date, a time of day and an offset, if each value has one.
#[tactic(auto, unfolding(crate::specs::Written::component_text))]
#[inline(always)]
fn put_number(component: Component, date: Date, time: Time, offset: UtcOffset, text: &mut Text)
    requires whole { is_partial component ≡ false }
    requires room { length text.old ≤ 32 }
    ensures { text.new ≡ text.old ++ component_text component date time offset }
{
    match component {
        Component::Year(base, sign, padding, _) => {
            put_year(sign, padding, year_by(base, date), text)
        }
        Component::YearCentury(base, sign, padding, _) => {
            put_century(sign, padding, year_by(base, date), text)
        }
        Component::YearLastTwo(base, padding) => {
            put_two(
                padding,
                (year_by(base, date).unsigned_abs() % 100) as u8,
                text,
            )
        }
        Component::Month(padding) => put_two(padding, u8::from(date.month()), text),
        Component::MonthName(form, _) => {
            text.push_bytes(month_word(form, u8::from(date.month())))
        }
        Component::Day(padding) => put_two(padding, date.day(), text),
        Component::Ordinal(padding) => put_three(padding, date.ordinal(), text),
        Component::WeekdayName(form, _) | Component::IgnoreWeekday(form, _) => {
            text.push_bytes(weekday_word(form, date.weekday().number_days_from_monday()))
        }
        Component::WeekdayNumber(start, count) => {
            let weekday = date.weekday().number_days_from_monday();
            text.push_decimal(weekday_number_by(start, count, weekday) as u64);
        }
        Component::WeekNumber(rule, padding) => put_two(padding, week_by(rule, date), text),
        Component::Hour(padding) => put_two(padding, time.hour(), text),
        Component::Hour12(padding) => put_two(padding, hour_12(time.hour()), text),
        Component::Period(case, _) => text.push_bytes(period_word(case, time.hour())),
        Component::Minute(padding) => put_two(padding, time.minute(), text),
        Component::Second(padding) => put_two(padding, time.second(), text),
        Component::Subsecond(digits) => put_subsecond(digits, time.nanosecond(), text),
        Component::OffsetHour(sign, padding) => put_offset_hour(sign, padding, offset, text),
        Component::OffsetMinute(padding) => put_two(padding, offset_numbers(offset).1, text),
        Component::OffsetSecond(padding) => put_two(padding, offset_numbers(offset).2, text),
        Component::UnixTimestamp(precision, sign) => {
            put_unix(sign, unix_count(precision, date, time, offset), text)
        }
        Component::YearSix(base) => put_six(year_by(base, date), text),
        Component::HourFraction(digits) => put_subsecond(digits, hour_fraction(time), text),
        Component::MinuteFraction(digits) => put_subsecond(digits, minute_fraction(time), text),
        Component::Ignore(_)
        | Component::End
        | Component::IgnoreDigits
        | Component::OffsetWord(_, _)
        | Component::YearSince(_) => (),
    }
}

// Adds a word for UTC, and returns whether it did: no other offset has one.
#[tactic(auto, unfolding(crate::specs::Written::offset_word_text))]
fn put_offset_word(word: UtcWord, offset: UtcOffset, text: &mut Text) -> bool
    requires room { length text.old ≤ 32 }
    ensures text { OnTrue result (text.new ≡ text.old ++ offset_word_text word offset) }
    ensures none { OnFalse result (¬ IsAscii (offset_word_text word offset)) }
    ensures unchanged { OnFalse result (text.new ≡ text.old) }
{
    if !is_zero(offset) {
        return false;
    }
    text.push_bytes(word.letters());
    true
}

// Whether the offset is 0.
fn is_zero(offset: UtcOffset) -> bool
    ensures { result ≡ (unsigned_abs offset == 0) }
{
    offset.whole_seconds().unsigned_abs() == 0
}

// Adds the last two digits of a year of the hundred years from this one on, and returns whether it did: no other year has
// them.
#[tactic(auto, unfolding(crate::specs::Written::year_since_text))]
fn put_year_since(first: u16, date: Date, text: &mut Text) -> bool
    requires room { length text.old ≤ 32 }
    ensures text { OnTrue result
        (text.new ≡ text.old ++ year_since_text first (year_by Calendar date)) }
    ensures none { OnFalse result (¬ IsAscii (year_since_text first (year_by Calendar date))) }
    ensures unchanged { OnFalse result (text.new ≡ text.old) }
{
    let year = date.year();
    if !is_year_since(first, year) {
        return false;
    }
    put_two(Padding::Zero, (year.unsigned_abs() % 100) as u8, text);
    true
}

// Whether the year is one of the hundred years from this one on.
fn is_year_since(first: u16, year: i32) -> bool
    ensures { result ≡ is_year_since first year }
{
    let first = first as i32;
    (year >= first) & (year < first + 100)
}

// The year of the calendar, or that of the ISO week.
fn year_by(base: YearBase, date: Date) -> i32
    ensures value { result ≡ year_by base date }
    ensures in_range { IsYear result }
{
    match base {
        YearBase::Calendar => date.year(),
        YearBase::IsoWeek => date.to_iso_week_date().0,
    }
}

// Adds the sign of a year.
fn put_year_sign(sign: Sign, year: i32, text: &mut Text)
    requires room { length text.old ≤ 32 }
    ensures text { text.new ≡ text.old ++ year_sign sign year }
    ensures length { length text.new ≤ 33 }
{
    if year < 0 {
        text.push(b'-');
    } else if sign.is_mandatory() | (year > 9_999) {
        text.push(b'+');
    }
}

// Adds the year with its sign.
#[tactic(auto, unfolding(crate::specs::Written::year_text), using(std::proofs::Common::append_assoc))]
fn put_year(sign: Sign, padding: Padding, year: i32, text: &mut Text)
    requires year { IsYear year }
    requires room { length text.old ≤ 32 }
    ensures { text.new ≡ text.old ++ year_text sign padding year }
{
    put_year_sign(sign, year, text);
    put_four(padding, year.unsigned_abs(), text);
}

// Adds the sign of the year, and its six digits.
#[tactic(auto, unfolding(crate::specs::Written::six_text), using(std::proofs::Common::append_assoc))]
#[inline(never)]
fn put_six(year: i32, text: &mut Text)
    requires year { IsYear year }
    requires room { length text.old ≤ 32 }
    ensures { text.new ≡ text.old ++ six_text year }
{
    put_year_sign(Sign::Mandatory, year, text);
    put_six_digits(year.unsigned_abs(), text);
}

// Adds the sign of the year, and the year without its last two digits.
#[tactic(auto, unfolding(crate::specs::Written::century_text), using(std::proofs::Common::append_assoc))]
#[inline(never)]
fn put_century(sign: Sign, padding: Padding, year: i32, text: &mut Text)
    requires year { IsYear year }
    requires room { length text.old ≤ 32 }
    ensures { text.new ≡ text.old ++ century_text sign padding year }
{
    put_year_sign(sign, year, text);
    put_century_digits(padding, year.unsigned_abs() / 100, text);
}

// The week of a day by each rule.
#[inline(never)]
fn week_by(rule: WeekRule, date: Date) -> u8
    ensures value { result ≡ week_by rule date }
    ensures in_range { result < 100 }
{
    match rule {
        WeekRule::Iso => date.iso_week(),
        WeekRule::Sunday => date.sunday_based_week(),
        WeekRule::Monday => date.monday_based_week(),
    }
}

// The number of a day of the week from the first day of the week on.
#[tactic(auto, unfolding(crate::specs::Written::weekday_number_by))]
fn weekday_number_by(start: WeekStart, count: WeekdayCount, weekday: u8) -> u8
    requires { weekday < 7 }
    ensures { result ≡ weekday_number_by start count weekday }
{
    (weekday + 7 - start.weekday()) % 7 + count.first()
}

// The hour on a clock of 12 hours.
#[tactic(auto, unfolding(crate::specs::Written::hour_12))]
pub(crate) fn hour_12(hour: u8) -> u8
    ensures value { result ≡ hour_12 hour }
    ensures below { result < 13 }
{
    let past = hour % 12;
    if past == 0 { 12 } else { past }
}

// Adds the sign and the hours of an offset.
#[tactic(auto, unfolding(crate::specs::Written::offset_hour_text), using(std::proofs::Common::append_assoc))]
fn put_offset_hour(sign: Sign, padding: Padding, offset: UtcOffset, text: &mut Text)
    requires room { length text.old ≤ 32 }
    ensures { text.new ≡ text.old ++ offset_hour_text sign padding offset }
{
    if offset.is_negative() {
        text.push(b'-');
    } else if sign.is_mandatory() {
        text.push(b'+');
    }
    put_two(padding, offset_numbers(offset).0, text);
}

// The hours, the minutes and the seconds of an offset, without its sign.
fn offset_numbers(offset: UtcOffset) -> (u8, u8, u8)
    ensures value { let n = unsigned_abs offset in result ≡ (n / 3_600, n / 60 % 60, n % 60) }
    ensures below { (result.0 < 100) × (result.1 < 100) × (result.2 < 100) }
{
    let (hours, minutes, seconds) = offset.as_hms();
    (
        hours.unsigned_abs(),
        minutes.unsigned_abs(),
        seconds.unsigned_abs(),
    )
}
