//! The texts of the replies of a run, and of what a chain holds.
ghost use Rattle.std.specs.Prelude.{◌≡◌, ◌≤◌, ◌+◌, length, ◌++◌, codes, decimal, Some};
ghost use Rattle.std.specs.Fmt.{signed_decimal};
ghost use Rattle.calendar_values.specs.Texts.{date_text, time_text};
ghost use Rattle.stamp_times.specs.Counter.{reply, reply_of_instant, local_reply, instant_after};
ghost use Rattle.times_bench.specs.ReplyTexts.{calendar_date_text, ordinal_date_text, iso_week_date_text};
ghost use Rattle.times_bench.specs.ReplyTexts.{refused_text, date_part_text, hms_text, clock_part_text, reply_text, held_text};

use calendar_values::{ComponentRange, Date, Month, Text, Time, Weekday};
use offset_times::OffsetDateTime;
use stamp_times::{Call, ClockPart, DatePart, Held, Moment};
use utc_times::UtcDateTime;

/// Adds what a call replies to an empty text: its parts, with one space between. Gives where the
/// call leads.
#[tactic(auto, unfolding(crate::specs::ReplyTexts::reply_text))]
pub fn push_reply(text: &mut Text, at: UtcDateTime, call: Call) -> UtcDateTime
    requires { length text.old ≡ 0 }
    ensures value { text.new ≡ text.old ++ reply_text (reply at call) }
    ensures next { result ≡ instant_after at call }
    ensures length { length text.new ≤ 43 }
{
    match call {
        Call::ReadDate(read) => push_date_part(text, at.date_part(read)),
        Call::ReadClock(read) => push_clock_part(text, at.clock_part(read)),
        Call::Shift(shift) => match at.shift(shift) {
            Some(next) => {
                push_now(text, next);
                return next;
            }
            None => text.push_bytes(b"refused"),
        },
        Call::Replace(replace) => match at.replace(replace) {
            Ok(next) => {
                push_now(text, next);
                return next;
            }
            Err(refusal) => push_refused(text, refusal),
        },
        Call::Local(offset) => match at.at_offset(offset) {
            Some(shown) => push_local(text, shown),
            None => text.push_bytes(b"refused"),
        },
    }
    at
}

// Adds the date and the time of day in UTC.
#[tactic(auto, unfolding(crate::specs::ReplyTexts::reply_text))]
fn push_now(text: &mut Text, at: UtcDateTime)
    requires { length text.old ≡ 0 }
    ensures value { text.new ≡ text.old ++ reply_text (reply_of_instant at) }
    ensures length { length text.new ≤ 32 }
{
    let (date, time) = at.parts();
    push_date_time(text, date, time);
}

// Adds what clocks at an offset show.
#[tactic(auto, unfolding(crate::specs::ReplyTexts::reply_text))]
fn push_local(text: &mut Text, shown: OffsetDateTime)
    requires { length text.old ≡ 0 }
    ensures value { text.new ≡ text.old ++ reply_text (local_reply shown.offset (Some shown.wall)) }
    ensures length { length text.new ≤ 43 }
{
    let (date, time, offset) = shown.parts();
    push_date_time(text, date, time);
    text.push(b' ');
    offset.append_to(text);
}

/// `refused`, and the name of the part.
pub fn refused_text(refusal: ComponentRange) -> Text
    ensures text { result ≡ refused_text refusal }
    ensures length { length result ≤ 22 }
{
    let mut text = Text::new();
    push_refused(&mut text, refusal);
    text
}

// Adds `refused`, and the name of the part.
fn push_refused(text: &mut Text, refusal: ComponentRange)
    requires { length text.old ≡ 0 }
    ensures value { text.new ≡ text.old ++ refused_text refusal }
    ensures length { length text.new ≤ 22 }
{
    text.push_bytes(b"refused ");
    text.push_bytes(refusal.name().as_bytes());
}

/// Adds the type that holds an instant, and the text of the value, to an empty text.
#[tactic(auto, unfolding(crate::specs::ReplyTexts::held_text))]
pub fn push_held(text: &mut Text, held: Held)
    requires { length text.old ≡ 0 }
    ensures value { text.new ≡ text.old ++ held_text held }
    ensures length { length text.new ≤ 49 }
{
    match held {
        Held::Stamp(at) => {
            text.push_bytes(b"stamp ");
            at.append_to(text);
        }
        Held::Utc(at) => {
            text.push_bytes(b"utc ");
            at.append_to(text);
        }
        Held::Offset(at) => {
            text.push_bytes(b"offset ");
            at.append_to(text);
        }
    }
}

/// Adds a number in decimal digits, with `-` before it if it is below 0.
pub fn push_signed(text: &mut Text, number: i32)
    requires { length text.old ≤ 40 }
    ensures value { text.new ≡ text.old ++ signed_decimal number }
    ensures length { length text.new ≤ length text.old + 21 }
{
    if number < 0 {
        text.push(b'-');
    }
    text.push_decimal(u64::from(number.unsigned_abs()));
}

// Adds a part of the date.
#[tactic(auto, unfolding(crate::specs::ReplyTexts::date_part_text))]
fn push_date_part(text: &mut Text, part: DatePart)
    requires { length text.old ≡ 0 }
    ensures value { text.new ≡ text.old ++ date_part_text part }
    ensures length { length text.new ≤ 43 }
{
    match part {
        DatePart::Date(date) => date.append_to(text),
        DatePart::Year(year) => push_signed(text, year),
        DatePart::Month(month) => text.push_bytes(month.text().as_bytes()),
        DatePart::Day(day) => push_number(text, u32::from(day)),
        DatePart::Ordinal(ordinal) => push_number(text, u32::from(ordinal)),
        DatePart::IsoWeek(week) => push_number(text, u32::from(week)),
        DatePart::SundayWeek(week) => push_number(text, u32::from(week)),
        DatePart::MondayWeek(week) => push_number(text, u32::from(week)),
        DatePart::CalendarDate(parts) => {
            let (year, month, day) = parts;
            push_calendar_date(text, year, month, day);
        }
        DatePart::OrdinalDate(parts) => {
            let (year, ordinal) = parts;
            push_ordinal_date(text, year, ordinal);
        }
        DatePart::IsoWeekDate(parts) => {
            let (year, week, weekday) = parts;
            push_iso_week_date(text, year, week, weekday);
        }
        DatePart::Weekday(weekday) => text.push_bytes(weekday.text().as_bytes()),
        DatePart::JulianDay(julian_day) => push_signed(text, julian_day),
    }
}

// Adds a year, a month and a day of the month, with one space between.
#[inline(always)]
fn push_calendar_date(text: &mut Text, year: i32, month: Month, day: u8)
    requires { length text.old ≡ 0 }
    ensures value { text.new ≡ text.old ++ calendar_date_text year month day }
    ensures length { length text.new ≤ 43 }
{
    push_signed(text, year);
    text.push(b' ');
    text.push_bytes(month.text().as_bytes());
    push_next(text, u32::from(day));
}

// Adds a year and a day of the year, with one space between.
#[inline(always)]
fn push_ordinal_date(text: &mut Text, year: i32, ordinal: u16)
    requires { length text.old ≡ 0 }
    ensures value { text.new ≡ text.old ++ ordinal_date_text year ordinal }
    ensures length { length text.new ≤ 43 }
{
    push_signed(text, year);
    push_next(text, u32::from(ordinal));
}

// Adds a year, a week and a day of the week, with one space between.
#[inline(always)]
fn push_iso_week_date(text: &mut Text, year: i32, week: u8, weekday: Weekday)
    requires { length text.old ≡ 0 }
    ensures value { text.new ≡ text.old ++ iso_week_date_text year week weekday }
    ensures length { length text.new ≤ 43 }
{
    push_signed(text, year);
    push_next(text, u32::from(week));
    text.push(b' ');
    text.push_bytes(weekday.text().as_bytes());
}

// Adds a part of the time of day.
#[tactic(auto, unfolding(crate::specs::ReplyTexts::clock_part_text))]
fn push_clock_part(text: &mut Text, part: ClockPart)
    requires { length text.old ≡ 0 }
    ensures value { text.new ≡ text.old ++ clock_part_text part }
    ensures length { length text.new ≤ 43 }
{
    match part {
        ClockPart::Time(time) => time.append_to(text),
        ClockPart::Hms(parts) => {
            let (hour, minute, second) = parts;
            push_hms(text, hour, minute, second);
        }
        ClockPart::HmsMilli(parts) => {
            let (hour, minute, second, millisecond) = parts;
            push_hms(text, hour, minute, second);
            push_next(text, u32::from(millisecond));
        }
        ClockPart::HmsMicro(parts) => {
            let (hour, minute, second, microsecond) = parts;
            push_hms(text, hour, minute, second);
            push_next(text, microsecond);
        }
        ClockPart::HmsNano(parts) => {
            let (hour, minute, second, nanosecond) = parts;
            push_hms(text, hour, minute, second);
            push_next(text, nanosecond);
        }
        ClockPart::Hour(hour) => push_number(text, u32::from(hour)),
        ClockPart::Minute(minute) => push_number(text, u32::from(minute)),
        ClockPart::Second(second) => push_number(text, u32::from(second)),
        ClockPart::Millisecond(millisecond) => push_number(text, u32::from(millisecond)),
        ClockPart::Microsecond(microsecond) => push_number(text, microsecond),
        ClockPart::Nanosecond(nanosecond) => push_number(text, nanosecond),
    }
}

// Adds a date, a space and a time of day.
fn push_date_time(text: &mut Text, date: Date, time: Time)
    requires { length text.old ≡ 0 }
    ensures value { text.new ≡ text.old ++ (date_text date ++ codes " " ++ time_text time) }
    ensures length { length text.new ≤ 32 }
{
    date.append_to(text);
    text.push(b' ');
    time.append_to(text);
}

// Adds an hour, a minute and a second, with one space between.
fn push_hms(text: &mut Text, hour: u8, minute: u8, second: u8)
    requires { length text.old ≡ 0 }
    ensures value { text.new ≡ text.old ++ hms_text hour minute second }
    ensures length { length text.new ≤ 32 }
{
    push_number(text, u32::from(hour));
    push_next(text, u32::from(minute));
    push_next(text, u32::from(second));
}

// Adds a space and a number.
fn push_next(text: &mut Text, number: u32)
    requires { length text.old ≤ 43 }
    ensures value { text.new ≡ text.old ++ (codes " " ++ decimal number) }
    ensures length { length text.new ≤ length text.old + 11 }
{
    text.push(b' ');
    push_number(text, number);
}

// Adds a number in decimal digits. Those of one or two digits are the common ones.
#[tactic(auto, using(crate::proofs::ReplyLemmas::short_numbers))]
fn push_number(text: &mut Text, number: u32)
    requires { length text.old ≤ 44 }
    ensures value { text.new ≡ text.old ++ decimal number }
    ensures length { length text.new ≤ length text.old + 10 }
{
    if number < 10 {
        text.push(b'0' + number as u8);
    } else if number < 100 {
        text.push_bytes(&[b'0' + (number / 10) as u8, b'0' + (number % 10) as u8]);
    } else {
        text.push_decimal(u64::from(number));
    }
}
