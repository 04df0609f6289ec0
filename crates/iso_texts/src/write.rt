//! Texts written.
ghost use Rattle.std.specs.Prelude.{◌≡◌, ◌≤◌, ◌<◌, ◌+◌, [], ◌∷◌, ◌++◌, codes, length};
ghost use Rattle.calendar_values.specs.Digits.{last_digits, text_capacity};
ghost use Rattle.calendar_values.specs.Offsets.{IsOffset};
ghost use Rattle.calendar_values.specs.Range.{IsYear};
ghost use Rattle.stamp_times.specs.Texts.{fraction_text};
ghost use Rattle.iso_texts.specs.IsoForms.{sign};
ghost use Rattle.iso_texts.specs.IsoTexts.{iso_text, iso_year_text, iso_offset_text, seconds_text};

use calendar_values::Text;
use offset_times::OffsetDateTime;

/// The text of ISO 8601 of a date-time, by its own wall clock and offset. It is that of RFC 3339,
/// but a year below 0 or above 9999 has its sign and six digits, as `-004712-11-24T12:00:00Z`. An
/// offset that is no number of minutes has its seconds, as `+01:19:32`. Every date-time has a text,
/// which [`date_time_from_iso`](crate::date_time_from_iso) reads back.
///
/// ```
/// let at = iso_texts::date_time_from_iso(b"+012024-02-29 12:34:56.50z")?;
/// let text = iso_texts::date_time_to_iso(at);
/// assert_eq!(rt; text.as_str(), "+012024-02-29T12:34:56.5Z");
/// ```
pub fn date_time_to_iso(at: OffsetDateTime) -> Text
    ensures text { result ≡ iso_text at }
    ensures length { length result ≤ 41 }
{
    let (date, time, offset) = at.parts();
    let (year, month, day) = date.to_calendar_date();
    let (hour, minute, second, nanosecond) = time.as_hms_nano();
    let mut text = Text::new();
    push_year(&mut text, year);
    push_month_and_day(&mut text, u8::from(month), day);
    push_clock(&mut text, hour, minute, second);
    push_fraction(&mut text, nanosecond);
    push_offset(&mut text, offset.whole_seconds());
    text
}

// Adds the year: four digits, or its sign and six digits.
#[tactic(auto, unfolding(crate::specs::IsoTexts::iso_year_text))]
fn push_year(text: &mut Text, year: i32)
    requires year { IsYear year }
    requires room { length text.old + 7 ≤ text_capacity }
    ensures value { text.new ≡ text.old ++ iso_year_text year }
    ensures length { length text.new ≤ length text.old + 7 }
{
    if year < 0 || year > 9_999 {
        push_six_digits(text, year < 0, year.unsigned_abs());
    } else {
        text.push_four_digits(year.unsigned_abs());
    }
}

// Adds a sign and six digits.
fn push_six_digits(text: &mut Text, is_below: bool, number: u32)
    requires number { number ≤ 999_999 }
    requires room { length text.old + 7 ≤ text_capacity }
    ensures value { text.new ≡ text.old ++ sign is_below ++ last_digits 6 number }
    ensures length { length text.new ≡ length text.old + 7 }
{
    text.push_part(sign(is_below), (number / 10_000) as u8);
    text.push_four_digits(number);
}

// The byte of a sign.
fn sign(is_below: bool) -> u8
    ensures value { result ∷ [] ≡ sign is_below }
    ensures ascii { result < 128 }
{
    if is_below { b'-' } else { b'+' }
}

// Adds the month and the day.
fn push_month_and_day(text: &mut Text, month: u8, day: u8)
    requires { length text.old + 6 ≤ text_capacity }
    ensures value { text.new ≡ text.old
        ++ (codes "-" ++ last_digits 2 month ++ codes "-" ++ last_digits 2 day) }
    ensures length { length text.new ≡ length text.old + 6 }
{
    text.push_part(b'-', month);
    text.push_part(b'-', day);
}

// Adds a `T` and the time of day to the second.
fn push_clock(text: &mut Text, hour: u8, minute: u8, second: u8)
    requires { length text.old + 9 ≤ text_capacity }
    ensures value { text.new ≡ text.old
        ++ (codes "T" ++ last_digits 2 hour ++ codes ":" ++ last_digits 2 minute
        ++ codes ":" ++ last_digits 2 second) }
    ensures length { length text.new ≡ length text.old + 9 }
{
    text.push_part(b'T', hour);
    text.push_part(b':', minute);
    text.push_part(b':', second);
}

// Adds the fraction, if there is one.
#[tactic(auto, unfolding(stamp_times::specs::Texts::fraction_text))]
fn push_fraction(text: &mut Text, nanosecond: u32)
    requires { length text.old + 10 ≤ text_capacity }
    ensures value { text.new ≡ text.old ++ fraction_text nanosecond }
    ensures length { length text.new ≤ length text.old + 10 }
{
    if nanosecond != 0 {
        text.push(b'.');
        text.push_fraction(nanosecond);
    }
}

// Adds the offset: `Z`, or its sign, its hours and its minutes, and its seconds if there are any.
#[tactic(auto, unfolding(crate::specs::IsoTexts::iso_offset_text))]
fn push_offset(text: &mut Text, offset: i32)
    requires offset { IsOffset offset }
    requires room { length text.old + 9 ≤ text_capacity }
    ensures value { text.new ≡ text.old ++ iso_offset_text offset }
    ensures length { length text.new ≤ length text.old + 9 }
{
    let number = offset.unsigned_abs();
    if number == 0 {
        text.push(b'Z');
        return;
    }
    text.push_part(sign(offset < 0), (number / 3_600) as u8);
    text.push_part(b':', (number / 60 % 60) as u8);
    push_seconds(text, (number % 60) as u8);
}

// Adds the seconds of an offset, if there are any.
fn push_seconds(text: &mut Text, second: u8)
    requires { length text.old + 3 ≤ text_capacity }
    ensures value { text.new ≡ text.old ++ seconds_text second }
    ensures length { length text.new ≤ length text.old + 3 }
{
    if second != 0 {
        text.push_part(b':', second);
    }
}
