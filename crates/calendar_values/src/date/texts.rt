//! How dates print.
ghost use Rattle.std.specs.Prelude.{◌≡◌, ◌+◌, ◌≤◌, ◌<◌, ◌/◌, unsigned_abs, length, Some, ◌++◌};
ghost use Rattle.std.specs.Fmt.{padded};
ghost use Rattle.calendar_values.specs.Range.{IsYear};
ghost use Rattle.calendar_values.specs.Digits.{text_capacity};
ghost use Rattle.calendar_values.specs.Texts.{year_digits, year_text, date_text};

use crate::{Date, Text};
use std::fmt;

impl Date {
    /// The text, as `1970-01-01`: a year of at least four digits, with `-` before a negative one
    /// and `+` before one above 9999, a month and a day of two digits each (ISO 8601).
    ///
    /// ```
    /// let date = Date::from_calendar_date(2024, Month::March, 9)?;
    /// assert_eq!(rt; date.text().as_str(), "2024-03-09");
    /// ```
    pub fn text(self) -> Text
        ensures text { result ≡ date_text self }
        ensures length { length result ≤ 13 }
    {
        let mut text = Text::new();
        self.append_to(&mut text);
        text
    }

    /// Adds the text of the date.
    #[inline(always)]
    #[tactic(auto, unfolding(crate::specs::Texts::date_text))]
    pub fn append_to(self, text: &mut Text)
        requires { length text.old + 13 ≤ text_capacity }
        ensures text { text.new ≡ text.old ++ date_text self }
        ensures length { length text.new ≤ length text.old + 13 }
    {
        let (month, day) = self.month_day();
        push_year(text, self.year());
        text.push_part(b'-', u8::from(month));
        text.push_part(b'-', day);
    }
}

// Adds the year with its sign, as `-0005`.
#[inline(always)]
fn push_year(text: &mut Text, year: i32)
    requires year { IsYear year }
    requires room { length text.old + 7 ≤ text_capacity }
    ensures text { text.new ≡ text.old ++ year_text year }
    ensures length { length text.new ≤ length text.old + 7 }
{
    if year < 0 {
        text.push(b'-');
    } else if year > 9_999 {
        text.push(b'+');
    }
    push_year_digits(text, year.unsigned_abs());
}

// Adds the digits of a year that is not negative, at least four of them.
fn push_year_digits(text: &mut Text, year: u32)
    requires year { year < 1_000_000 }
    requires room { length text.old + 6 ≤ text_capacity }
    ensures text { text.new ≡ text.old ++ year_digits year }
    ensures length { length text.new ≤ length text.old + 6 }
{
    if year < 10_000 {
        text.push_four_digits(year);
    } else {
        text.push_short_decimal((year / 10_000) as u8);
        text.push_four_digits(year);
    }
}

impl fmt::Display for Date {
    ghost output = { λ n. Some (date_text n) };

    ghost styled_output = { λ n spec. Some (padded spec (date_text n)) };

    fn fmt<W: fmt::Write>(&self, f: &mut fmt::Formatter<W>) -> fmt::Result {
        fmt::Display::fmt(&self.text(), f)
    }
}

impl fmt::Debug for Date {
    ghost debug_output = { λ n. Some (date_text n) };

    fn fmt<W: fmt::Write>(&self, f: &mut fmt::Formatter<W>) -> fmt::Result {
        fmt::Debug::fmt(&self.text(), f)
    }
}
