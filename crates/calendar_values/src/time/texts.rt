//! How times of day print.
ghost use Rattle.std.specs.Prelude.{◌≡◌, ◌++◌, codes, ◌+◌, ◌-◌, ◌/◌, ◌<◌, ◌≤◌, ◌==◌, length, Some, codes};
ghost use Rattle.std.specs.Fmt.{padded};
ghost use Rattle.calendar_values.specs.Digits.{fraction_digits, text_capacity};
ghost use Rattle.calendar_values.specs.Texts.{time_text};

use crate::{Text, Time};
use std::fmt;

impl Time {
    /// The text of the time: the hour with no zero in front, the minute and the second with two
    /// digits each, and the fraction of the second without zeros at its end, but with at least one
    /// digit, as `9:05:00.25`.
    ///
    /// ```
    /// let time = Time::from_hms_milli(9, 4, 0, 250)?;
    /// assert_eq!(rt; time.text().as_str(), "9:04:00.25");
    /// ```
    pub fn text(self) -> Text
        ensures text { result ≡ time_text self }
        ensures length { length result ≤ 18 }
    {
        let mut text = Text::new();
        self.append_to(&mut text);
        text
    }

    /// Adds the text of the time.
    #[inline(always)]
    pub fn append_to(self, text: &mut Text)
        requires { length text.old + 18 ≤ text_capacity }
        ensures text { text.new ≡ text.old ++ time_text self }
        ensures length { length text.new ≤ length text.old + 18 }
    {
        text.push_short_decimal(self.hour);
        text.push_part(b':', self.minute);
        text.push_part(b':', self.second);
        push_fraction(text, self.nanosecond);
    }
}

// Adds a point and the digits of the fraction of the second.
#[inline(always)]
fn push_fraction(text: &mut Text, nanosecond: u32)
    requires { length text.old + 10 ≤ text_capacity }
    ensures text { text.new ≡ text.old ++ codes "." ++ fraction_digits 9 nanosecond }
    ensures length { length text.new ≤ length text.old + 10 }
{
    if nanosecond == 0 {
        text.push_bytes(b".0");
    } else {
        text.push(b'.');
        text.push_fraction(nanosecond);
    }
}

impl fmt::Display for Time {
    ghost output = { λ c. Some (time_text c) };

    ghost styled_output = { λ c spec. Some (padded spec (time_text c)) };

    fn fmt<W: fmt::Write>(&self, f: &mut fmt::Formatter<W>) -> fmt::Result {
        fmt::Display::fmt(&self.text(), f)
    }
}

impl fmt::Debug for Time {
    ghost debug_output = { λ c. Some (time_text c) };

    fn fmt<W: fmt::Write>(&self, f: &mut fmt::Formatter<W>) -> fmt::Result {
        fmt::Debug::fmt(&self.text(), f)
    }
}
