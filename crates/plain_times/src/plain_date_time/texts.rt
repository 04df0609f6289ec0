//! How plain date-times print.
ghost use Rattle.std.specs.Prelude.{◌≡◌, ◌≤◌, ◌+◌, ◌++◌, length, Some};
ghost use Rattle.std.specs.Fmt.{padded};
ghost use Rattle.calendar_values.specs.Digits.{text_capacity};
ghost use Rattle.plain_times.specs.Texts.{plain_text};

use crate::PlainDateTime;
use calendar_values::Text;
use std::fmt;

impl PlainDateTime {
    /// The text, as `1970-01-01 0:00:00.0`: the text of the date, a space, and that of the time of
    /// day.
    ///
    /// ```
    /// let time = Time::from_hms_nano(13, 2, 59, 480_300_002)?;
    /// let at = PlainDateTime::new(Date::from_calendar_date(2019, Month::December, 30)?, time);
    /// assert_eq!(rt; at.text().as_str(), "2019-12-30 13:02:59.480300002");
    /// ```
    pub fn text(self) -> Text
        ensures text { result ≡ plain_text self }
        ensures length { length result ≤ 32 }
    {
        let mut text = Text::new();
        self.append_to(&mut text);
        text
    }

    /// Adds the text of the date-time.
    #[tactic(auto, unfolding(crate::specs::Texts::plain_text))]
    pub fn append_to(self, text: &mut Text)
        requires { length text.old + 32 ≤ text_capacity }
        ensures text { text.new ≡ text.old ++ plain_text self }
        ensures length { length text.new ≤ length text.old + 32 }
    {
        self.date().append_to(text);
        text.push(b' ');
        self.time().append_to(text);
    }
}

impl fmt::Display for PlainDateTime {
    ghost output = { λ w. Some (plain_text w) };

    ghost styled_output = { λ w spec. Some (padded spec (plain_text w)) };

    fn fmt<W: fmt::Write>(&self, f: &mut fmt::Formatter<W>) -> fmt::Result {
        fmt::Display::fmt(&self.text(), f)
    }
}

impl fmt::Debug for PlainDateTime {
    ghost debug_output = { λ w. Some (plain_text w) };

    fn fmt<W: fmt::Write>(&self, f: &mut fmt::Formatter<W>) -> fmt::Result {
        fmt::Debug::fmt(&self.text(), f)
    }
}
