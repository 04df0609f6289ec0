//! How date-times in UTC print.
ghost use Rattle.std.specs.Prelude.{◌≡◌, ◌≤◌, ◌+◌, ◌++◌, length, Some};
ghost use Rattle.std.specs.Fmt.{padded};
ghost use Rattle.calendar_values.specs.Digits.{text_capacity};
ghost use Rattle.utc_times.specs.Texts.{utc_text};

use crate::UtcDateTime;
use calendar_values::Text;
use std::fmt;

impl UtcDateTime {
    /// The text, as `1970-01-01 0:00:00.0 +00`: the date, a space, the time of day, and ` +00`.
    ///
    /// ```
    /// let at = UtcDateTime::from_unix_timestamp_nanos(1_577_710_979_480_300_002)?;
    /// assert_eq!(rt; at.text().as_str(), "2019-12-30 13:02:59.480300002 +00");
    /// ```
    pub fn text(self) -> Text
        ensures text { result ≡ utc_text self }
        ensures length { length result ≤ 36 }
    {
        let mut text = Text::new();
        self.append_to(&mut text);
        text
    }

    /// Adds the text of the date-time.
    #[tactic(auto, unfolding(crate::specs::Texts::utc_text, plain_times::specs::Texts::plain_text))]
    pub fn append_to(self, text: &mut Text)
        requires { length text.old + 36 ≤ text_capacity }
        ensures text { text.new ≡ text.old ++ utc_text self }
        ensures length { length text.new ≤ length text.old + 36 }
    {
        self.as_plain().append_to(text);
        text.push_bytes(b" +00");
    }
}

impl fmt::Display for UtcDateTime {
    ghost output = { λ i. Some (utc_text i) };

    ghost styled_output = { λ i spec. Some (padded spec (utc_text i)) };

    fn fmt<W: fmt::Write>(&self, f: &mut fmt::Formatter<W>) -> fmt::Result {
        fmt::Display::fmt(&self.text(), f)
    }
}

impl fmt::Debug for UtcDateTime {
    ghost debug_output = { λ i. Some (utc_text i) };

    fn fmt<W: fmt::Write>(&self, f: &mut fmt::Formatter<W>) -> fmt::Result {
        fmt::Debug::fmt(&self.text(), f)
    }
}
