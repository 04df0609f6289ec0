//! How offsets print.
ghost use Rattle.std.specs.Prelude.{◌≡◌, unsigned_abs, ◌+◌, ◌<◌, ◌≤◌, ◌++◌, Some, length};
ghost use Rattle.std.specs.Fmt.{padded};
ghost use Rattle.calendar_values.specs.Digits.{text_capacity};
ghost use Rattle.calendar_values.specs.Texts.{offset_text};

use crate::UtcOffset;
use crate::text::Text;
use std::fmt;

impl UtcOffset {
    /// The text: `+` or `-`, then hours, minutes and seconds of two digits each, as `+01:02:03`.
    ///
    /// ```
    /// assert_eq!(rt; UtcOffset::from_hms(-3, -30, 0)?.text().as_str(), "-03:30:00");
    /// ```
    pub fn text(self) -> Text
        ensures text { result ≡ offset_text self }
        ensures length { length result ≡ 9 }
    {
        let mut text = Text::new();
        self.append_to(&mut text);
        text
    }

    /// Adds the text of the offset.
    pub fn append_to(self, text: &mut Text)
        requires { length text.old + 9 ≤ text_capacity }
        ensures text { text.new ≡ text.old ++ offset_text self }
        ensures length { length text.new ≡ length text.old + 9 }
    {
        let sign = if self.is_negative() { b'-' } else { b'+' };
        text.push_part(sign, self.hours.unsigned_abs());
        text.push_part(b':', self.minutes.unsigned_abs());
        text.push_part(b':', self.seconds.unsigned_abs());
    }
}

impl fmt::Display for UtcOffset {
    ghost output = { λ o. Some (offset_text o) };

    ghost styled_output = { λ o spec. Some (padded spec (offset_text o)) };

    fn fmt<W: fmt::Write>(&self, f: &mut fmt::Formatter<W>) -> fmt::Result {
        fmt::Display::fmt(&self.text(), f)
    }
}

impl fmt::Debug for UtcOffset {
    ghost debug_output = { λ o. Some (offset_text o) };

    fn fmt<W: fmt::Write>(&self, f: &mut fmt::Formatter<W>) -> fmt::Result {
        fmt::Debug::fmt(&self.text(), f)
    }
}
