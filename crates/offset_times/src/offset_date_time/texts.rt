//! How date-times with an offset print.
ghost use Rattle.std.specs.Prelude.{◌≡◌, ◌≤◌, ◌+◌, ◌++◌, length, Some};
ghost use Rattle.std.specs.Fmt.{padded};
ghost use Rattle.calendar_values.specs.Digits.{text_capacity};
ghost use Rattle.offset_times.specs.Texts.{offset_date_time_text};

use crate::OffsetDateTime;
use calendar_values::Text;
use std::fmt;

impl OffsetDateTime {
    /// The text, as `1970-01-01 0:00:00.0 +00:00:00`: the text of the date and of the time of day,
    /// a space, and that of the offset.
    ///
    /// ```
    /// let time = Time::from_hms_nano(13, 2, 59, 480_300_002)?;
    /// let date = Date::from_calendar_date(2019, Month::December, 30)?;
    /// let at = OffsetDateTime::new_in_offset(date, time, UtcOffset::from_hms(9, 0, 0)?);
    /// assert_eq!(rt; at.text().as_str(), "2019-12-30 13:02:59.480300002 +09:00:00");
    /// ```
    pub fn text(self) -> Text
        ensures text { result ≡ offset_date_time_text self }
        ensures length { length result ≤ 42 }
    {
        let mut text = Text::new();
        self.append_to(&mut text);
        text
    }

    /// Adds the text of the date-time.
    #[tactic(auto, unfolding(crate::specs::Texts::offset_date_time_text, plain_times::specs::Texts::plain_text))]
    pub fn append_to(self, text: &mut Text)
        requires { length text.old + 42 ≤ text_capacity }
        ensures text { text.new ≡ text.old ++ offset_date_time_text self }
        ensures length { length text.new ≤ length text.old + 42 }
    {
        self.date_time().append_to(text);
        text.push(b' ');
        self.offset().append_to(text);
    }
}

impl fmt::Display for OffsetDateTime {
    ghost output = { λ at. Some (offset_date_time_text at) };

    ghost styled_output = { λ at spec. Some (padded spec (offset_date_time_text at)) };

    fn fmt<W: fmt::Write>(&self, f: &mut fmt::Formatter<W>) -> fmt::Result {
        fmt::Display::fmt(&self.text(), f)
    }
}

impl fmt::Debug for OffsetDateTime {
    ghost debug_output = { λ at. Some (offset_date_time_text at) };

    fn fmt<W: fmt::Write>(&self, f: &mut fmt::Formatter<W>) -> fmt::Result {
        fmt::Debug::fmt(&self.text(), f)
    }
}
