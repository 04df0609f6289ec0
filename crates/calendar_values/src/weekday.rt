//! The days of the week.
ghost use Rattle.std.specs.Prelude.{◌≡◌, ◌<◌, ◌≤◌, ◌↔◌, Some, IsSome, IfSome, length, IsAscii};
ghost use Rattle.std.specs.Fmt.{padded};

use crate::Text;
use std::fmt;

/// A day of the week.
#[derive(Clone, Copy, PartialEq, Eq)]
pub enum Weekday {
    Monday,
    Tuesday,
    Wednesday,
    Thursday,
    Friday,
    Saturday,
    Sunday,
}

impl Weekday {
    ghost use Rattle.calendar_values.specs.Weekday.{weekday_number, weekday_name};

    /// The number of days from Monday: 0 for Monday to 6 for Sunday.
    ///
    /// ```
    /// assert_eq!(rt; Weekday::Monday.number_days_from_monday(), 0);
    /// assert_eq!(rt; Weekday::Sunday.number_days_from_monday(), 6);
    /// ```
    pub fn number_days_from_monday(self) -> u8
        ensures value { result ≡ weekday_number self }
        ensures in_range { result < 7 }
    {
        self as u8
    }

    /// The day of the week at a number of days after a Monday, 0 for Monday to 6 for Sunday. None
    /// above 6.
    ///
    /// ```
    /// assert_eq!(rt; Weekday::from_number_days_from_monday(2), Some(Weekday::Wednesday));
    /// assert_eq!(rt; Weekday::from_number_days_from_monday(7), None);
    /// ```
    pub fn from_number_days_from_monday(number: u8) -> Option<Weekday>
        ensures accepted { IsSome result ↔ (number < 7) }
        ensures value { IfSome result (λ weekday. weekday_number weekday ≡ number) }
    {
        if number > 6 {
            return None;
        }
        Some(Weekday::of_number(number))
    }

    /// As [`Weekday::from_number_days_from_monday`], of a number below 7. The caller proves that it
    /// is.
    pub fn of_number(number: u8) -> Weekday
        requires { number < 7 }
        ensures { weekday_number result ≡ number }
    {
        match number {
            0 => Weekday::Monday,
            1 => Weekday::Tuesday,
            2 => Weekday::Wednesday,
            3 => Weekday::Thursday,
            4 => Weekday::Friday,
            5 => Weekday::Saturday,
            _ => Weekday::Sunday,
        }
    }

    /// The English name.
    ///
    /// ```
    /// assert_eq!(rt; Weekday::Friday.text().as_str(), "Friday");
    /// ```
    pub fn text(self) -> Text
        ensures text { result ≡ weekday_name self }
        ensures length { length result ≤ 9 }
    {
        let mut text = Text::new();
        text.push_bytes(self.name());
        text
    }

    fn name(self) -> &'static [u8]
        ensures name { result.now ≡ weekday_name self }
        ensures length { length result.now ≤ 9 }
        ensures ascii { IsAscii result.now }
    {
        match self {
            Weekday::Monday => b"Monday",
            Weekday::Tuesday => b"Tuesday",
            Weekday::Wednesday => b"Wednesday",
            Weekday::Thursday => b"Thursday",
            Weekday::Friday => b"Friday",
            Weekday::Saturday => b"Saturday",
            Weekday::Sunday => b"Sunday",
        }
    }
}

impl fmt::Display for Weekday {
    ghost use Rattle.calendar_values.specs.Weekday.{weekday_name};

    ghost output = { λ weekday. Some (weekday_name weekday) };

    ghost styled_output = { λ weekday spec. Some (padded spec (weekday_name weekday)) };

    fn fmt<W: fmt::Write>(&self, f: &mut fmt::Formatter<W>) -> fmt::Result {
        fmt::Display::fmt(&self.text(), f)
    }
}

impl fmt::Debug for Weekday {
    ghost use Rattle.calendar_values.specs.Weekday.{weekday_name};

    ghost debug_output = { λ weekday. Some (weekday_name weekday) };

    fn fmt<W: fmt::Write>(&self, f: &mut fmt::Formatter<W>) -> fmt::Result {
        fmt::Debug::fmt(&self.text(), f)
    }
}
