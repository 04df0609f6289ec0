//! The months.
ghost use Rattle.std.specs.Prelude.{◌≡◌, ◌≤◌, ◌↔◌, ◌<◌, IsOk, IfOk, IfErr, Some, codes, length, IsAscii};
ghost use Rattle.std.specs.Fmt.{padded};
ghost use Rattle.calendar_values.specs.Refusals.{outright_refusal};

use crate::{ComponentRange, Part, Text};
use std::fmt;

/// A month of the year.
#[derive(Clone, Copy, PartialEq, Eq)]
pub enum Month {
    January = 1,
    February,
    March,
    April,
    May,
    June,
    July,
    August,
    September,
    October,
    November,
    December,
}

impl Month {
    ghost use Rattle.calendar_values.specs.Month.{month_number, month_name};

    /// The month of this number, 1 for January to 12 for December. Fails with `month` otherwise.
    ///
    /// ```
    /// assert_eq!(rt; Month::from_number(9), Ok(Month::September));
    /// assert_eq!(rt; Month::from_number(13), Err(ComponentRange::new("month", false)));
    /// ```
    pub fn from_number(number: u8) -> Result<Month, ComponentRange>
        ensures accepted { IsOk result ↔ ((1 ≤ number) × (number ≤ 12)) }
        ensures value { IfOk result (λ month. month_number month ≡ number) }
        ensures refused { IfErr result (λ refusal. refusal ≡ outright_refusal (codes "month")) }
    {
        if number == 0 || number > 12 {
            return Err(ComponentRange::of_part(Part::Month, false));
        }
        Ok(Month::of_number(number))
    }

    pub(crate) fn of_number(number: u8) -> Month
        requires first { 1 ≤ number }
        requires last { number ≤ 12 }
        ensures { month_number result ≡ number }
    {
        match number {
            1 => Month::January,
            2 => Month::February,
            3 => Month::March,
            4 => Month::April,
            5 => Month::May,
            6 => Month::June,
            7 => Month::July,
            8 => Month::August,
            9 => Month::September,
            10 => Month::October,
            11 => Month::November,
            _ => Month::December,
        }
    }

    /// The English name.
    ///
    /// ```
    /// assert_eq!(rt; Month::May.text().as_str(), "May");
    /// ```
    pub fn text(self) -> Text
        ensures text { result ≡ month_name self }
        ensures length { length result ≤ 9 }
    {
        let mut text = Text::new();
        text.push_bytes(self.name());
        text
    }

    fn name(self) -> &'static [u8]
        ensures name { result.now ≡ month_name self }
        ensures length { length result.now ≤ 9 }
        ensures ascii { IsAscii result.now }
    {
        match self {
            Month::January => b"January",
            Month::February => b"February",
            Month::March => b"March",
            Month::April => b"April",
            Month::May => b"May",
            Month::June => b"June",
            Month::July => b"July",
            Month::August => b"August",
            Month::September => b"September",
            Month::October => b"October",
            Month::November => b"November",
            Month::December => b"December",
        }
    }
}

impl From<Month> for u8 {
    ghost use Rattle.calendar_values.specs.Month.{month_number};

    ghost from_gives = { λ month n. n ≡ month_number month };

    fn from(month: Month) -> u8 {
        month as u8
    }
}

impl fmt::Display for Month {
    ghost use Rattle.calendar_values.specs.Month.{month_name};

    ghost output = { λ month. Some (month_name month) };

    ghost styled_output = { λ month spec. Some (padded spec (month_name month)) };

    fn fmt<W: fmt::Write>(&self, f: &mut fmt::Formatter<W>) -> fmt::Result {
        fmt::Display::fmt(&self.text(), f)
    }
}

impl fmt::Debug for Month {
    ghost use Rattle.calendar_values.specs.Month.{month_name};

    ghost debug_output = { λ month. Some (month_name month) };

    fn fmt<W: fmt::Write>(&self, f: &mut fmt::Formatter<W>) -> fmt::Result {
        fmt::Debug::fmt(&self.text(), f)
    }
}
