//! The refusal of a part that is out of its range.
ghost use Rattle.std.specs.Prelude.{◌≡◌, ◌≤◌, IsTrue, IsAscii, Some, length};
ghost use Rattle.std.proofs.Common.{rules};
ghost use Rattle.std.specs.Cmp.Rules.{comparing};
ghost use Rattle.std.specs.Fmt.{padded};
ghost use Rattle.calendar_values.specs.Refusals.{refusal_eq};
ghost use Rattle.calendar_values.specs.Texts.{refusal_text};

use crate::Text;
use std::error::Error;
use std::fmt;
use std::marker::Model;

/// The parts that can be out of range, by the names of [`ComponentRange::name`].
#[derive(Clone, Copy, Debug, PartialEq, Eq)]
pub enum Part {
    Year,
    Month,
    Day,
    Ordinal,
    Week,
    JulianDay,
    Hour,
    Minute,
    Second,
    Millisecond,
    Microsecond,
    Nanosecond,
    Hours,
    Minutes,
    Seconds,
    OffsetSeconds,
    Timestamp,
    Milliseconds,
    Microseconds,
    Nanoseconds,
}

impl Part {
    ghost use Rattle.calendar_values.specs.CountParts.{is_count_name};
    ghost use Rattle.calendar_values.specs.Parts.{part_name, is_part_name};

    fn named(name: &str) -> Part
        requires { IsTrue (is_part_name name.now) }
        ensures { part_name result ≡ name.now }
    {
        match name {
            "year" => Part::Year,
            "month" => Part::Month,
            "day" => Part::Day,
            "ordinal" => Part::Ordinal,
            "week" => Part::Week,
            "julian_day" => Part::JulianDay,
            "hour" => Part::Hour,
            "minute" => Part::Minute,
            "second" => Part::Second,
            "millisecond" => Part::Millisecond,
            "microsecond" => Part::Microsecond,
            "nanosecond" => Part::Nanosecond,
            _ => Part::count_named(name),
        }
    }

    fn count_named(name: &str) -> Part
        requires { IsTrue (is_count_name name.now) }
        ensures { part_name result ≡ name.now }
    {
        match name {
            "hours" => Part::Hours,
            "minutes" => Part::Minutes,
            "seconds" => Part::Seconds,
            "offset_seconds" => Part::OffsetSeconds,
            "timestamp" => Part::Timestamp,
            "milliseconds" => Part::Milliseconds,
            "microseconds" => Part::Microseconds,
            "nanoseconds" => Part::Nanoseconds,
            _ => unreachable!(),
        }
    }

    fn name(self) -> &'static str
        ensures { result.now ≡ part_name self }
    {
        match self {
            Part::Year => "year",
            Part::Month => "month",
            Part::Day => "day",
            Part::Ordinal => "ordinal",
            Part::Week => "week",
            Part::JulianDay => "julian_day",
            Part::Hour => "hour",
            Part::Minute => "minute",
            Part::Second => "second",
            Part::Millisecond => "millisecond",
            Part::Microsecond => "microsecond",
            Part::Nanosecond => "nanosecond",
            Part::Hours => "hours",
            Part::Minutes => "minutes",
            Part::Seconds => "seconds",
            Part::OffsetSeconds => "offset_seconds",
            Part::Timestamp => "timestamp",
            Part::Milliseconds => "milliseconds",
            Part::Microseconds => "microseconds",
            Part::Nanoseconds => "nanoseconds",
        }
    }
}

/// A part is out of its range. A contract sees the part's name and the conditional mark.
#[derive(Clone, Copy, Debug)]
pub struct ComponentRange {
    part: Part,
    conditional: bool,
}

impl Model for ComponentRange {
    ghost use Rattle.calendar_values.specs.Refusals.{Refusal};

    ghost Value = { Refusal };

    ghost use Rattle.calendar_values.specs.Parts.{part_name, part_named, part_named-part_name};

    ghost view = { λ c. record { name = part_name c.part; conditional = c.conditional } };

    ghost inverse = { λ r. record { part = part_named r.name; conditional = r.conditional } };

    ghost inverse_ok = { λ c h i. record {
      part = part_named-part_name c.part i;
      conditional = c.conditional;
    } };
}

impl ComponentRange {
    ghost use Rattle.calendar_values.specs.Parts.{is_part_name, part_name};

    /// The error for the part of this name. `conditional` says that the value is possible for some
    /// year and month, and not with the other parts.
    ///
    /// ```
    /// let refusal = ComponentRange::new("hour", false);
    /// assert_eq!(rt; Time::from_hms(24, 0, 0), Err(refusal));
    /// ```
    pub fn new(name: &'static str, conditional: bool) -> ComponentRange
        requires { IsTrue (is_part_name name.now) }
        ensures { result ≡ record { name = name.now; conditional = conditional } }
    {
        ComponentRange::of_part(Part::named(name), conditional)
    }

    /// The error for this part. `conditional` says that the value is possible for some year and
    /// month, and not with the other parts.
    ///
    /// ```
    /// assert_eq!(rt; ComponentRange::of_part(Part::Day, true), ComponentRange::new("day", true));
    /// ```
    #[inline(always)]
    pub fn of_part(part: Part, conditional: bool) -> ComponentRange
        ensures { result ≡ record { name = part_name part; conditional = conditional } }
    {
        ComponentRange { part, conditional }
    }

    /// The part.
    ///
    /// ```
    /// let refusal = ComponentRange::new("minute", false);
    /// assert_eq!(rt; refusal.part(), Part::Minute);
    /// ```
    #[inline(always)]
    pub fn part(self) -> Part
        ensures { part_name result ≡ self.name }
    {
        self.part
    }

    /// The name of the part: ASCII, and at most 14 bytes long.
    ///
    /// ```
    /// let refusal = ComponentRange::of_part(Part::Second, false);
    /// assert_eq!(rt; refusal.name(), "second");
    /// ```
    pub fn name(self) -> &'static str
        ensures value { result.now ≡ self.name }
        ensures ascii { IsAscii result.now }
        ensures length { length result.now ≤ 14 }
    {
        self.part.name()
    }

    /// Whether the value is possible for some year and month, and not with the other parts.
    ///
    /// ```
    /// let in_april = Date::from_calendar_date(2021, Month::April, 31);
    /// assert_eq!(rt; in_april.map_err(|refusal| refusal.is_conditional()), Err(true));
    /// assert_eq!(rt;
    ///     Time::from_hms(0, 60, 0).map_err(|refusal| refusal.is_conditional()),
    ///     Err(false)
    /// );
    /// ```
    pub fn is_conditional(self) -> bool
        ensures { result ≡ self.conditional }
    {
        self.conditional
    }

    /// The text, such as `day is out of range`, with ` given the other parts` after it if the error
    /// is conditional.
    ///
    /// ```
    /// let refusal = ComponentRange::new("hour", false);
    /// assert_eq!(rt; refusal.text().as_str(), "hour is out of range");
    /// ```
    #[tactic(auto, unfolding(crate::specs::Texts::refusal_text))]
    pub fn text(self) -> Text
        ensures text { result ≡ refusal_text self }
        ensures length { length result ≤ 52 }
    {
        let mut text = Text::new();
        text.push_bytes(self.name().as_bytes());
        text.push_bytes(b" is out of range");
        if self.is_conditional() {
            text.push_bytes(b" given the other parts");
        }
        text
    }
}

impl fmt::Display for ComponentRange {
    ghost output = { λ refusal. Some (refusal_text refusal) };

    ghost styled_output = { λ refusal spec. Some (padded spec (refusal_text refusal)) };

    fn fmt<W: fmt::Write>(&self, f: &mut fmt::Formatter<W>) -> fmt::Result {
        fmt::Display::fmt(&self.text(), f)
    }
}

impl Error for ComponentRange {}

impl PartialEq for ComponentRange {
    ghost eq = { refusal_eq };

    ghost laws = { Prim.search (comparing, rules) };

    fn eq(&self, other: &ComponentRange) -> bool {
        self.part == other.part && self.conditional == other.conditional
    }
}

impl Eq for ComponentRange {
    ghost laws = { Prim.search (comparing, rules) };
}
