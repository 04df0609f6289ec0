//! Rules for all years, with their abbreviations.
ghost use Rattle.calendar_values.specs.Offsets.{IsOffset};

use zones::Moment;

/// Daylight saving time in a rule.
#[derive(Clone, Copy)]
pub struct Daylight<'a> {
    /// Its abbreviation, such as `CEST`.
    pub name: &'a [u8],
    /// Seconds east of UTC.
    pub offset: i32,
    /// The moment of each year from which on it lasts.
    pub from: Moment,
    /// The moment of each year until which it lasts.
    pub until: Moment,
    pub ghost offset_in: { IsOffset offset },
}

/// A rule for all years.
#[derive(Clone, Copy)]
pub struct TzRule<'a> {
    /// The abbreviation of standard time, such as `CET`.
    pub name: &'a [u8],
    /// Seconds east of UTC.
    pub offset: i32,
    /// Daylight saving time, if there is any.
    pub daylight: Option<Daylight<'a>>,
    pub ghost offset_in: { IsOffset offset },
}
