//! The units of a truncation.
ghost use Rattle.std.specs.Prelude.{◌≡◌};
ghost use Rattle.muxandu_c.specs.Values.{unit_numbered};

use crate::refused::Refused;

/// The number of a unit of time.
pub type MuxanduUnit = u32;

/// A unit of time. A call takes its number.
#[derive(Clone, Copy, Drop)]
pub enum Unit {
    /// A day.
    Day = 1,
    /// An hour.
    Hour = 2,
    /// A minute.
    Minute = 3,
    /// A second.
    Second = 4,
    /// A millisecond.
    Millisecond = 5,
    /// A microsecond.
    Microsecond = 6,
    /// A nanosecond.
    Nanosecond = 7,
}

// The unit of a number.
pub(crate) fn read_unit(number: u32) -> Result<Unit, Refused>
    ensures { result ≡ unit_numbered number }
{
    match number {
        1 => Ok(Unit::Day),
        2 => Ok(Unit::Hour),
        3 => Ok(Unit::Minute),
        4 => Ok(Unit::Second),
        5 => Ok(Unit::Millisecond),
        6 => Ok(Unit::Microsecond),
        7 => Ok(Unit::Nanosecond),
        _ => Err(Refused::Unit),
    }
}
