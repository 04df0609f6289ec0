//! Why a wall clock is no date-time of a zone.
use crate::Gap;

/// Why a wall clock is no date-time of a zone, or not the only one.
#[derive(Clone, Copy, Debug, PartialEq, Eq)]
pub enum LocalRefusal {
    /// The clocks of the zone are put forward past the wall clock.
    Gap(Gap),
    /// The clocks of the zone are put back over the wall clock, so they show it twice.
    Fold,
    /// Clocks are put forward past the wall clock, and the date of the date-time that takes its
    /// place is out of range.
    OutOfRange,
}
